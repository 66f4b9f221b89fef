//! What `help` and `--version` say besides the names of commands and options.

/// What `spv --version` says after the program's name: the version, and on a line of its own the version of SPIR-V and
/// the toolchain that proved it.
pub const VERSION: &str = "1.2.0\nSPIR-V 1.6, proved with rattle-kit-13f (logic dac8208d650f15bf)";

/// Of the grammar file.
pub const GRAMMAR_FILE: &str =
    "A grammar file, in JSON; where it is left out, that of SPV_GRAMMAR, and without that the built-in grammar";

/// Of `--as-1.6`.
pub const AS_1_6: &str =
    "Takes a module of version 1.0 to 1.5 as one of 1.6: `valid` then says that the module with the version 1.6 in its \
    header is valid, and not that it keeps what its own version asks for";

/// Of `--extended`.
pub const EXTENDED: &str =
    "Looks at the operands of extended instructions too, for loaders: `valid` then says that their ids are defined, \
    and that OpenCL.std has the instructions that are called";

/// Of `--opencl`.
pub const OPENCL: &str =
    "Takes what a kernel of OpenCL can be, of version 1.0 to 1.6, each as it is: instructions that the profile does not have, \
    and what --extended looks at; not with --as-1.6";

/// Of `--opencl` of `show`.
pub const SHOWN_OPENCL: &str =
    "Takes a module of version 1.0 to 1.6, each as it is: the text names its version; not with --as-1.6";

/// Of `--opencl` of `asm`.
pub const OPENCL_TEXT: &str =
    "Takes a text that names version 1.0 to 1.5 too: the module then has that version";

/// Of the only function that `annotate` writes.
pub const ONLY_FUNCTION: &str =
    "The only function that is written: its id, or else its name, by OpName or that of its entry point";

/// Of the function whose blocks `graph` draws.
pub const DRAWN_FUNCTION: &str =
    "The function whose blocks are drawn: its id, or else its name, by OpName or that of its entry point; where it is \
    left out, the calls are drawn";

/// Of the function whose run `trace` writes.
pub const FUNCTION: &str =
    "The function of an entry point: its id, or else its name, by OpName or that of its entry point";

/// Of the limit of `trace`.
pub const LIMIT: &str =
    "The greatest number of steps; the run is written once it is whole, or `error memory` alone where it does not fit";

/// Behind the commands of the program.
pub const PROGRAM: &str =
    "A FILE `-` is the standard input. After `--` a word that begins with `-` is a FILE.

Environment:
  SPV_GRAMMAR  the grammar file where --grammar is left out; without it the built-in grammar of
               SPIR-V 1.6 is used
  SPV_VERBOSE  where it is neither empty nor 0: does what --verbose does

Exit status:
  0  done, and each module is valid
  1  a fault line was written
  2  an error: a line on the standard error tells it

Example:
  spv check --opencl kernel.spv";

/// After the options of `check`.
pub const CHECK: &str =
    "Writes `valid`, or the line of the first rule that the module breaks. Of several files it writes
`FILE: VERDICT`, a line each, in order; what cannot be read is told on the standard error, and the
next file follows. Of --with-filename and --no-filename only one may be given. With --json each file
has one line, a JSON object, and so has one that cannot be read.

Exit status:
  0  each module is valid
  1  a module breaks a rule
  2  an error: a line on the standard error tells it

Example:
  spv check --opencl first.spv second.spv";

/// After the options of `explain`.
pub const EXPLAIN: &str =
    "Writes the verdict as `check` does, and after it what explains it: the rule, the instruction, its
place and what shows that it breaks the rule. Of several files each part begins with
`FILE: VERDICT`. Of --with-filename and --no-filename only one may be given. With --json each file
has one line, a JSON object that says the same, and so has one that cannot be read.

Exit status:
  0  each module is valid
  1  a module breaks a rule
  2  an error: a line on the standard error tells it

Example:
  spv explain kernel.spv";

/// After the options of `show`.
pub const SHOW: &str =
    "Writes the text of the module's instructions, a line each, which `asm` makes the same module of.

Exit status:
  0  the text was written
  1  the bytes are no list of instructions: the verdict line was written
  2  an error: a line on the standard error tells it

Example:
  spv show kernel.spv";

/// After the options of `annotate`.
pub const ANNOTATE: &str =
    "Writes the lines that `show` writes, and after each, as a comment, the numbers of its instruction and
of its first word, and the names of its ids. Where the module is not valid, comments below the
instruction of the fault explain it. `asm` reads the text of `show`, and not this one.

Exit status:
  0  the text was written
  1  the verdict line was written: the bytes are no list of instructions, or with --function the
     module breaks a rule of W, I, P or L
  2  an error: a line on the standard error tells it

Example:
  spv annotate --html kernel.spv > kernel.html";

/// After the options of `graph`.
pub const GRAPH: &str =
    "Writes a graph in DOT, which graphviz draws: the functions and their calls, or the blocks of one
function and where each leads. Where the module is not valid, what breaks the rule is red.

Exit status:
  0  the graph was written
  1  the verdict line was written: the bytes are no list of instructions, or with --function the
     module breaks a rule of W, I, P or L
  2  an error: a line on the standard error tells it

Example:
  spv graph --function 4 kernel.spv | dot -Tsvg > kernel.svg";

/// After the options of `asm`.
pub const ASM: &str =
    "Makes the module of a text as `show` writes it. An OUT `-` is the standard output; the line of a
fault then goes to the standard error. An OUT that is FILE itself is refused, and FILE stays as it is.

Exit status:
  0  the module was made
  1  the text is not that of a module: the line `fault CODE line L` was written
  2  an error: a line on the standard error tells it

Example:
  spv asm --out kernel.spv kernel.txt";

/// After the options of `trace`.
pub const TRACE: &str =
    "Writes a line for each step, its depth of calls and its instruction, and last how the run ends.

Exit status:
  0  the run was written
  1  the module is not valid: the verdict line was written
  2  an error: a line on the standard error tells it

Example:
  spv trace --function main --limit 100 kernel.spv";

/// After the options of `rules`.
pub const RULES: &str = "Reads no file.

Exit status:
  0  the text was written
  2  an error: a line on the standard error tells it

Example:
  spv rules A1";

/// After the options of `grammar`.
pub const GRAMMAR: &str =
    "Reading what it writes gives the same grammar. It reads no module, and SPV_GRAMMAR is not used.

Exit status:
  0  the grammar file was written
  2  an error: a line on the standard error tells it

Example:
  spv grammar > spirv.grammar.json";
