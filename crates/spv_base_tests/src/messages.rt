//! What errors are shown as: each variant of each type.

use spv_builtin::{GrammarError, Memory};
use spv_parser::{AsmCode, AsmError};
use spv_printer::{EncodeCode, EncodeError};
use spv_words::{Failed, WordError};
use std::alloc::{AllocError, Global};
use std::fmt::Display;
use std::test::Fail;

/// What they are shown as, a line each.
const MESSAGES: &str = "a read or a write failed
the module has fewer than 20 bytes
the number of bytes is no multiple of 4
the magic number is missing
the version is not 1.6
the schema is not 0
the bound is not from 1 to 4194303
the module has more than 16777216 bytes
out of memory
a call of the reader or of the writer failed
the grammar is not JSON of at most 127 levels
a key of the grammar is missing or has another sort of value
an opcode or a value of the grammar is out of its range or form
the grammar names a kind that it does not have
the grammar has an unknown category or quantifier
a result kind of the grammar stands twice, is quantified, or stands in parameters or bases
a composite kind of the grammar has no bases, or one that is neither an id nor a literal
out of memory
out of memory
instruction 7: the header does not fit
instruction 7: no words spell the instruction
instruction 7: the instruction or the module is too long
instruction 7: out of memory
line 7: a line of the header is missing or ill-formed
line 7: no known instruction
line 7: an operand is missing, too many, ill-formed or unknown
line 7: a number is too large
line 7: the instruction or the module is too long
line 7: out of memory
";

/// Adds the lines of some errors to a text.
fn show_each<E: Display>(
    alloc: Global,
    errors: &[E],
    lines: &mut String,
) -> Result<(), AllocError> {
    for error in errors {
        lines.push_str(format!(in alloc; "{error}\n")?.as_str())?;
    }
    Ok(())
}

/// Adds those of what is wrong with a module, at instruction 7, and with a text, at line 7.
fn show_places(alloc: Global, lines: &mut String) -> Result<(), AllocError> {
    use AsmCode::{S1, S2, S3, S4, S5, S6};
    use EncodeCode::{Memory, N1, N2, N3};
    for code in [N1, N2, N3, Memory] {
        show_each(alloc, &[EncodeError { code, inst: 7 }], lines)?;
    }
    for code in [S1, S2, S3, S4, S5, S6] {
        show_each(alloc, &[AsmError { code, line: 7 }], lines)?;
    }
    Ok(())
}

#[test]
fn messages(rt: HostRuntime) -> Result<(), Fail> {
    use GrammarError::{J1, J2, J3, J4, J5, J6, J7, J8};
    use WordError::{W1, W2, W3, W4, W5, W6, W7, W8, W9};
    let alloc = rt.alloc();
    let mut lines = String::new(alloc);
    show_each(alloc, &[W1, W2, W3, W4, W5, W6, W7, W8, W9], &mut lines)?;
    show_each(alloc, &[Failed], &mut lines)?;
    show_each(alloc, &[J1, J2, J3, J4, J5, J6, J7, J8], &mut lines)?;
    show_each(alloc, &[Memory], &mut lines)?;
    show_places(alloc, &mut lines)?;
    assert!(rt; lines.as_str() == MESSAGES);
    Ok(())
}
