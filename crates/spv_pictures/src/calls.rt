//! The picture of a module's calls.
ghost use Rattle.std.specs.Prelude.{◌≡◌, ◌<◌, ◌++◌, ◌∷◌, ℕ, Option, Some, IfOk, OnOk, drop, flat_map, length};
ghost use Rattle.std.specs.Prelude.{map, option_map, string_bytes};
ghost use Rattle.spv_module.specs.Module.{plain_inst, plain_insts, plain_operands};
ghost use Rattle.spv_module.specs.Operand.{result_in};
ghost use Rattle.spv_pictures.specs.Calls as calls;
ghost use Rattle.spv_pictures.specs.Calls.{call_edge, call_graph_text, entry_line, function_label, function_node};
ghost use Rattle.spv_pictures.specs.Calls.{function_text, functions, given_to, name_line};
ghost use Rattle.spv_names.specs.Names.{named_by};
ghost use Rattle.spv_names.specs.declared.naming.Naming.TheVariants.{EntryPoint};
ghost use Rattle.spv_pictures.specs.inner.Adds.{Adds};
ghost use Rattle.spv_pictures.specs.inner.Names.{AreKnown, HasEntries, kept};

use crate::function::body_of;
use crate::label::{push_id, push_label, push_node_name};
use crate::names::{first_name, places_of};
use spv_module::{Inst, Module, Operand, opcode};
use spv_names::{Naming, named};
use std::alloc::{AllocError, Global};
use std::collections::BTreeMap;

/// Instructions, and where the names of ids and those of entry points are among them.
#[derive(Drop)]
pub struct Known<'m, 'a> {
    insts: &'m [Inst<'a>],
    names: BTreeMap<u32, usize>,
    /// Of each id the lines of the entry points that it is.
    entries: BTreeMap<u32, String>,
}

/// Looks for the names of instructions.
fn look_for_names<'m, 'a>(alloc: Global, insts: &'m [Inst<'a>]) -> Result<Known<'m, 'a>, AllocError>
    ensures known { IfOk result (λ k. AreKnown k) }
    ensures insts { IfOk result (λ k. k.insts.now ≡ insts.now) }
{
    let names = places_of(alloc, Naming::Name, insts)?;
    let entries = entry_lines_of(alloc, insts)?;
    Ok(Known {
        insts,
        names,
        entries,
    })
}

/// Adds the name of a function, if it has one.
fn push_name_line(out: &mut String, name: Option<&str>) -> Result<(), AllocError>
    ensures { OnOk result (string_bytes out.new ≡ string_bytes out.old
        ++ name_line (option_map (λ t. t.now) name.entry)) }
{
    match name {
        Some(name) => {
            out.push_str("<BR/>")?;
            push_label(out, name)
        }
        None => Ok(()),
    }
}

/// Adds the name of an entry point.
fn push_entry_line(out: &mut String, name: &str) -> Result<(), AllocError>
    ensures { OnOk result (string_bytes out.new ≡ string_bytes out.old ++ entry_line name.now) }
{
    out.push_str("<B><BR/>")?;
    push_label(out, name)?;
    out.push_str("</B>")
}

/// Adds the name of one entry point more of a function to what is kept of it.
fn keep_entry(
    alloc: Global,
    entries: &mut BTreeMap<u32, String>,
    function: u32,
    name: &str,
) -> Result<(), AllocError>
    ensures { OnOk result ((x : ℕ) → kept entries.new x
        ≡ kept entries.old x ++ calls.entry_lines (given_to x (Some (function, name.now)))) }
{
    let mut lines = match entries.remove(&function) {
        Some(lines) => lines,
        None => String::new(alloc),
    };
    push_entry_line(&mut lines, name)?;
    entries.insert(function, lines)?;
    Ok(())
}

/// The same of an instruction, if it is an OpEntryPoint.
fn keep_entry_of(
    alloc: Global,
    entries: &mut BTreeMap<u32, String>,
    inst: &Inst<'_>,
) -> Result<(), AllocError>
    ensures { OnOk result ((x : ℕ) → kept entries.new x
        ≡ kept entries.old x ++ calls.entry_lines (given_to x (named_by EntryPoint (plain_inst inst.now)))) }
{
    match named(Naming::EntryPoint, inst) {
        Some((function, name)) => keep_entry(alloc, entries, function, name),
        None => Ok(()),
    }
}

/// Of each id the lines of the entry points that it is, in the order of the instructions.
fn entry_lines_of(alloc: Global, insts: &[Inst<'_>]) -> Result<BTreeMap<u32, String>, AllocError>
    ensures { IfOk result (HasEntries (map plain_inst insts.now)) }
{
    let mut entries = BTreeMap::new(alloc);
    for inst in insts {
        keep_entry_of(alloc, &mut entries, inst)?;
    }
    Ok(entries)
}

/// Adds what marks an entry point, by its lines.
fn push_entry_mark(out: &mut String, entries: &str) -> Result<(), AllocError>
    ensures { OnOk result (string_bytes out.new ≡ string_bytes out.old ++ calls.entry_mark entries.now) }
{
    if entries.is_empty() {
        return Ok(());
    }
    out.push_str(" [peripheries=2]")
}

/// Adds what marks a declaration.
fn push_declaration_mark(out: &mut String, has_block: bool) -> Result<(), AllocError>
    ensures { OnOk result (string_bytes out.new ≡ string_bytes out.old ++ calls.declaration_mark has_block) }
{
    if has_block {
        return Ok(());
    }
    out.push_str(" [style=dashed]")
}

/// Adds the label of a function.
fn push_function_label(
    out: &mut String,
    id: Option<u32>,
    name: Option<&str>,
    entries: &str,
) -> Result<(), AllocError>
    ensures { OnOk result (string_bytes out.new ≡ string_bytes out.old
        ++ function_label id (option_map (λ t. t.now) name.entry) entries.now) }
{
    out.push_str(" [label=<")?;
    push_id(out, id)?;
    push_name_line(out, name)?;
    out.push_str(entries)?;
    out.push_str(">]")
}

/// Adds the node of a function.
fn push_node(
    out: &mut String,
    id: Option<u32>,
    name: Option<&str>,
    entries: &str,
    has_block: bool,
) -> Result<(), AllocError>
    ensures { OnOk result (string_bytes out.new ≡ string_bytes out.old
        ++ function_node id (option_map (λ t. t.now) name.entry) entries.now has_block) }
{
    out.push_str("  ")?;
    push_node_name(out, id)?;
    push_function_label(out, id, name, entries)?;
    push_entry_mark(out, entries)?;
    push_declaration_mark(out, has_block)?;
    out.push_str(";\n")
}

/// The function that an instruction calls, if it is an OpFunctionCall.
fn callee_of(inst: &Inst<'_>) -> Option<u32>
    ensures { result ≡ calls.callee_of (plain_inst inst.now) }
{
    if inst.opcode != opcode::FUNCTION_CALL {
        return None;
    }
    match inst.operands.as_slice() {
        [
            Operand::OfType(_),
            Operand::Result(_),
            Operand::Id(function),
            ..
        ] => Some(*function),
        _ => None,
    }
}

/// Adds the edge of a call, if there is one.
fn push_call(out: &mut String, from: Option<u32>, callee: Option<u32>) -> Result<(), AllocError>
    ensures { OnOk result (string_bytes out.new ≡ string_bytes out.old ++ call_edge from callee) }
{
    if callee.is_none() {
        return Ok(());
    }
    out.push_str("  ")?;
    push_node_name(out, from)?;
    out.push_str(" -> ")?;
    push_node_name(out, callee)?;
    out.push_str(";\n")
}

/// Adds the edges of the calls of a function's instructions.
fn push_calls(out: &mut String, from: Option<u32>, body: &[Inst<'_>]) -> Result<(), AllocError>
    ensures { OnOk result (string_bytes out.new ≡ string_bytes out.old
        ++ flat_map (λ j. call_edge from (calls.callee_of j)) (map plain_inst body.now)) }
{
    for inst in body {
        push_call(out, from, callee_of(inst))?;
    }
    Ok(())
}

/// Whether instructions have an OpLabel.
fn has_label(insts: &[Inst<'_>]) -> bool
    ensures { result ≡ calls.has_label (map plain_inst insts.now) }
{
    for inst in insts {
        if inst.opcode == opcode::LABEL {
            return true;
        }
    }
    false
}

impl<'m, 'a> Known<'m, 'a> {
    /// The lines of the entry points that a function is.
    fn entries_of(&self, id: Option<u32>) -> &str
        requires { AreKnown self.now }
        ensures { result.now ≡ calls.entry_lines (calls.entries_of (map plain_inst self.now.insts.now) id) }
    {
        let Some(id) = id else {
            return "";
        };
        match self.entries.get(&id) {
            Some(lines) => lines.as_str(),
            None => "",
        }
    }

    /// Adds a function, by its OpFunction and the instructions of it that follow.
    fn push_function(
        &self,
        out: &mut String,
        head: &Inst<'a>,
        body: &[Inst<'a>],
    ) -> Result<(), AllocError>
        requires { AreKnown self.now }
        ensures { OnOk result (string_bytes out.new ≡ string_bytes out.old
            ++ function_text (map plain_inst self.now.insts.now) (plain_inst head.now ∷ map plain_inst body.now)) }
    {
        let id = head.result_id();
        let name = first_name(Naming::Name, &self.names, self.insts, id);
        push_node(out, id, name, self.entries_of(id), has_label(body))?;
        push_calls(out, id, body)
    }

    /// Adds the function whose OpFunction is the first of some instructions; nothing where that is another one.
    fn push_first(&self, out: &mut String, insts: &[Inst<'a>]) -> Result<(), AllocError>
        requires known { AreKnown self.now }
        requires some { 0 < length insts.now }
        ensures { OnOk result (Adds (function_text (map plain_inst self.now.insts.now))
            (functions (map plain_inst insts.now)) (functions (drop 1 (map plain_inst insts.now)))
            (string_bytes out.old) (string_bytes out.new)) }
    {
        let head = &insts[0];
        if head.opcode != opcode::FUNCTION {
            return Ok(());
        }
        self.push_function(out, head, body_of(&insts[1..]))
    }

    /// Adds all functions.
    fn push_functions(&self, out: &mut String) -> Result<(), AllocError>
        requires { AreKnown self.now }
        ensures { OnOk result (string_bytes out.new ≡ string_bytes out.old
            ++ flat_map (function_text (map plain_inst self.now.insts.now))
            (functions (map plain_inst self.now.insts.now))) }
    {
        let insts = self.insts;
        for at in 0..insts.len() {
            self.push_first(out, &insts[at..])?;
        }
        Ok(())
    }
}

/// The picture of a module's calls, in DOT: a node for each function, and an edge for each function that it calls. A
/// node has the function's id, and below it the first name that an OpName gives it and, in bold, those of its
/// OpEntryPoints. An entry point has two borders, a function without a block a dashed one. Of texts control characters
/// stand as `\xNN`. Time is near-linear in the words of the module.
///
/// An `AllocError` comes only where a growth of memory was refused.
pub fn call_graph(alloc: Global, module: &Module<'_>) -> Result<String, AllocError>
    ensures { IfOk result (λ t. string_bytes t ≡ call_graph_text (plain_insts «module».now)) }
{
    let mut out = String::new(alloc);
    let known = look_for_names(alloc, module.insts.as_slice())?;
    out.push_str("strict digraph \"calls\" {\n  node [shape=box label=\"%\\N\"];\n")?;
    known.push_functions(&mut out)?;
    out.push_str("}\n")?;
    Ok(out)
}
