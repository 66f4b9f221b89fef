//! Opcodes that may come, told by the classes of the layout.
ghost use Rattle.std.specs.Prelude.{◌≡◌, ◌++◌, [], IfOk, OnOk, flat_map, string_bytes};
ghost use Rattle.std.specs.List.{list_any};
ghost use Rattle.spv_layout.specs.Rows as rows;
ghost use Rattle.spv_fault_lines.specs.Classes as texts;
ghost use Rattle.spv_fault_lines.specs.Classes.{class_part, class_parts, class_text, classes_from, classes_text};
ghost use Rattle.spv_fault_lines.specs.Classes.{later_end, sounds_as, with_class};

use spv_layout::{Class, row};
use std::alloc::{AllocError, Global};

/// A class in words.
fn class_words(class: Class) -> &'static str
    ensures { result.now ≡ class_text class }
{
    match class {
        Class::Capability => "OpCapability",
        Class::Extension => "OpExtension",
        Class::Import => "OpExtInstImport",
        Class::MemoryModel => "OpMemoryModel",
        Class::EntryPoint => "OpEntryPoint",
        Class::ExecutionMode => "OpExecutionMode",
        Class::Source => "a source",
        Class::Name => "a name",
        Class::Processed => "OpModuleProcessed",
        Class::Decoration => "a decoration",
        Class::Declaration => "a type or constant",
        Class::Variable => "a variable",
        Class::Undef => "OpUndef",
        Class::Function => "OpFunction",
        Class::Parameter => "OpFunctionParameter",
        Class::FunctionEnd => "OpFunctionEnd",
        Class::Label => "OpLabel",
        Class::Phi => "OpPhi",
        Class::Body => "an instruction of a block",
        Class::Branch | Class::BranchConditional | Class::Switch | Class::Return => {
            "the end of a block"
        }
        Class::LoopMerge => "OpLoopMerge",
        Class::SelectionMerge => "OpSelectionMerge",
        Class::Line => "a line",
        Class::Extended => "OpExtInst",
        Class::Outside => "an opcode outside the profile",
    }
}

/// The class of an opcode.
fn class_of(opcode: u16) -> Class
    ensures { result ≡ rows.class_of opcode }
{
    match row(opcode) {
        Some(row) => row.class,
        None => Class::Outside,
    }
}

/// The class of a number that may be an opcode.
fn class_at(opcode: u32) -> Class
    ensures { result ≡ texts.class_at opcode }
{
    if opcode < 65536 {
        return class_of(opcode as u16);
    }
    Class::Outside
}

/// Whether a class is told by the words of another: OpExtInst by those of the instructions of a block, too.
fn sound_alike(one: Class, other: Class) -> bool
    ensures { result ≡ sounds_as one other }
{
    match (one, other) {
        (Class::Extended, Class::Body) => true,
        _ => class_words(one) == class_words(other),
    }
}

/// Whether one of these classes is told by the same words as another class.
fn has_told(classes: &[Class], class: Class) -> bool
    ensures { result ≡ list_any (sounds_as class) classes.now }
{
    for told in classes {
        if sound_alike(class, *told) {
            return true;
        }
    }
    false
}

/// Adds a class, unless one of them is told by the same words.
fn push_class(classes: &mut Vec<Class>, class: Class) -> Result<(), AllocError>
    ensures { OnOk result (classes.new.items ≡ with_class classes.old.items class) }
{
    if has_told(classes, class) {
        return Ok(());
    }
    classes.push(class)?;
    Ok(())
}

/// The classes of opcodes, each once, in the order in which they first come.
fn classes_of(alloc: Global, opcodes: &[u32]) -> Result<Vec<Class>, AllocError>
    ensures { IfOk result (λ v. v.items ≡ classes_from [] opcodes.now) }
{
    let mut classes = Vec::new(alloc);
    for opcode in opcodes {
        push_class(&mut classes, class_at(*opcode))?;
    }
    Ok(classes)
}

/// Adds classes, each after a semicolon.
fn push_later(out: &mut String, classes: &[Class]) -> Result<(), AllocError>
    ensures { OnOk result (string_bytes out.new ≡ string_bytes out.old ++ flat_map class_part classes.now) }
{
    for class in classes {
        out.push_str("; ")?;
        out.push_str(class_words(*class))?;
    }
    Ok(())
}

/// Adds classes, with semicolons between them.
fn push_classes(out: &mut String, classes: &[Class]) -> Result<(), AllocError>
    ensures { OnOk result (string_bytes out.new ≡ string_bytes out.old ++ class_parts classes.now) }
{
    match classes {
        [first, rest @ ..] => {
            out.push_str(" ")?;
            out.push_str(class_words(*first))?;
            push_later(out, rest)
        }
        [] => Ok(()),
    }
}

/// Adds whether the module may end, behind classes.
fn push_later_end(out: &mut String, end: bool) -> Result<(), AllocError>
    ensures { OnOk result (string_bytes out.new ≡ string_bytes out.old ++ later_end end) }
{
    if end {
        return out.push_str("; end of module");
    }
    Ok(())
}

/// Adds the classes of opcodes in words, each once, and whether the module may end.
pub fn push_coming_classes(
    out: &mut String,
    alloc: Global,
    opcodes: &[u32],
    end: bool,
) -> Result<(), AllocError>
    ensures { OnOk result (string_bytes out.new ≡ string_bytes out.old ++ classes_text opcodes.now end) }
{
    let classes = classes_of(alloc, opcodes)?;
    push_classes(out, classes.as_slice())?;
    push_later_end(out, end)
}
