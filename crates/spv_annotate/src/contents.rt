//! What is written in the list of contents of a page.

ghost use Rattle.std.specs.Prelude.{◌≡◌, ◌++◌, OnOk, codes, string_bytes};
ghost use Rattle.spv_annotate.specs.Piece.{Function, plain_piece};
ghost use Rattle.spv_annotate.specs.Page as page;
ghost use Rattle.spv_annotate.specs.Page.{contents_of, entry_link, label_of, name_behind, section_link};
ghost use Rattle.spv_annotate.specs.Page.{summary_class};
ghost use Rattle.spv_annotate.specs.inner.Look.{scene};

use crate::buffer::push_between;
use crate::linked::push_link;
use crate::look::Look;
use crate::names::name_at;
use crate::piece::Piece;
use crate::short::push_short;
use crate::words::push_id;
use std::alloc::AllocError;

/// A section by its number.
fn section_title(section: u32) -> &'static str
    ensures { result.now ≡ page.section_title section }
{
    match section {
        1 => "Capabilities",
        2 => "Extensions",
        3 => "Imports",
        4 => "Memory model",
        5 => "Entry points",
        6 => "Execution modes",
        7 => "Sources and names",
        8 => "Decorations",
        _ => "Types, constants and variables",
    }
}

/// Adds a link to the first instruction of a section.
fn push_section_link(out: &mut String, inst: u32, section: u32) -> Result<(), AllocError>
    ensures { OnOk result (string_bytes out.new ≡ string_bytes out.old ++ section_link inst section) }
{
    push_between(out, "<a href=#", inst, ">")?;
    out.push_str(section_title(section))?;
    out.push_str("</a>\n")
}

impl<'p, 'a> Look<'p, 'a> {
    /// Adds the name that an OpName of that number gives, behind a space.
    fn push_name_behind(&self, out: &mut String, naming: Option<u32>) -> Result<(), AllocError>
        ensures { OnOk result (string_bytes out.new ≡ string_bytes out.old ++ name_behind (scene self.now) naming) }
    {
        let Some(naming) = naming else {
            return Ok(());
        };
        out.push(' ')?;
        push_short(out, name_at(self.insts, naming))
    }

    /// Adds a result, if there is one, and its name.
    fn push_label(&self, out: &mut String, id: Option<u32>) -> Result<(), AllocError>
        ensures { OnOk result (string_bytes out.new ≡ string_bytes out.old ++ label_of (scene self.now) id) }
    {
        let Some(id) = id else {
            return Ok(());
        };
        push_id(out, id)?;
        self.push_name_behind(out, self.namings.get(id))
    }

    /// Adds a link to an instruction, by its result.
    fn push_entry(&self, out: &mut String, inst: u32) -> Result<(), AllocError>
        ensures { OnOk result (string_bytes out.new ≡ string_bytes out.old ++ entry_link (scene self.now) inst) }
    {
        let mut label = String::new(self.alloc);
        self.push_label(&mut label, self.result_of(inst))?;
        push_link(out, inst, label.as_str())
    }

    /// Adds how a function is marked, and the end of its tag.
    fn push_summary_class(&self, out: &mut String, inst: u32) -> Result<(), AllocError>
        ensures { OnOk result (string_bytes out.new
            ≡ string_bytes out.old ++ (summary_class (scene self.now) inst ++ codes ">")) }
    {
        if self.faulty == Some(inst) {
            return out.push_str(" class=fault>");
        }
        out.push_str(">")
    }

    /// Begins the list of a function.
    fn push_list(&self, out: &mut String, inst: u32) -> Result<(), AllocError>
        ensures { OnOk result (string_bytes out.new
            ≡ string_bytes out.old ++ contents_of (scene self.now) (Function inst)) }
    {
        out.push_str("</details>\n<details>\n<summary")?;
        self.push_summary_class(out, inst)?;
        self.push_entry(out, inst)?;
        out.push_str("</summary>\n")
    }

    /// Adds what stands in the list of contents for a piece.
    ///
    /// An `AllocError` comes only where a growth of memory was refused, and then nothing is said of what is left.
    pub fn push_contents(&self, out: &mut String, piece: Piece<'_>) -> Result<(), AllocError>
        ensures { OnOk result (string_bytes out.new
            ≡ string_bytes out.old ++ contents_of (scene self.now) (plain_piece piece.entry)) }
    {
        match piece {
            Piece::Section { inst, section } => push_section_link(out, inst, section),
            Piece::Function(inst) => self.push_list(out, inst),
            Piece::Block(inst) => {
                self.push_entry(out, inst)?;
                out.push_str("\n")
            }
            _ => Ok(()),
        }
    }
}
