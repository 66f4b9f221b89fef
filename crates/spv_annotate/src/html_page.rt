//! The page of a module.

ghost use Rattle.std.specs.Prelude.{◌≡◌, ◌++◌, ℕ, List, None, Option, Some, IfOk, OnOk, if◌then◌else◌, map};
ghost use Rattle.std.specs.Prelude.{option_and_then, option_map, string_bytes};
ghost use Rattle.std.specs.List.{flat_map};
ghost use Rattle.spv_layout.specs.Place.{AreFew, IsShort};
ghost use Rattle.spv_module.specs.Module.{plain_inst, plain_insts};
ghost use Rattle.spv_annotate.specs.Document.{IsSpelled, IsSubject, Subject, document};
ghost use Rattle.spv_annotate.specs.Page as specs;
ghost use Rattle.spv_annotate.specs.Html.{escaped};
ghost use Rattle.spv_annotate.specs.Module.{definition_of, function_of};
ghost use Rattle.spv_annotate.specs.Page.{IsPage, IsScene, beginnings, contents_of, front_of, id_html, if_asked};
ghost use Rattle.spv_annotate.specs.Page.{notice, on_page, page_of, users_of};
ghost use Rattle.spv_annotate.specs.inner.Edges.{leading};
ghost use Rattle.spv_annotate.specs.inner.Known.{AreFirsts};
ghost use Rattle.spv_annotate.specs.inner.Numbers.{kept};
ghost use Rattle.spv_annotate.specs.inner.Look.{scene};

use crate::draft::SIZE;
use crate::finding::Finding;
use crate::firsts::find_asked;
use crate::html::push_escaped;
use crate::known::Firsts;
use crate::linked::push_link;
use crate::look::Look;
use crate::numbers::Numbers;
use crate::outline::{function_in, is_in_asked, write_beginnings};
use crate::page_pen::{ContentsPen, PagePen};
use crate::style::{END, HEAD, LIST, MIDDLE, STYLE, TITLED};
use crate::text::room_for;
use crate::uses::Uses;
use crate::walk::walk_of;
use crate::writer::{first_line, write_text};
use spv_extended::Reach;
use spv_lines::push_plain;
use spv_module::{Inst, Module};
use spv_printer::show_listed;
use spv_table::Table;
use std::alloc::{AllocError, Global};

/// For how many bytes of an instruction's line and comment room is made at first: most have fewer.
const LINE_ROOM: usize = 160;

/// Adds what stands before the list of contents, `told` below the title.
fn push_front(out: &mut String, title: &str, told: &str) -> Result<(), AllocError>
    ensures { OnOk result (string_bytes out.new ≡ string_bytes out.old ++ front_of (escaped title.now) told.now) }
{
    out.push_str(HEAD)?;
    push_escaped(out, title)?;
    out.push_str(STYLE)?;
    push_escaped(out, title)?;
    out.push_str(TITLED)?;
    out.push_str(told)?;
    out.push_str(LIST)
}

/// Whether an instruction is on the page, by the function that it is of.
fn is_on_page(insts: &[Inst<'_>], asked: Option<u32>, inst: u32, function: Option<u32>) -> bool
    requires { function ≡ function_of (map plain_inst insts.now) inst }
    ensures { (if result then Some inst else None) ≡ on_page (map plain_inst insts.now) asked inst }
{
    (inst as usize) < insts.len() && is_in_asked(insts, asked, function)
}

/// Adds the line of a verdict, with a link to its instruction, if it has one.
fn push_linked_line(out: &mut String, link: Option<u32>, line: &str) -> Result<(), AllocError>
    ensures { OnOk result (string_bytes out.new ≡ string_bytes out.old ++ id_html link line.now) }
{
    match link {
        Some(inst) => push_link(out, inst, line),
        None => push_escaped(out, line),
    }
}

/// The line of the verdict, where a fault is told, as it stands in a page. What is asked for is all, or a function.
fn notice_of(
    look: Look<'_, '_>,
    finding: Option<Finding<'_>>,
    asked: Option<u32>,
) -> Result<String, AllocError>
    requires { look.faulty ≡ option_and_then (λ f. function_of (map plain_inst look.insts.now) f.inst) finding }
    ensures { IfOk result (λ t. string_bytes t ≡ notice (map plain_inst look.entry.insts.now) asked finding.entry) }
{
    let mut out = String::new(look.alloc);
    let Some(finding) = finding else {
        return Ok(out);
    };
    let link = if is_on_page(look.insts, asked, finding.inst, look.faulty) {
        Some(finding.inst)
    } else {
        None
    };
    out.push_str("<p class=fault>")?;
    push_linked_line(&mut out, link, first_line(finding.lines))?;
    out.push_str("</p>\n")?;
    Ok(out)
}

/// The page up to the list of contents, `told` below the title, and room for so many bytes.
fn page_front(alloc: Global, room: usize, title: &str, told: &str) -> Result<String, AllocError>
    ensures { IfOk result (λ t. string_bytes t ≡ specs.page_front title.now told.now) }
{
    let mut plain = String::new(alloc);
    push_plain(&mut plain, title)?;
    let mut out = String::with_capacity(alloc, room)?;
    push_front(&mut out, plain.as_str(), told)?;
    Ok(out)
}

/// The number of the instruction of a fault.
fn fault_of(finding: Option<Finding<'_>>) -> Option<u32>
    ensures { result ≡ option_map (λ f. f.inst) finding.entry }
{
    match finding {
        Some(finding) => Some(finding.inst),
        None => None,
    }
}

/// The OpFunction of the function that the instruction of a fault is of.
fn faulty_of(insts: &[Inst<'_>], finding: Option<Finding<'_>>) -> Option<u32>
    ensures { result ≡ option_and_then (λ f. function_of (map plain_inst insts.now) f.inst) finding.entry }
{
    match finding {
        Some(finding) => function_in(insts, finding.inst),
        None => None,
    }
}

/// The page up to the end of the list of contents.
fn page_contents(
    look: Look<'_, '_>,
    title: &str,
    finding: Option<Finding<'_>>,
    function: Option<u32>,
) -> Result<String, AllocError>
    requires few { AreFew look.insts.now }
    requires faulty { look.faulty
        ≡ option_and_then (λ f. function_of (map plain_inst look.insts.now) f.inst) finding }
    ensures { IfOk result (λ t. string_bytes t ≡ specs.page_front title.now
        (notice (map plain_inst look.entry.insts.now) function finding.entry)
        ++ flat_map (contents_of (scene look.entry)) (beginnings (map plain_inst look.entry.insts.now) function)) }
{
    let told = notice_of(look, finding, function)?;
    let room = room_for(look.insts.len(), function, LINE_ROOM);
    let out = page_front(look.alloc, room, title, told.as_str())?;
    let mut pen = ContentsPen { out, look };
    write_beginnings(&mut pen, look.insts, function)?;
    let ContentsPen { out, .. } = pen;
    Ok(out)
}

/// Adds what stands in the page for each piece of the text for reading.
fn push_lines(
    out: String,
    look: Look<'_, '_>,
    table: &Table,
    module: &Module<'_>,
    firsts: &Firsts,
    reach: Reach,
    finding: Option<Finding<'_>>,
    function: Option<u32>,
) -> Result<String, AllocError>
    requires spelled { IsSpelled table.now (plain_insts «module».now) }
    requires firsts { AreFirsts (plain_insts «module».now) firsts.now }
    requires words { IsShort (plain_insts «module».now) }
    ensures { IfOk result (λ t. (S : Subject) × IsSubject table.now reach «module».now finding.entry function S
        × (string_bytes t ≡ string_bytes out ++ flat_map (page_of (scene look.entry)) (document S))) }
{
    let text = show_listed(look.alloc, table, module)?;
    let mut pen = PagePen {
        out,
        look,
        buffer: [0u8; SIZE],
        at: 0,
    };
    write_text(
        look.alloc,
        module,
        firsts,
        reach,
        finding,
        function,
        text.as_str(),
        &mut pen,
    )?;
    pen.finish()?;
    let PagePen { out, .. } = pen;
    Ok(out)
}

/// The page of a module, by what is known where it is written.
fn page_by(
    look: Look<'_, '_>,
    table: &Table,
    module: &Module<'_>,
    firsts: &Firsts,
    reach: Reach,
    title: &str,
    finding: Option<Finding<'_>>,
    function: Option<u32>,
) -> Result<String, AllocError>
    requires known { IsScene (plain_insts «module».now) finding function (scene look) }
    requires firsts { AreFirsts (plain_insts «module».now) firsts.now }
    requires spelled { IsSpelled table.now (plain_insts «module».now) }
    requires words { IsShort (plain_insts «module».now) }
    ensures { IfOk result (λ t. IsPage table.now reach «module».now title.now finding.entry function (string_bytes t)) }
{
    let mut front = page_contents(look, title, finding, function)?;
    front.push_str(MIDDLE)?;
    let mut out = push_lines(front, look, table, module, firsts, reach, finding, function)?;
    out.push_str(END)?;
    Ok(out)
}

/// The page of a module, by what is known of it. `definitions` are those that are asked for.
fn page_over(
    alloc: Global,
    table: &Table,
    module: &Module<'_>,
    firsts: &Firsts,
    reach: Reach,
    title: &str,
    finding: Option<Finding<'_>>,
    function: Option<u32>,
    definitions: &Numbers,
    uses: &Uses,
) -> Result<String, AllocError>
    requires spelled { IsSpelled table.now (plain_insts «module».now) }
    requires firsts { AreFirsts (plain_insts «module».now) firsts.now }
    requires words { IsShort (plain_insts «module».now) }
    requires definitions { (x : ℕ) → kept definitions.now x
        ≡ option_and_then (if_asked (plain_insts «module».now) function) (definition_of (plain_insts «module».now) x) }
    requires uses { (x : ℕ) → leading x uses.now.edges.items ≡ users_of (plain_insts «module».now) function x }
    ensures { IfOk result (λ t. IsPage table.now reach «module».now title.now finding.entry function (string_bytes t)) }
{
    let insts = module.insts.as_slice();
    let walk = walk_of(alloc, finding)?;
    let look = Look {
        alloc,
        insts,
        definitions,
        namings: &firsts.namings,
        uses,
        fault: fault_of(finding),
        faulty: faulty_of(insts, finding),
        walk: &walk,
    };
    page_by(look, table, module, firsts, reach, title, finding, function)
}

/// The page of a module that words spell: what `annotate` writes, as a document of HTML that needs nothing beside it.
/// It has the title that is given, without control characters; below it the line of the verdict, where a fault is told,
/// with a link to its instruction; a list of contents, in which the function of the fault is marked; and in its element
/// `main` the lines: the line of an instruction has the instruction's number as its anchor, an id leads to the
/// instruction that defines it, functions and blocks are headings, and what is told of a fault, its instruction and the
/// blocks of its walk are marked. Where a function is asked for, no link leads to what is not of it.
///
/// An `AllocError` comes only where a growth of memory was refused.
pub fn page(
    alloc: Global,
    table: &Table,
    module: &Module<'_>,
    reach: Reach,
    title: &str,
    finding: Option<Finding<'_>>,
    function: Option<u32>,
) -> Result<String, AllocError>
    requires spelled { IsSpelled table.now (plain_insts «module».now) }
    requires words { IsShort (plain_insts «module».now) }
    ensures { IfOk result (λ t. IsPage table.now reach «module».now title.now finding.entry function (string_bytes t)) }
{
    let insts = module.insts.as_slice();
    let firsts = Firsts::new(alloc, insts)?;
    let uses = Uses::new(alloc, insts, &firsts.definitions, function)?;
    if function.is_none() {
        return page_over(
            alloc,
            table,
            module,
            &firsts,
            reach,
            title,
            finding,
            function,
            &firsts.definitions,
            &uses,
        );
    }
    let asked = find_asked(alloc, insts, &firsts.definitions, function)?;
    page_over(
        alloc, table, module, &firsts, reach, title, finding, function, &asked, &uses,
    )
}
