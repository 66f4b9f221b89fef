//! What `show` makes of the words of a module.
ghost use Rattle.std.specs.Prelude.{◌≡◌, ℕ, List, IfErr, IfOk, string_bytes};
ghost use Rattle.spv_scope.specs.Scope.{told_text};
ghost use Rattle.spv_words.specs.Header.{IsModule};
ghost use Rattle.spv_words.specs.declared.words.Order.{Order};
ghost use Rattle.spv_commands.specs.Show.{IsShowing};
ghost use Rattle.spv_commands.specs.inner.Shown.{is_text, output_of, shown_stop};
ghost use Rattle.spv_commands.specs.declared.trouble.Trouble.TheVariants as trouble;

use crate::trouble::Trouble;
use spv_extended::Reach;
use spv_module::Stop;
use spv_printer::show_image;
use spv_scope::tell;
use spv_table::Table;
use spv_verdict::Judgment;
use spv_words::Image;
use std::alloc::Global;

/// What is shown of bytes.
#[derive(Drop)]
pub enum Shown {
    /// The text of the module.
    Text(Vec<u8>),
    /// The verdict line of bytes that are no words of a module, or of words that are no list of instructions.
    Line(Judgment),
}

/// What is shown of words that are no list of instructions: the line of the fault. Out of memory is an error.
fn unlisted(stop: Stop) -> Result<Shown, Trouble>
    ensures { result ≡ shown_stop stop }
{
    match stop {
        Stop::Fault(fault) => Ok(Shown::Line(Judgment::Broken(fault))),
        Stop::Memory => Err(Trouble::Memory),
    }
}

/// The text of what was read, which tells the version that is looked at.
fn told_bytes(reach: Reach, text: String) -> Vec<u8>
    ensures { result.items ≡ told_text reach (string_bytes text) }
{
    let mut bytes = text.into_bytes();
    tell(reach, &mut bytes);
    bytes
}

/// What is shown of the words of a module.
///
/// `Memory`: a growth of memory was refused. There is no other error.
pub fn shown_of(alloc: Global, table: &Table, reach: Reach, image: &Image) -> Result<Shown, Trouble>
    ensures shown { (bytes : List ℕ) (order : Order) → IsModule order bytes image.now
        → IfOk result (λ s. IsShowing table.now reach bytes (output_of s) (is_text s)) }
    ensures only { IfErr result (λ t. t ≡ trouble.Memory) }
{
    match show_image(alloc, table, image) {
        Ok(text) => Ok(Shown::Text(told_bytes(reach, text))),
        Err(stop) => unlisted(stop),
    }
}
