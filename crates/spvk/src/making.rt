//! Makes texts of modules, for C.
ghost use Rattle.std.specs.Prelude.{IfOk};
ghost use Rattle.spvk.specs.Make.{Makes, MakesAsked};
ghost use Rattle.spvk.specs.inner.Making.{IsMade};
ghost use Rattle.spv_words.specs.Version.{as_1_6};

use crate::explaining::explained_bytes;
use crate::objects::object_of;
use crate::showing::shown_bytes;
use crate::status::{MEMORY, NO_FLAG, OK};
use crate::text::Text;
use crate::versions::copy_as_1_6;
use spv_extended::Reach;
use spv_scope::Scope;
use spv_table::{Memory, Table};
use std::alloc::Global;
use std::mem;

/// What is made of a module's bytes.
#[derive(Clone, Copy)]
pub enum Making {
    /// The verdict with the lines that explain it.
    Lines,
    /// The verdict with the JSON object that explains it.
    Object,
    /// What is shown of it.
    Shown,
}

/// What is made of these bytes by a table. The error is that memory ran out.
fn made(
    alloc: Global,
    table: &Table,
    making: Making,
    reach: Reach,
    bytes: &[u8],
) -> Result<Text, Memory>
    ensures { IfOk result (λ t. IsMade making table.now reach bytes.now t) }
{
    match making {
        Making::Lines => explained_bytes(alloc, table, reach, bytes),
        Making::Object => object_of(alloc, table, reach, bytes),
        Making::Shown => shown_bytes(alloc, table, reach, bytes),
    }
}

/// Puts what is made of these bytes in place of what was there, and answers `OK`. `MEMORY` comes where a growth of
/// memory was refused, and then what was there stays.
pub fn put(
    alloc: Global,
    table: &Table,
    making: Making,
    reach: Reach,
    bytes: &[u8],
    text: &mut Text,
) -> u32
    ensures { Makes (IsMade making table.now reach bytes.now) text.old text.new result }
{
    match made(alloc, table, making, reach, bytes) {
        Ok(made) => {
            mem::replace(text, made).let_go(alloc);
            OK
        }
        Err(_) => MEMORY,
    }
}

/// The same of the bytes with version 1.6 in place of another version.
pub fn put_as_1_6(
    alloc: Global,
    table: &Table,
    making: Making,
    reach: Reach,
    bytes: &[u8],
    text: &mut Text,
) -> u32
    ensures { Makes (IsMade making table.now reach (as_1_6 bytes.now)) text.old text.new result }
{
    match copy_as_1_6(alloc, bytes) {
        Ok(copy) => put(alloc, table, making, reach, copy.as_slice(), text),
        Err(_) => MEMORY,
    }
}

/// The same of what flags ask for: `NO_FLAG` comes where a bit is set that is no flag, and then what was there stays.
pub fn put_asked(
    alloc: Global,
    table: &Table,
    making: Making,
    asked: Option<Scope>,
    bytes: &[u8],
    text: &mut Text,
) -> u32
    ensures { MakesAsked asked (IsMade making table.now) bytes.now text.old text.new result }
{
    let Some(scope) = asked else {
        return NO_FLAG;
    };
    let reach = scope.reach(bytes);
    if scope.takes_as_1_6() {
        put_as_1_6(alloc, table, making, reach, bytes, text)
    } else {
        put(alloc, table, making, reach, bytes, text)
    }
}
