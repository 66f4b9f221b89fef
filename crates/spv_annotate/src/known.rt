//! What is known of a module beside its instructions.

ghost use Rattle.std.specs.Prelude.{◌≡◌, ℕ, IfOk, map};
ghost use Rattle.spv_module.specs.Module.{plain_inst};
ghost use Rattle.spv_layout.specs.Place.{IsShort};
ghost use Rattle.spv_annotate.specs.inner.Known.{AreFirsts, IsKnown};

use crate::edges::find_edges;
use crate::firsts::{find_definitions, find_namings, has_names};
use crate::numbers::Numbers;
use crate::opencl::table_lines;
use crate::uses::Uses;
use crate::values::{Values, find_values};
use spv_module::Inst;
use std::alloc::{AllocError, Global};

/// Which instructions of a module are the first that define and name ids.
#[derive(Drop)]
pub struct Firsts {
    /// Of each id the first instruction that defines it.
    pub definitions: Numbers,
    /// Of each id the first OpName that names it.
    pub namings: Numbers,
}

/// What is known of a module beside its instructions.
#[derive(Drop)]
pub struct Known<'f> {
    /// Which instructions are the first that define and name ids.
    pub firsts: &'f Firsts,
    /// Whether there is an OpName.
    pub named: bool,
    /// The edges between blocks.
    pub edges: Uses,
    /// The lines of the table of OpenCL.std.
    pub calls: Vec<&'static str>,
    /// The decimal values of float constants.
    pub values: Values,
}

impl Firsts {
    /// Those of a module with these instructions.
    ///
    /// An `AllocError` comes only where a growth of memory was refused.
    pub fn new(alloc: Global, insts: &[Inst<'_>]) -> Result<Firsts, AllocError>
        requires { IsShort (map plain_inst insts.now) }
        ensures { IfOk result (λ f. AreFirsts (map plain_inst insts.now) f) }
    {
        let definitions = find_definitions(alloc, insts)?;
        let namings = find_namings(alloc, insts)?;
        Ok(Firsts {
            definitions,
            namings,
        })
    }
}

impl<'f> Known<'f> {
    /// What is known of a module with these instructions, of which these are the first.
    ///
    /// An `AllocError` comes only where a growth of memory was refused.
    pub fn new(
        alloc: Global,
        insts: &[Inst<'_>],
        firsts: &'f Firsts,
    ) -> Result<Known<'f>, AllocError>
        requires words { IsShort (map plain_inst insts.now) }
        requires firsts { AreFirsts (map plain_inst insts.now) firsts.now }
        ensures { IfOk result (λ k. IsKnown (map plain_inst insts.now) k) }
    {
        let values = find_values(alloc, insts, &firsts.definitions)?;
        let edges = find_edges(alloc, insts)?;
        let calls = table_lines(alloc)?;
        Ok(Known {
            firsts,
            named: has_names(insts),
            edges,
            calls,
            values,
        })
    }
}
