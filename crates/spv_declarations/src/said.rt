//! What groups say of their targets.

ghost use Rattle.std.specs.Prelude.{◌≡◌, ◌↔◌, ◌≤◌, ◌<◌, ℕ, Contains, IfOk, IsTrue, OnOk, length};
ghost use Rattle.spv_module.specs.Module.{plain_inst};
ghost use Rattle.spv_capabilities.specs.Entry as entry;
ghost use Rattle.spv_declarations.specs.inner.Early.{AreEarly};
ghost use Rattle.spv_declarations.specs.inner.Kinds.{AreKinds};
ghost use Rattle.spv_declarations.specs.inner.Said.{AreSaid, GivesGroup, ImportsGroup, NamesGroup};
ghost use Rattle.spv_declarations.specs.inner.Sets.{Adds, AddsBoth, HasAll, HasBoth, IsIn};

use crate::decorated::{given, group_of};
use crate::kinds::Kinds;
use crate::sets::{put, put_pair};
use crate::stands::is_known;
use spv_capabilities::linked_id;
use spv_module::{Inst, opcode};
use spv_type_forms::Definitions;
use std::alloc::{AllocError, Global};
use std::collections::BTreeSet;

/// What instructions say of groups that are named, as far as table T speaks of it.
#[derive(Drop)]
pub struct Said {
    /// Groups with their decorations.
    pairs: BTreeSet<(u32, u32)>,
    /// The groups that have LinkageAttributes with the LinkageType Import.
    importing: BTreeSet<u32>,
}

/// The number of the decoration LinkageAttributes.
pub const LINKAGE_ATTRIBUTES: u32 = 41;

/// The id to which an instruction gives LinkageAttributes with the LinkageType Import, where that kind has this number.
pub fn imported_by(linkage: Option<u32>, inst: &Inst<'_>) -> Option<u32>
    ensures { result ≡ entry.imported_by linkage (plain_inst inst.now) }
{
    if inst.opcode == opcode::DECORATE {
        linked_id(linkage, inst.operands.as_slice())
    } else {
        None
    }
}

/// Adds the id that an instruction names as a group.
fn add_group(groups: &mut BTreeSet<u32>, inst: &Inst<'_>) -> Result<(), AllocError>
    ensures { OnOk result (Adds (NamesGroup (plain_inst inst.now)) groups.old groups.new) }
{
    if let Some(group) = group_of(inst, opcode::GROUP_DECORATE) {
        return put(groups, group);
    }
    if let Some(group) = group_of(inst, opcode::GROUP_MEMBER_DECORATE) {
        return put(groups, group);
    }
    Ok(())
}

/// The ids that instructions name as groups.
fn groups(alloc: Global, definitions: &Definitions, count: u32) -> Result<BTreeSet<u32>, AllocError>
    requires count { count ≤ length definitions.now }
    requires early { AreEarly definitions.now count }
    ensures { IfOk result (HasAll definitions.now NamesGroup) }
{
    let mut groups = BTreeSet::new(alloc);
    for number in 0..count {
        add_group(&mut groups, definitions.inst(number))?;
    }
    Ok(groups)
}

/// Adds the decoration that an instruction gives one of these groups.
fn add_given(
    pairs: &mut BTreeSet<(u32, u32)>,
    groups: &BTreeSet<u32>,
    inst: &Inst<'_>,
) -> Result<(), AllocError>
    ensures { OnOk result (AddsBoth (GivesGroup groups.now (plain_inst inst.now)) pairs.old pairs.new) }
{
    let Some((group, decoration)) = given(inst) else {
        return Ok(());
    };
    if groups.contains(&group) && is_known(decoration) {
        return put_pair(pairs, group, decoration);
    }
    Ok(())
}

/// Adds the group that an instruction imports, if it is one of these.
fn add_imported(
    importing: &mut BTreeSet<u32>,
    groups: &BTreeSet<u32>,
    linkage: Option<u32>,
    inst: &Inst<'_>,
) -> Result<(), AllocError>
    ensures { OnOk result (Adds (ImportsGroup groups.now linkage (plain_inst inst.now)) importing.old importing.new) }
{
    let Some(group) = imported_by(linkage, inst) else {
        return Ok(());
    };
    if groups.contains(&group) {
        return put(importing, group);
    }
    Ok(())
}

impl Said {
    /// What the first `count` instructions say of groups that they name, where the kind LinkageType has that number.
    ///
    /// Time is near-linear in the words of these instructions. An `AllocError` comes only where a growth of memory was
    /// refused.
    pub fn gather(
        alloc: Global,
        definitions: &Definitions,
        linkage: Option<u32>,
        count: u32,
    ) -> Result<Said, AllocError>
        requires count { count ≤ length definitions.now }
        requires early { AreEarly definitions.now count }
        ensures { IfOk result (AreSaid linkage definitions.now) }
    {
        let groups = groups(alloc, definitions, count)?;
        let mut pairs = BTreeSet::new(alloc);
        let mut importing = BTreeSet::new(alloc);
        if groups.is_empty() {
            return Ok(Said { pairs, importing });
        }
        for number in 0..count {
            let inst = definitions.inst(number);
            add_given(&mut pairs, &groups, inst)?;
            add_imported(&mut importing, &groups, linkage, inst)?;
        }
        Ok(Said { pairs, importing })
    }

    /// The same, where it is known which kinds of instructions there are. Where none of them names a group, it looks at
    /// none.
    pub fn among(
        alloc: Global,
        definitions: &Definitions,
        kinds: &Kinds,
        linkage: Option<u32>,
        count: u32,
    ) -> Result<Said, AllocError>
        requires count { count ≤ length definitions.now }
        requires early { AreEarly definitions.now count }
        requires kinds { AreKinds definitions.now count kinds.now }
        ensures { IfOk result (AreSaid linkage definitions.now) }
    {
        if kinds.groups {
            return Said::gather(alloc, definitions, linkage, count);
        }
        let pairs = BTreeSet::new(alloc);
        let importing = BTreeSet::new(alloc);
        Ok(Said { pairs, importing })
    }

    /// Whether a group has a decoration of which table T speaks.
    pub fn has(&self, group: u32, decoration: u32) -> bool
        ensures { IsTrue result ↔ HasBoth self.now.pairs group decoration }
    {
        self.pairs.contains(&(group, decoration))
    }

    /// Whether a group has LinkageAttributes with the LinkageType Import.
    pub fn imports(&self, group: u32) -> bool
        ensures { IsTrue result ↔ IsIn self.now.importing group }
    {
        self.importing.contains(&group)
    }

    /// The decorations of a group of which table T speaks. They are few: as many as the table has.
    pub fn of(&self, alloc: Global, group: u32) -> Result<Vec<u32>, AllocError>
        ensures { IfOk result (λ v. (d : ℕ) → d < 4294967295
            → Contains v.items d ↔ HasBoth self.now.pairs group d) }
    {
        let mut found = Vec::new(alloc);
        for pair in self.pairs.range((group, 0)..(group, u32::MAX)) {
            found.push(pair.1)?;
        }
        Ok(found)
    }
}
