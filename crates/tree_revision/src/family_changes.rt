//! The families of the next revision.

ghost use Rattle.std.specs.Prelude.{◌≡◌, ◌<◌, ◌-◌, ◌*◌, ◌^◌, [], ◌∷◌, ◌++◌, length, nat_eq, IfOk, IfErr, IfSome, OnOk, None};
ghost use Rattle.std.specs.List.{IsDistinct};
ghost use Rattle.std.specs.FinMap as map;
ghost use Rattle.native_state.specs.Families.{cell_in};
ghost use Rattle.native_state.specs.Made.{FamiliesWithin};
ghost use Rattle.native_state.specs.State.{start_cell};
ghost use Rattle.shadow_node.specs.Forest.{preorder};
ghost use Rattle.shadow_node.specs.Fields.{contents_of, tags_of};
ghost use Rattle.tree_revision.specs.Cancels.{stale};
ghost use Rattle.tree_revision.specs.Prepared.{families_grown, other_kind};
ghost use Rattle.tree_revision.specs.Steps.{IsFor, AreGathered, growth_cause, families_changed, families_with_cell};

use crate::next::PrepareRefusal;
use crate::record::Cancel;
use native_state::{Family, FamilyTable, StateCell, StateChange, apply};
use page_map::Near;
use shadow_kinds::code;
use shadow_node::{Forest, Made, ShadowNode};
use std::alloc::{AllocError, Global};

/// A surface has at most so many families.
const MOST_FAMILIES: usize = 4096;

/// Adds to a list the family that a tag begins with.
fn begin(added: &mut Vec<(u32, Family)>, tag: u32, kind: u8) -> Result<(), AllocError>
    ensures { OnOk result (added.new.items ≡ added.old.items ++ (tag, record { kind = kind; cell = start_cell }) ∷ []) }
{
    let cell = StateCell::start();
    added.push((tag, Family { kind, cell }))?;
    Ok(())
}

/// Adds to a list the family that a node's tag begins with, where the tag has none yet.
///
/// It is cancelled where the tag has a family of another kind.
fn add_one(
    added: &mut Vec<(u32, Family)>,
    near: &mut Near,
    node: &ShadowNode,
    families: &FamilyTable,
) -> Result<(), PrepareRefusal>
    ensures gathered { OnOk result (AreGathered families.now (node.now.fields.fields ∷ []) added.old.items added.new.items) }
    ensures cancelled { IfErr result (IsFor (other_kind families.now (node.now.fields.fields ∷ []))) }
{
    let tag = node.tag();
    let kind = code(node.kind());
    match families.get_near(near, tag) {
        Some(family) if family.kind != kind => {
            Err(PrepareRefusal::Cancel(Cancel::KindChanged { tag }))
        }
        Some(_) => Ok(()),
        None => Ok(begin(added, tag, kind)?),
    }
}

/// The same for each node of a forest, in preorder.
fn add_all(
    added: &mut Vec<(u32, Family)>,
    near: &mut Near,
    forest: &Forest,
    families: &FamilyTable,
) -> Result<(), PrepareRefusal>
    ensures gathered { OnOk result (AreGathered families.now (preorder (contents_of forest.now)) added.old.items added.new.items) }
    ensures cancelled { IfErr result (IsFor (other_kind families.now (preorder (contents_of forest.now)))) }
{
    for node in forest.nodes() {
        add_one(added, near, node, families)?;
        add_all(added, near, node.children(), families)?;
    }
    Ok(())
}

/// The families of a surface, and those that the tags of a forest begin with where they have none.
///
/// The tags of the forest differ. It is cancelled at the first node, in preorder, whose tag has a
/// family of another kind, and else where there would be more than 4,096 families.
pub(crate) fn grown(
    alloc: Global,
    made: &mut Made,
    families: &FamilyTable,
    forest: &Forest,
) -> Result<FamilyTable, PrepareRefusal>
    requires { IsDistinct nat_eq (tags_of (contents_of forest.now)) }
    ensures families { IfOk result (λ grown. grown ≡ families_grown families.now (preorder (contents_of forest.now))) }
    ensures uncancelled { OnOk result (growth_cause families.now (preorder (contents_of forest.now)) ≡ None) }
    ensures cancelled { IfErr result (IsFor (growth_cause families.now (preorder (contents_of forest.now)))) }
    ensures made { IfOk result (λ grown. FamiliesWithin made.old made.new (65 * (map.len grown - map.len families.now))) }
{
    let mut new = Vec::new(alloc);
    let mut near = Near::start();
    add_all(&mut new, &mut near, forest, families)?;
    if families.len().saturating_add(new.len()) > MOST_FAMILIES {
        return Err(PrepareRefusal::Cancel(Cancel::FamiliesFull));
    }
    Ok(families.with_new(alloc, made, &new)?)
}

/// The families with that cell at a tag that has a family.
fn with_cell(
    alloc: Global,
    made: &mut Made,
    families: &FamilyTable,
    tag: u32,
    cell: StateCell,
) -> Result<FamilyTable, AllocError>
    ensures families { IfOk result (λ changed. changed ≡ families_with_cell families.now tag cell) }
    ensures made { OnOk result (FamiliesWithin made.old made.new 65) }
{
    match families.get(tag) {
        Some(family) => {
            let kind = family.kind;
            families.with(alloc, made, tag, Family { kind, cell })
        }
        None => families.share(),
    }
}

/// The families after a change of that tag's state.
///
/// Its cell changed fewer than 2^64 - 1 times. It is cancelled where the change is stale.
pub(crate) fn changed(
    alloc: Global,
    made: &mut Made,
    families: &FamilyTable,
    tag: u32,
    change: StateChange,
) -> Result<FamilyTable, PrepareRefusal>
    requires { (cell_in families.now tag).count < 2 ^ 64 - 1 }
    ensures families { IfOk result (λ changed. changed ≡ families_changed tag change families.now) }
    ensures uncancelled { OnOk result (stale tag change (cell_in families.now tag) ≡ None) }
    ensures cancelled { IfErr result (IsFor (stale tag change (cell_in families.now tag))) }
    ensures made { OnOk result (FamiliesWithin made.old made.new 65) }
{
    match apply(families.cell(tag), change) {
        Ok(cell) => Ok(with_cell(alloc, made, families, tag, cell)?),
        Err(stale) => Err(PrepareRefusal::Cancel(Cancel::Stale {
            tag,
            count: stale.count,
        })),
    }
}
