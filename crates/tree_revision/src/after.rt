//! The content of the next revision, for each kind of change.

ghost use Rattle.std.specs.Prelude.{◌≡◌, ◌+◌, ◌-◌, ◌<◌, ◌^◌, nat_eq, IfOk, IfErr, OnOk, None, Some};
ghost use Rattle.std.specs.List.{IsDistinct};
ghost use Rattle.native_state.specs.Families.{cell_in};
ghost use Rattle.native_state.specs.Made.{MadeCounts, nodes_more};
ghost use Rattle.shadow_node.specs.Fields.{contents_of, tags_of};
ghost use Rattle.shadow_node.specs.Find.{way_to};
ghost use Rattle.shadow_node.specs.InRange.{IsEditInRange};
ghost use Rattle.shadow_node.specs.Limits.{IsForestWithin};
ghost use Rattle.tree_build.specs.Script.{script_forest};
ghost use Rattle.tree_build.specs.InRange.{AreNodesInRange};
ghost use Rattle.tree_settle.specs.Along.{IsSettledBut};
ghost use Rattle.tree_settle.specs.Changes.{changes_in};
ghost use Rattle.tree_settle.specs.Limits.{IsSizeInRange};
ghost use Rattle.tree_revision.specs.ForestStamps.{AreStampsAfter};
ghost use Rattle.tree_revision.specs.InRange.{IsOpInRange};
ghost use Rattle.tree_revision.specs.Records.{plain_op, complete, state as state_op, props as props_op, resize, stop, suspend};
ghost use Rattle.tree_revision.specs.Prepared.{AreNextStamps, cause_in, content_next};
ghost use Rattle.tree_revision.specs.Steps.{AreCountsWithin, IsFor, settled_next};
ghost use Rattle.tree_revision.specs.Made.{IsMadeFor};
ghost use Rattle.tree_revision.specs.Unchanged.{IsChangeAt};

use crate::family_changes::{changed, grown};
use crate::next::PrepareRefusal;
use crate::record::{Cancel, Op};
use crate::revision::Content;
use crate::stamping::{has_same_fields, stamps_after};
use clone_path::{find_along, replace_along};
use native_state::{FamilyTable, StateChange};
use shadow_frame::Size;
use shadow_kinds::{has_state, is_hidden};
use shadow_node::{Forest, Made, NodeEdit, Stamps, find, path_to};
use std::alloc::{AllocError, Global};
use tree_build::{ScriptNode, build};
use tree_settle::{SizeChange, settle, settle_along};

/// The content after a front, of that size, with those families and with that forest, which is
/// settled.
fn settled(
    alloc: Global,
    made: &mut Made,
    front: &Content,
    size: Size,
    families: FamilyTable,
    forest: &Forest,
) -> Result<Content, AllocError>
    requires number { front.now.number < 2 ^ 64 - 1 }
    requires size { IsSizeInRange size }
    requires counts { AreCountsWithin (front.now.number + 1) families }
    requires within { IsForestWithin (contents_of forest.now) }
    ensures content { IfOk result (λ next. next ≡ settled_next front.now size families forest.now next.stamps) }
    ensures stamps { IfOk result (AreNextStamps front.now) }
    ensures made { IfOk result (λ next. made.new ≡ nodes_more made.old (changes_in next.size (cell_in next.families) forest.now)) }
{
    let forest = settle(alloc, made, forest, size, &families)?;
    let number = front.number + 1;
    let stamps = stamps_after(alloc, &front.forest, &forest, &front.stamps, number)?;
    Ok(Content {
        number,
        size,
        forest,
        families,
        stamps,
    })
}

/// The content after a front, of that size and with those families, for which the front's forest is
/// settled but for the nodes on a way.
fn settled_along(
    alloc: Global,
    made: &mut Made,
    front: &Content,
    size: Size,
    families: FamilyTable,
    way: &[u32],
) -> Result<Content, AllocError>
    requires number { front.now.number < 2 ^ 64 - 1 }
    requires size { IsSizeInRange size }
    requires counts { AreCountsWithin (front.now.number + 1) families }
    requires but { IsSettledBut front.now.size (cell_in families) way.now front.now.forest }
    ensures content { IfOk result (λ next. next ≡ settled_next front.now size families front.now.forest next.stamps) }
    ensures stamps { IfOk result (AreNextStamps front.now) }
    ensures made { IfOk result (λ next. made.new ≡ nodes_more made.old (changes_in next.size (cell_in next.families) front.now.forest)) }
{
    let mut renewed = Vec::new(alloc);
    let sizes = SizeChange {
        before: front.size,
        after: size,
    };
    let forest = settle_along(
        alloc,
        made,
        &mut renewed,
        &front.forest,
        sizes,
        &families,
        way,
    )?;
    let number = front.number + 1;
    let stamps = front.stamps.with_each(alloc, &renewed, number)?;
    Ok(Content {
        number,
        size,
        forest,
        families,
        stamps,
    })
}

/// The content after another forest, over the held one.
fn with_forest(
    alloc: Global,
    made: &mut Made,
    nodes: &[ScriptNode],
    front: &Content,
    held: &Content,
) -> Result<Content, PrepareRefusal>
    requires number { front.now.number < 2 ^ 64 - 1 }
    requires nodes { AreNodesInRange (script_forest nodes.now) }
    ensures next { IfOk result (λ next. next ≡ content_next (complete (script_forest nodes.now)) front.now held.now next.stamps) }
    ensures stamps { IfOk result (AreNextStamps front.now) }
    ensures uncancelled { OnOk result (cause_in (complete (script_forest nodes.now)) front.now held.now ≡ None) }
    ensures cancelled { IfErr result (IsFor (cause_in (complete (script_forest nodes.now)) front.now held.now)) }
    ensures made { IfOk result (λ next. IsMadeFor (complete (script_forest nodes.now)) front.now held.now next made.old made.new) }
{
    let forest = build(alloc, made, nodes, &held.forest)?;
    let families = grown(alloc, made, &front.families, &forest)?;
    Ok(settled(alloc, made, front, front.size, families, &forest)?)
}

/// The content after a change of a family's state.
fn with_state(
    alloc: Global,
    made: &mut Made,
    tag: u32,
    change: StateChange,
    front: &Content,
) -> Result<Content, PrepareRefusal>
    requires number { front.now.number < 2 ^ 64 - 1 }
    ensures next { IfOk result (λ next. next ≡ content_next (state_op tag change) front.now front.now next.stamps) }
    ensures stamps { IfOk result (AreNextStamps front.now) }
    ensures uncancelled { OnOk result (cause_in (state_op tag change) front.now front.now ≡ None) }
    ensures cancelled { IfErr result (IsFor (cause_in (state_op tag change) front.now front.now)) }
    ensures made { IfOk result (λ next. IsMadeFor (state_op tag change) front.now front.now next made.old made.new) }
{
    let Some(node) = find(&front.forest, tag) else {
        return Err(PrepareRefusal::Cancel(Cancel::NotMounted { tag }));
    };
    if !has_state(node.kind()) {
        return Err(PrepareRefusal::Cancel(Cancel::Stateless { tag }));
    }
    let families = changed(alloc, made, &front.families, tag, change)?;
    let way = path_to(alloc, &front.forest, tag)?.unwrap_or(Vec::new(alloc));
    Ok(settled_along(alloc, made, front, front.size, families, &way)?)
}

/// The stamps after a front, once the node of a tag is changed, and then the forest is settled: the
/// list has the tags on the way to that node, and those of the nodes that settling changes.
fn stamps_after_edit(
    alloc: Global,
    front: &Content,
    tag: u32,
    way: &[u32],
    edited: &Forest,
    forest: &Forest,
    tags: &[u32],
) -> Result<Stamps, AllocError>
    requires number { front.now.number < 2 ^ 64 - 1 }
    requires old_way { way_to tag front.now.forest ≡ Some way.now }
    requires new_way { way_to tag edited.now ≡ Some way.now }
    requires edited { IsDistinct nat_eq (tags_of (contents_of edited.now)) }
    requires new { IsDistinct nat_eq (tags_of (contents_of forest.now)) }
    requires change { IsChangeAt tag front.now.forest edited.now forest.now front.now.stamps (front.now.number + 1) tags.now }
    ensures { IfOk result (AreStampsAfter front.now.forest forest.now front.now.stamps (front.now.number + 1)) }
{
    let number = front.number + 1;
    if let (Some(was), Some(now)) = (
        find_along(&front.forest, way, tag),
        find_along(edited, way, tag),
    ) {
        if has_same_fields(was, now) {
            return front.stamps.share();
        }
        if is_hidden(was.props()) == is_hidden(now.props()) {
            return front.stamps.with_each(alloc, tags, number);
        }
    }
    stamps_after(alloc, &front.forest, forest, &front.stamps, number)
}

/// The content after a change of a node.
fn with_props(
    alloc: Global,
    made: &mut Made,
    tag: u32,
    change: &NodeEdit,
    front: &Content,
) -> Result<Content, PrepareRefusal>
    requires number { front.now.number < 2 ^ 64 - 1 }
    requires change { IsEditInRange change.now }
    ensures next { IfOk result (λ next. next ≡ content_next (props_op tag change.now) front.now front.now next.stamps) }
    ensures stamps { IfOk result (AreNextStamps front.now) }
    ensures uncancelled { OnOk result (cause_in (props_op tag change.now) front.now front.now ≡ None) }
    ensures cancelled { IfErr result (IsFor (cause_in (props_op tag change.now) front.now front.now)) }
    ensures made { IfOk result (λ next. IsMadeFor (props_op tag change.now) front.now front.now next made.old made.new) }
{
    let Some(way) = path_to(alloc, &front.forest, tag)? else {
        return Err(PrepareRefusal::Cancel(Cancel::NotMounted { tag }));
    };
    let edited = replace_along(alloc, made, &front.forest, &way, tag, change)?;
    let mut tags = Vec::from_slice(alloc, &way)?;
    let size = SizeChange {
        before: front.size,
        after: front.size,
    };
    let families = front.families.share()?;
    let forest = settle_along(alloc, made, &mut tags, &edited, size, &families, &way)?;
    let stamps = stamps_after_edit(alloc, front, tag, &way, &edited, &forest, &tags)?;
    Ok(Content {
        number: front.number + 1,
        size: front.size,
        forest,
        families,
        stamps,
    })
}

/// The content with another size of the surface.
fn with_size(
    alloc: Global,
    made: &mut Made,
    size: Size,
    front: &Content,
) -> Result<Content, AllocError>
    requires number { front.now.number < 2 ^ 64 - 1 }
    requires size { IsSizeInRange size }
    ensures next { IfOk result (λ next. next ≡ content_next (resize size) front.now front.now next.stamps) }
    ensures stamps { IfOk result (AreNextStamps front.now) }
    ensures made { IfOk result (λ next. IsMadeFor (resize size) front.now front.now next made.old made.new) }
{
    let families = front.families.share()?;
    settled_along(alloc, made, front, size, families, &[])
}

/// The content with an empty forest.
fn stopped(front: &Content) -> Result<Content, AllocError>
    requires { front.now.number < 2 ^ 64 - 1 }
    ensures next { IfOk result (λ next. next ≡ content_next stop front.now front.now next.stamps) }
    ensures stamps { IfOk result (AreNextStamps front.now) }
{
    let number = front.number + 1;
    Ok(Content {
        number,
        size: front.size,
        forest: Forest::empty(),
        families: front.families.share()?,
        stamps: Stamps::none(),
    })
}

/// The content after a change that leaves all as it is, except for the number. It makes nothing.
fn unchanged(front: &Content) -> Result<Content, AllocError>
    requires { front.now.number < 2 ^ 64 - 1 }
    ensures next { IfOk result (λ next. next ≡ content_next suspend front.now front.now next.stamps) }
    ensures stamps { IfOk result (AreNextStamps front.now) }
    ensures made { IfOk result (λ next. (made : MadeCounts) → IsMadeFor suspend front.now front.now next made made) }
{
    let number = front.number + 1;
    Ok(Content {
        number,
        size: front.size,
        forest: front.forest.share()?,
        families: front.families.share()?,
        stamps: front.stamps.share()?,
    })
}

/// The content after a change of the front, by a caller that holds that content.
pub(crate) fn after(
    alloc: Global,
    made: &mut Made,
    op: &Op,
    front: &Content,
    held: &Content,
) -> Result<Content, PrepareRefusal>
    requires op { IsOpInRange (plain_op op.now) }
    requires number { front.now.number < 2 ^ 64 - 1 }
    ensures next { IfOk result (λ next. next ≡ content_next (plain_op op.now) front.now held.now next.stamps) }
    ensures stamps { IfOk result (AreNextStamps front.now) }
    ensures uncancelled { OnOk result (cause_in (plain_op op.now) front.now held.now ≡ None) }
    ensures cancelled { IfErr result (IsFor (cause_in (plain_op op.now) front.now held.now)) }
    ensures made { IfOk result (λ next. IsMadeFor (plain_op op.now) front.now held.now next made.old made.new) }
{
    match op {
        Op::Complete { nodes } => with_forest(alloc, made, nodes.as_slice(), front, held),
        Op::State { tag, change } => with_state(alloc, made, *tag, *change, front),
        Op::Props { tag, change } => with_props(alloc, made, *tag, change, front),
        Op::Size { size } => Ok(with_size(alloc, made, *size, front)?),
        Op::Stop => Ok(stopped(front)?),
        Op::Suspend | Op::Resume => Ok(unchanged(front)?),
    }
}
