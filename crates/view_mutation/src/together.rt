//! Two forests walked in step: where each view stands as it stood, they are compared node by node.
//!
//! No list of places is made, and a context that is unchanged since the base costs no more than a
//! look at its tag, its stamp and its place. The walk gives up at the first node that stands
//! otherwise, or whose z is not 0.

ghost use Rattle.std.specs.Prelude.{◌≡◌, [], ◌∷◌, is_some, map, true, false, IfOk, IfSome, IsTrue, OnOk};
ghost use Rattle.host_views.specs.Plain.{plain_mutation};
ghost use Rattle.shadow_node.specs.Entered.{AreAlikeSince, count_outside};
ghost use Rattle.shadow_node.specs.Forest.{depth_of, forest_of};
ghost use Rattle.shadow_node.specs.Pruned.{pruned};
ghost use Rattle.shadow_node.specs.Stamps.{stamp_in};
ghost use Rattle.tree_settle.specs.Limits.{AreFramesInBounds, IsForestInLimits, IsFrameInBounds};
ghost use Rattle.view_flatten.specs.HostTree.{host_tree_of};
ghost use Rattle.view_flatten.specs.Placed.{IsSameWalk};
ghost use Rattle.view_flatten.specs.Sites.{HasRoomBelow, is_context, shown_host as host_shown, shown_site, shown_sites};
ghost use Rattle.view_flatten.specs.Walks.{entered_more};
ghost use Rattle.view_mutation.specs.Mutations.{mutations_between};
ghost use Rattle.view_mutation.specs.Since.{AreTagged};
ghost use Rattle.view_mutation.specs.Together.{AreOneParent, ArePaired, AreCompared, StandAlike, kept_by, unchanged_by};

use crate::in_step::add_update;
use host_views::Mutation;
use shadow_kinds::{forms_context, forms_view, is_hidden, shows_itself, z_of};
use sqlite_items::Items;
use std::alloc::{AllocError, Global};
use view_flatten::{Host, Placed, Spot, Spots, Walk, host_below, shown_host};

/// The hosts of two nodes of one tag, where they are shown.
#[derive(Clone, Copy)]
struct Hosts {
    was: Option<Host>,
    is: Option<Host>,
}

impl Hosts {
    /// Whether both begin at one place, so that nothing moves in them.
    fn are_still(&self) -> bool
        ensures { IsTrue result → AreOneParent self.now.was self.now.is → self.now.was ≡ self.now.is }
    {
        match (self.was, self.is) {
            (Some(was), Some(is)) => was.begin() == is.begin(),
            (None, None) => true,
            _ => false,
        }
    }

    /// The hosts of two nodes, where these and their ancestors are shown.
    fn shown(&self, was: &Spot, is: &Spot) -> Hosts
        ensures old { result.was ≡ host_shown self.now.was was.now.tree.fields }
        ensures new { result.is ≡ host_shown self.now.is is.now.tree.fields }
    {
        Hosts {
            was: shown_host(self.was, was),
            is: shown_host(self.is, is),
        }
    }
}

/// Whether two nodes have one tag, are hidden both or neither, form contexts and views both or
/// neither, and have z 0; it is known whether the second forms a context.
fn stand_alike(was: &Spot, is: &Spot, is_host: bool) -> bool
    requires { is_host ≡ is_context is.now.tree.fields }
    ensures { IsTrue result → StandAlike was.now.tree.fields is.now.tree.fields }
{
    was.tag() == is.tag()
        && is_hidden(was.props()) == is_hidden(is.props())
        && forms_context(was.kind(), was.props()) == is_host
        && (is_host || shows_itself(was.props()) == shows_itself(is.props()))
        && z_of(was.props()) == 0
        && z_of(is.props()) == 0
}

/// Adds an update of a node's own view, where it is shown, has one and differs from the one it was.
fn add_own(
    alloc: Global,
    list: &mut Items<Mutation>,
    was: &Spot,
    is: &Spot,
    hosts: Hosts,
    is_skipped: bool,
) -> Result<(), AllocError>
    requires alike { StandAlike was.now.tree.fields is.now.tree.fields }
    requires parent { AreOneParent hosts.was hosts.is }
    requires old_place { HasRoomBelow 1 hosts.was }
    requires new_place { HasRoomBelow 1 hosts.is }
    requires old_frame { IsFrameInBounds was.now.tree.fields.frame }
    requires new_frame { IsFrameInBounds is.now.tree.fields.frame }
    requires skipped { is_skipped ≡ true → was.now.tree.fields ≡ is.now.tree.fields }
    ensures { OnOk result (AreCompared (shown_site hosts.was was.now.tree.fields)
        (shown_site hosts.is is.now.tree.fields) list.old list.new) }
{
    let (Some(was_in), Some(is_in)) = (hosts.was, hosts.is) else {
        return Ok(());
    };
    if !forms_view(is.kind(), is.props()) {
        return Ok(());
    }
    let was = Placed::first_in(was_in, was.again(), is_skipped);
    let is = Placed::first_in(is_in, is.again(), is_skipped);
    add_update(alloc, list, &was, &is)
}

/// Goes over a node that is not entered, and adds the update of its view where it is moved; it
/// answers whether the node's z is 0.
fn compare_kept(
    alloc: Global,
    list: &mut Items<Mutation>,
    was: &Spot,
    is: &Spot,
    hosts: Hosts,
) -> Result<bool, AllocError>
    requires same { was.now.tree.fields ≡ is.now.tree.fields }
    requires parent { AreOneParent hosts.was hosts.is }
    requires old_place { HasRoomBelow 1 hosts.was }
    requires new_place { HasRoomBelow 1 hosts.is }
    requires frame { IsFrameInBounds is.now.tree.fields.frame }
    ensures { IfOk result (λ all. IsTrue all → AreCompared
        (shown_site (host_shown hosts.was was.now.tree.fields) was.now.tree.fields)
        (shown_site (host_shown hosts.is is.now.tree.fields) is.now.tree.fields) list.old list.new) }
{
    if z_of(is.props()) != 0 {
        return Ok(false);
    }
    if hosts.are_still() {
        return Ok(true);
    }
    add_own(alloc, list, was, is, hosts.shown(was, is), true)?;
    Ok(true)
}

/// Whether a node is a context that is unchanged since the base.
fn is_unchanged<'n>(base: u64, new: &mut Walk<'n>, is: &Spot<'n>, is_host: bool) -> bool
    requires stamps { is.now.stamps ≡ new.old.stamps }
    requires context { is_host ≡ is_context is.now.tree.fields }
    ensures unchanged { result ≡ unchanged_by new.old base is.now.tree.fields }
    ensures same { new.new ≡ new.old }
{
    is_host && new.stamp_of(is) <= base
}

/// Goes over two nodes and what lies below them in step, and adds the updates of their views; it
/// answers whether they are in step.
#[cycle(compare)]
fn compare_tree<'o, 'n>(
    alloc: Global,
    list: &mut Items<Mutation>,
    base: u64,
    old: &mut Walk<'o>,
    new: &mut Walk<'n>,
    was: &Spot<'o>,
    is: &Spot<'n>,
    hosts: Hosts,
) -> Result<bool, AllocError>
    requires stamps { is.now.stamps ≡ new.old.stamps }
    requires pairs { ArePaired (kept_by new.old base) (unchanged_by new.old base) (forest_of (was.now.tree ∷ [])) (forest_of (is.now.tree ∷ [])) }
    requires parent { AreOneParent hosts.was hosts.is }
    requires old_frames { AreFramesInBounds (forest_of (was.now.tree ∷ [])) }
    requires new_frames { AreFramesInBounds (forest_of (is.now.tree ∷ [])) }
    requires old_room { HasRoomBelow (depth_of (forest_of (was.now.tree ∷ []))) hosts.was }
    requires new_room { HasRoomBelow (depth_of (forest_of (is.now.tree ∷ []))) hosts.is }
    ensures compared { IfOk result (λ all. IsTrue all → AreCompared
        (shown_sites hosts.was (pruned (kept_by new.old base) (forest_of (was.now.tree ∷ []))))
        (shown_sites hosts.is (pruned (unchanged_by new.old base) (forest_of (is.now.tree ∷ [])))) list.old list.new) }
    ensures old_entered { IfOk result (λ all. IsTrue all → old.new ≡ entered_more old.old (count_outside (kept_by new.old base) (forest_of (was.now.tree ∷ [])))) }
    ensures new_entered { IfOk result (λ all. IsTrue all → new.new ≡ entered_more new.old (count_outside (unchanged_by new.old base) (forest_of (is.now.tree ∷ [])))) }
    ensures old_same { IsSameWalk old.old old.new }
    ensures new_same { IsSameWalk new.old new.new }
{
    if was.tag() != is.tag() {
        return Ok(false);
    }
    let is_host = forms_context(is.kind(), is.props());
    if is_unchanged(base, new, is, is_host) {
        return compare_kept(alloc, list, was, is, hosts);
    }
    if !stand_alike(was, is, is_host) {
        return Ok(false);
    }
    let hosts = hosts.shown(was, is);
    add_own(alloc, list, was, is, hosts, false)?;
    let inside = Hosts {
        was: host_below(hosts.was, was, is_host),
        is: host_below(hosts.is, is, is_host),
    };
    let were = old.enter(was);
    let are = new.enter(is);
    compare_forest(alloc, list, base, old, new, were, are, inside)
}

/// Goes over two lists of nodes and what lies below them in step.
#[cycle(compare)]
fn compare_forest<'o, 'n>(
    alloc: Global,
    list: &mut Items<Mutation>,
    base: u64,
    old: &mut Walk<'o>,
    new: &mut Walk<'n>,
    were: Spots<'o>,
    are: Spots<'n>,
    hosts: Hosts,
) -> Result<bool, AllocError>
    requires stamps { are.stamps ≡ new.old.stamps }
    requires pairs { ArePaired (kept_by new.old base) (unchanged_by new.old base) were.forest are.forest }
    requires parent { AreOneParent hosts.was hosts.is }
    requires old_frames { AreFramesInBounds were.forest }
    requires new_frames { AreFramesInBounds are.forest }
    requires old_room { HasRoomBelow (depth_of were.forest) hosts.was }
    requires new_room { HasRoomBelow (depth_of are.forest) hosts.is }
    ensures compared { IfOk result (λ all. IsTrue all → AreCompared
        (shown_sites hosts.was (pruned (kept_by new.old base) were.entry.forest))
        (shown_sites hosts.is (pruned (unchanged_by new.old base) are.entry.forest)) list.old list.new) }
    ensures old_entered { IfOk result (λ all. IsTrue all → old.new ≡ entered_more old.old (count_outside (kept_by new.old base) were.entry.forest)) }
    ensures new_entered { IfOk result (λ all. IsTrue all → new.new ≡ entered_more new.old (count_outside (unchanged_by new.old base) are.entry.forest)) }
    ensures old_same { IsSameWalk old.old old.new }
    ensures new_same { IsSameWalk new.old new.new }
{
    let mut were = were;
    for is in are {
        let Some(was) = were.next() else {
            return Ok(false);
        };
        if !compare_tree(alloc, list, base, old, new, &was, &is, hosts)? {
            return Ok(false);
        }
    }
    match were.next() {
        Some(_) => Ok(false),
        None => Ok(true),
    }
}

/// The mutations between the host trees of two walks' forests that are in step; `None` where they
/// are not, and then the walks are as before.
///
/// Contexts that are unchanged since the base are not entered, nor is what stands for them in the old
/// forest. The call fails for want of memory alone.
pub fn updates_together(
    alloc: Global,
    base: u64,
    old: &mut Walk<'_>,
    new: &mut Walk<'_>,
) -> Result<Option<Items<Mutation>>, AllocError>
    requires old { IsForestInLimits old.old.forest }
    requires old_tags { AreTagged old.old.forest }
    requires new { IsForestInLimits new.old.forest }
    requires new_tags { AreTagged new.old.forest }
    requires alike { AreAlikeSince (stamp_in new.old.stamps) base old.old.forest new.old.forest }
    ensures list { IfOk result (λ found. IfSome found (λ list. map plain_mutation list
        ≡ mutations_between (host_tree_of old.old.forest) (host_tree_of new.old.forest))) }
    ensures old_entered { IfOk result (λ found. IfSome found (λ _. old.new
        ≡ entered_more old.old (count_outside (kept_by new.old base) old.old.forest))) }
    ensures new_entered { IfOk result (λ found. IfSome found (λ _. new.new
        ≡ entered_more new.old (count_outside (unchanged_by new.old base) new.old.forest))) }
    ensures old_stays { IfOk result (λ found. is_some found ≡ false → old.new ≡ old.old) }
    ensures new_stays { IfOk result (λ found. is_some found ≡ false → new.new ≡ new.old) }
{
    let mut list = Items::new(alloc);
    let (mut one, mut other) = (old.again(), new.again());
    let (were, are) = (one.top(), other.top());
    let hosts = Hosts {
        was: Some(Host::root()),
        is: Some(Host::root()),
    };
    if !compare_forest(
        alloc, &mut list, base, &mut one, &mut other, were, are, hosts,
    )? {
        return Ok(None);
    }
    *old = one;
    *new = other;
    Ok(Some(list))
}
