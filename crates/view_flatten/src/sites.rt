//! The sites that a walk finds: one for each node that has a view, in preorder.
//!
//! Whether a node forms a context is read of its props once, and handed on as `is_host`.

ghost use Rattle.std.specs.Prelude.{◌≡◌, ◌+◌, pos, negsuc, ◌+ℤ◌, ◌≤ℤ◌, [], ◌∷◌, Bool, not, ◌&&◌, OnOk};
ghost use Rattle.std.specs.Option.{option_map};
ghost use Rattle.shadow_node.specs.Entered.{count_outside};
ghost use Rattle.shadow_node.specs.Fields.{SettledFields};
ghost use Rattle.shadow_node.specs.Forest.{depth_of, forest_of};
ghost use Rattle.tree_settle.specs.Limits.{AreFramesInBounds, IsFrameInBounds};
ghost use Rattle.view_flatten.specs.HostTree.{moved};
ghost use Rattle.view_flatten.specs.Placed.{IsSameWalk};
ghost use Rattle.view_flatten.specs.Sites.{AreSitesMarked, HasFound, HasRoomBelow, HasRoomFor, IsAdded, host_inside, is_context, plain_site, root, shown_host, shown_site, site_in};
ghost use Rattle.view_flatten.specs.Skips.{DoTagsRise, skips};
ghost use Rattle.view_flatten.specs.Walks.{entered_more};

use crate::skips::Skip;
use crate::walks::{Spot, Spots, Walk};
use shadow_frame::{Point, Rect};
use shadow_kinds::{forms_context, is_hidden, shows_itself, z_of};
use std::alloc::AllocError;

/// A view's host parent and its z there, before the views are in order.
#[derive(Drop)]
pub(crate) struct Site<'a> {
    pub(crate) spot: Spot<'a>,
    pub(crate) parent: u32,
    pub(crate) z: i64,
    /// Where the view begins in the host parent.
    pub(crate) origin: Point,
    /// Whether the walk did not enter the node.
    pub(crate) is_skipped: bool,
    /// Whether views may lie in it: its node forms a context, and the walk entered it.
    pub(crate) may_hold: bool,
}

/// What a walk has found so far.
#[derive(Drop)]
pub(crate) struct Found<'a> {
    pub(crate) sites: Vec<Site<'a>>,
    /// The tags of the nodes that were not entered.
    pub(crate) skipped: Vec<u32>,
}

/// The host parent of the nodes of a forest, and where the parent of these nodes begins in it.
#[derive(Clone, Copy)]
pub struct Host {
    pub(crate) parent: u32,
    pub(crate) begin: Point,
}

impl Host {
    /// The host of a surface's top nodes.
    pub fn root() -> Host
        ensures { result ≡ root }
    {
        Host {
            parent: 0,
            begin: Point { x: 0, y: 0 },
        }
    }

    /// Where nodes begin in it whose frames begin at 0.
    pub fn begin(&self) -> Point
        ensures { result ≡ self.now.begin }
    {
        self.begin
    }

    /// The host of what lies below a node.
    fn inside(self, spot: &Spot, is_host: bool) -> Host
        requires place { HasRoomFor 1 self.begin }
        requires frame { IsFrameInBounds spot.now.tree.fields.frame }
        requires context { is_host ≡ is_context spot.now.tree.fields }
        ensures { result ≡ host_inside self spot.now.tree.fields }
    {
        if is_host {
            Host {
                parent: spot.tag(),
                begin: Point { x: 0, y: 0 },
            }
        } else {
            Host {
                parent: self.parent,
                begin: begin_of(self.begin, spot.frame()),
            }
        }
    }
}

/// A coordinate moved by another.
fn coordinate_after(coordinate: i64, by: i64) -> i64
    requires low { negsuc 5039999999 ≤ℤ coordinate }
    requires high { coordinate ≤ℤ pos 5040000000 }
    requires by_low { negsuc 104999999 ≤ℤ by }
    requires by_high { by ≤ℤ pos 105000000 }
    ensures { result ≡ coordinate +ℤ by }
{
    coordinate + by
}

/// Where a node begins whose parent begins at that place.
pub(crate) fn begin_of(place: Point, frame: Rect) -> Point
    requires place { HasRoomFor 1 place }
    requires frame { IsFrameInBounds frame }
    ensures { result ≡ moved place frame.origin }
{
    Point {
        x: coordinate_after(place.x, frame.origin.x),
        y: coordinate_after(place.y, frame.origin.y),
    }
}

/// The host of a node, where the node and its ancestors are shown.
pub fn shown_host(host: Option<Host>, spot: &Spot) -> Option<Host>
    ensures { result ≡ shown_host host spot.now.tree.fields }
{
    if is_hidden(spot.props()) { None } else { host }
}

/// The host of what lies below a node, where it is shown.
pub fn host_below(host: Option<Host>, spot: &Spot, is_host: bool) -> Option<Host>
    requires place { HasRoomBelow 1 host }
    requires frame { IsFrameInBounds spot.now.tree.fields.frame }
    requires context { is_host ≡ is_context spot.now.tree.fields }
    ensures { result ≡ option_map (λ host. host_inside host spot.now.tree.fields) host }
{
    match host {
        Some(host) => Some(host.inside(spot, is_host)),
        None => None,
    }
}

/// The site of a node with that host.
fn site_of<'a>(spot: &Spot<'a>, host: Host, is_host: bool, is_skipped: bool) -> Site<'a>
    requires place { HasRoomFor 1 host.begin }
    requires frame { IsFrameInBounds spot.now.tree.fields.frame }
    ensures site { plain_site result ≡ site_in host spot.now.tree.fields }
    ensures spot { result.spot ≡ spot.now }
    ensures mark { result.is_skipped ≡ is_skipped }
    ensures holds { result.may_hold ≡ (is_host && not is_skipped) }
{
    Site {
        parent: host.parent,
        z: z_of(spot.props()),
        origin: begin_of(host.begin, spot.frame()),
        spot: spot.again(),
        is_skipped,
        may_hold: is_host && !is_skipped,
    }
}

/// Adds the site of a node, where it is shown and forms a view.
fn add_site<'a>(
    sites: &mut Vec<Site<'a>>,
    spot: &Spot<'a>,
    host: Option<Host>,
    is_host: bool,
    is_skipped: bool,
) -> Result<(), AllocError>
    requires place { HasRoomBelow 1 host }
    requires frame { IsFrameInBounds spot.now.tree.fields.frame }
    requires context { is_host ≡ is_context spot.now.tree.fields }
    ensures sites { OnOk result (IsAdded sites.old.items (shown_site host spot.now.tree.fields) sites.new.items) }
    ensures marked { OnOk result ((test : SettledFields → Bool) → is_skipped ≡ test spot.now.tree.fields → AreSitesMarked test sites.old.items → AreSitesMarked test sites.new.items) }
{
    if let Some(host) = host {
        if is_host || shows_itself(spot.props()) {
            sites.push(site_of(spot, host, is_host, is_skipped))?;
        }
    }
    Ok(())
}

/// Adds what a walk finds at a node and below it, where it enters the node.
#[cycle(walk)]
fn add_tree<'a>(
    walk: &mut Walk<'a>,
    found: &mut Found<'a>,
    spot: &Spot<'a>,
    host: Option<Host>,
    skip: &Skip,
) -> Result<(), AllocError>
    requires rise { DoTagsRise skip.now }
    requires frame { IsFrameInBounds spot.now.tree.fields.frame }
    requires frames { AreFramesInBounds spot.now.tree.children }
    requires room { HasRoomBelow (depth_of spot.now.tree.children + 1) host }
    ensures found { OnOk result (HasFound (skips skip.now spot.now.stamps) host (forest_of (spot.now.tree ∷ [])) found.old found.new) }
    ensures entered { OnOk result (walk.new ≡ entered_more walk.old (count_outside (skips skip.now spot.now.stamps) (forest_of (spot.now.tree ∷ [])))) }
    ensures same { IsSameWalk walk.old walk.new }
{
    let host = shown_host(host, spot);
    let is_host = forms_context(spot.kind(), spot.props());
    if skip.skips(walk, spot, is_host) {
        found.skipped.push(spot.tag())?;
        return add_site(&mut found.sites, spot, host, is_host, true);
    }
    // so the tag is that of a node
    let _tag = spot.tag();
    let below = walk.enter(spot);
    let host_below = host_below(host, spot, is_host);
    add_site(&mut found.sites, spot, host, is_host, false)?;
    add_forest(walk, found, below, host_below, skip)
}

/// Adds what a walk finds at some nodes and below them, in preorder.
#[cycle(walk)]
pub(crate) fn add_forest<'a>(
    walk: &mut Walk<'a>,
    found: &mut Found<'a>,
    spots: Spots<'a>,
    host: Option<Host>,
    skip: &Skip,
) -> Result<(), AllocError>
    requires rise { DoTagsRise skip.now }
    requires frames { AreFramesInBounds spots.forest }
    requires room { HasRoomBelow (depth_of spots.forest) host }
    ensures found { OnOk result (HasFound (skips skip.now spots.entry.stamps) host spots.entry.forest found.old found.new) }
    ensures entered { OnOk result (walk.new ≡ entered_more walk.old (count_outside (skips skip.now spots.entry.stamps) spots.entry.forest)) }
    ensures same { IsSameWalk walk.old walk.new }
{
    for spot in spots {
        add_tree(walk, found, &spot, host, skip)?;
    }
    Ok(())
}
