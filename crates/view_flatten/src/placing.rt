//! The sites in their order, and the host tree that they make.

ghost use Rattle.std.specs.Prelude.{◌≡◌, ◌<◌, ◌≤◌, ◌++◌, [], ◌∷◌, List, Bool, IsTrue, length, IfOk, OnOk};
ghost use Rattle.std.specs.List.Sorted.{IsNonDecreasingBy, IsPermutation};
ghost use Rattle.shadow_node.specs.Fields.{SettledFields};
ghost use Rattle.view_flatten.specs.Placed.{AreMarked, plain_place, plain_places};
ghost use Rattle.view_flatten.specs.Placing.{AreByZ, HoldOnlyWhereMarked, placed_site, sites_at, tree_below};
ghost use Rattle.view_flatten.specs.Sites.{PlainSite, AreSitesMarked, HasRoomFor, plain_site, plain_sites, site_in};
ghost use Rattle.tree_settle.specs.Limits.{IsFrameInBounds};

use crate::sites::{Host, Site, begin_of};
use crate::walks::Spot;
use host_views::{HostView, ViewRef};
use shadow_frame::{Point, Rect};
use std::alloc::{AllocError, Global};
use std::sync::Arc;

/// A view at its place in the host tree, which is made when it is asked for.
#[derive(Drop)]
pub struct Placed<'a> {
    /// The tag of the host parent, or 0 at the root.
    pub parent: u32,
    pub index: u32,
    /// Where the view begins in the host parent.
    pub origin: Point,
    pub spot: Spot<'a>,
    /// Whether the walk did not enter the node.
    pub is_skipped: bool,
}

/// What a walk found.
#[derive(Drop)]
pub struct Places<'a> {
    /// The places in host preorder.
    pub list: Vec<Placed<'a>>,
    /// The tags of the nodes that were reached and not entered, in preorder.
    pub skipped: Vec<u32>,
}

impl<'a> Placed<'a> {
    /// The place of a node in its host, with index 0.
    pub fn first_in(host: Host, spot: Spot<'a>, is_skipped: bool) -> Placed<'a>
        requires place { HasRoomFor 1 host.begin }
        requires frame { IsFrameInBounds spot.tree.fields.frame }
        ensures place { plain_place result ≡ placed_site host.parent 0 (site_in host spot.entry.tree.fields) }
        ensures spot { result.spot ≡ spot.entry }
        ensures mark { result.is_skipped ≡ is_skipped }
    {
        Placed {
            parent: host.parent,
            index: 0,
            origin: begin_of(host.begin, spot.frame()),
            spot,
            is_skipped,
        }
    }

    /// The tag of the view, which is that of its node.
    pub fn tag(&self) -> u32
        ensures tag { result ≡ (plain_place self.now).tag }
        ensures low { 1 ≤ result }
    {
        self.spot.tag()
    }

    /// The frame in the host parent.
    pub fn frame(&self) -> Rect
        ensures { result ≡ (plain_place self.now).view.frame }
    {
        Rect {
            origin: self.origin,
            size: self.spot.frame().size,
        }
    }

    /// Makes the view. The call fails for want of memory alone.
    pub fn view(&self, alloc: Global) -> Result<ViewRef, AllocError>
        ensures { IfOk result (λ view. view.value ≡ (plain_place self.now).view) }
    {
        let view = HostView {
            kind: self.spot.kind(),
            props: *self.spot.props(),
            label: self.spot.label().share()?,
            state: self.spot.state(),
            frame: self.frame(),
        };
        Ok(Arc::new(alloc, view)?)
    }
}

/// Whether sites are in order: by their host parent, and below it by z.
fn are_in_order(sites: &[Site]) -> bool
    ensures by_z { IsTrue result → AreByZ (plain_sites sites.now) (plain_sites sites.now) }
    ensures by_parent { IsTrue result → IsNonDecreasingBy (λ site. site.parent) sites.now }
{
    sites.is_sorted_by_key(|site| (site.parent, site.z))
}

/// Puts sites in order: by their host parent, below it by z, and where z is equal as they stand.
pub(crate) fn put_in_order<'a>(sites: &mut Vec<Site<'a>>) -> Result<(), AllocError>
    ensures by_z { OnOk result (AreByZ (plain_sites sites.old.items) (plain_sites sites.new.items)) }
    ensures by_parent { OnOk result (IsNonDecreasingBy (λ site. site.parent) sites.new.items) }
    ensures moved { IsPermutation sites.old.items sites.new.items }
{
    if !are_in_order(sites) {
        sites.sort_by_key(|site| (site.parent, site.z))?;
    }
    Ok(())
}

/// Of sites in order, those below a host parent.
fn children_of<'s, 'a>(sites: &'s [Site<'a>], parent: u32) -> &'s [Site<'a>]
    requires { IsNonDecreasingBy (λ site. site.parent) sites.now }
    ensures children { plain_sites result.now ≡ sites_at (plain_sites sites.now) parent }
    ensures marked { (test : SettledFields → Bool) → AreSitesMarked test sites.now → AreSitesMarked test result.now }
    ensures closed { (all : List PlainSite) → HoldOnlyWhereMarked all sites.now → HoldOnlyWhereMarked all result.now }
    ensures len { length result.now ≤ length sites.now }
{
    let start = sites.partition_point(|site| site.parent < parent);
    let end = sites.partition_point(|site| site.parent <= parent);
    &sites[start..end]
}

/// Adds the place of a site below a host parent at that index.
fn add_place<'a>(
    places: &mut Vec<Placed<'a>>,
    site: &Site<'a>,
    parent: u32,
    index: u32,
) -> Result<(), AllocError>
    ensures places { OnOk result (plain_places places.new.items ≡ plain_places places.old.items ++ placed_site parent index (plain_site site.now) ∷ []) }
    ensures marked { OnOk result ((test : SettledFields → Bool) → site.now.is_skipped ≡ test site.now.spot.tree.fields → AreMarked test places.old.items → AreMarked test places.new.items) }
{
    let placed = Placed {
        parent,
        index,
        origin: site.origin,
        spot: site.spot.again(),
        is_skipped: site.is_skipped,
    };
    places.push(placed)?;
    Ok(())
}

/// Adds the places below a host parent, down to so many levels: each child, and then those below it.
///
/// Below a site in which nothing may lie the sites are not searched.
pub(crate) fn add_below<'a>(
    places: &mut Vec<Placed<'a>>,
    sites: &[Site<'a>],
    parent: u32,
    levels: usize,
) -> Result<(), AllocError>
    requires order { IsNonDecreasingBy (λ site. site.parent) sites.now }
    requires closed { HoldOnlyWhereMarked (plain_sites sites.now) sites.now }
    requires count { length sites.now ≤ 2000 }
    ensures places { OnOk result (plain_places places.new.items ≡ plain_places places.old.items ++ tree_below levels (plain_sites sites.now) parent) }
    ensures marked { OnOk result ((test : SettledFields → Bool) → AreSitesMarked test sites.now → AreMarked test places.old.items → AreMarked test places.new.items) }
{
    if levels == 0 {
        return Ok(());
    }
    for (index, site) in children_of(sites, parent).iter().enumerate() {
        add_place(places, site, parent, index as u32)?;
        if !site.may_hold {
            continue;
        }
        add_below(places, sites, site.spot.tag(), levels - 1)?;
    }
    Ok(())
}
