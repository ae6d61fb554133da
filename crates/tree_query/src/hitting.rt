//! Which view lies on top at a point.

ghost use Rattle.std.specs.Prelude.{◌≡◌, ◌+ℤ◌, ◌≤ℤ◌, ◌^◌, pos, IfOk, OnOk};
ghost use Rattle.host_views.specs.Plain.{plain_placed, plain_tree};
ghost use Rattle.tree_query.specs.Bounds.{IsPlaceNear, IsPlaceWithin};
ghost use Rattle.tree_query.specs.Flattening.{IsFlattening, IsPointInRange};
ghost use Rattle.tree_query.specs.Search.{AreInsidesNear, GoesOn, inside_view, is_hit, known_inside};
ghost use Rattle.tree_query.specs.Topmost.{clips, is_from_to, is_held, topmost_at};

use crate::places::{CORNER, moved_by};
use host_views::{HostTree, HostView, PlacedView};
use prop_table::{NodeProps, rows};
use shadow_frame::{Point, Size};
use std::alloc::{AllocError, Global};
use std::collections::HashMap;

/// What lies in a host parent.
#[derive(Clone, Copy)]
pub(crate) struct Inside {
    /// Where it begins on the surface.
    pub(crate) begin: Point,
    /// Whether the parent and its host ancestors, where they clip, hold the point.
    pub(crate) is_open: bool,
}

/// A search for the topmost view at a point, view by view in host preorder.
#[derive(Drop)]
pub(crate) struct Search {
    pub(crate) at: Point,
    /// What lies in each of the views so far, by its tag.
    pub(crate) insides: HashMap<u32, Inside>,
    /// The last view so far that is hit.
    pub(crate) topmost: Option<u32>,
}

/// Whether a number is at least a start, and below that start plus a length.
fn is_from_to(start: i64, length: i64, number: i64) -> bool
    requires start_low { pos 0 ≤ℤ (start +ℤ pos (2 ^ 61)) }
    requires start_high { start ≤ℤ pos (2 ^ 61) }
    requires low { pos 0 ≤ℤ (number +ℤ pos 5000000000000000000) }
    requires high { number ≤ℤ pos 5000000000000000000 }
    ensures { result ≡ is_from_to start length number }
{
    start <= number && number - start < length
}

/// Whether what begins there and has that size holds a point.
fn is_held(origin: Point, size: Size, at: Point) -> bool
    requires origin { IsPlaceWithin (2 ^ 61) origin }
    requires at { IsPointInRange at }
    ensures { result ≡ is_held origin size at }
{
    is_from_to(origin.x, size.width, at.x) && is_from_to(origin.y, size.height, at.y)
}

/// Whether a view clips what lies in it.
fn clips(props: &NodeProps) -> bool
    ensures { result ≡ clips props.now }
{
    props.get(rows::CLIP) == Some(1)
}

/// What a search meets at a view.
#[derive(Clone, Copy)]
struct Met {
    /// Whether the view holds the point, and none of its host ancestors clips it there.
    is_hit: bool,
    inside: Inside,
}

impl Inside {
    /// What a search for the topmost view at that point meets at a view that lies here.
    fn meet(self, view: &HostView, at: Point) -> Met
        requires begin { IsPlaceNear self.begin }
        requires origin { IsPlaceNear view.now.frame.origin }
        requires at { IsPointInRange at }
        ensures hit { result.is_hit ≡ is_hit at self view.now }
        ensures inside { result.inside ≡ inside_view at self view.now }
    {
        let begin = moved_by(self.begin, view.frame.origin);
        let is_held = is_held(begin, view.frame.size, at);
        Met {
            is_hit: is_held && self.is_open,
            inside: Inside {
                begin,
                is_open: (!clips(&view.props) || is_held) && self.is_open,
            },
        }
    }
}

impl Search {
    /// What lies in the view of a tag, or on the surface where there is none.
    fn inside(&self, tag: u32) -> Inside
        ensures { result ≡ known_inside self.now tag }
    {
        match self.insides.get(&tag) {
            Some(inside) => *inside,
            None => Inside {
                begin: CORNER,
                is_open: true,
            },
        }
    }

    /// Goes on to the next view.
    fn add(&mut self, placed: &PlacedView) -> Result<(), AllocError>
        requires at { IsPointInRange self.old.at }
        requires near { AreInsidesNear self.old }
        requires origin { IsPlaceNear placed.now.view.value.frame.origin }
        ensures at { self.new.at ≡ self.old.at }
        ensures searched { OnOk result (GoesOn self.old self.new (plain_placed placed.now)) }
    {
        let met = self.inside(placed.parent).meet(&placed.view, self.at);
        self.insides.insert(placed.tag, met.inside)?;
        if met.is_hit {
            self.topmost = Some(placed.tag);
        }
        Ok(())
    }
}

/// The tag of the topmost view at a point of the surface: the last one in host preorder that holds
/// the point and all of whose host ancestors that clip hold it. It is `None` where there is none.
///
/// The tree is a flattening, and each coordinate is at most 5,000,000,000,000,000,000 in amount. The
/// call fails for want of memory alone, and goes over the views once.
pub fn hit(alloc: Global, tree: &HostTree, at: Point) -> Result<Option<u32>, AllocError>
    requires tree { IsFlattening (plain_tree tree.now) }
    requires at { IsPointInRange at }
    ensures { IfOk result (λ topmost. topmost ≡ topmost_at (plain_tree tree.now) at) }
{
    let views = tree.views.as_slice();
    let mut search = Search {
        at,
        insides: HashMap::with_capacity(alloc, views.len())?,
        topmost: None,
    };
    for placed in views {
        search.add(placed)?;
    }
    Ok(search.topmost)
}
