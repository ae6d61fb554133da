//! Where a node lies in one of its ancestors, or on the surface.

ghost use Rattle.std.specs.Prelude.{◌≡◌, ◌≤◌, [], IfSome};
ghost use Rattle.shadow_node.specs.Forest.{depth_of};
ghost use Rattle.tree_settle.specs.Limits.{AreFramesInBounds, IsForestInLimits, IsFrameInBounds};
ghost use Rattle.tree_query.specs.Bounds.{IsPlaceWithin};
ghost use Rattle.tree_query.specs.Found.{HasRoomFrom, begin_below, begin_inside, found_from, rectangle_of};
ghost use Rattle.tree_query.specs.Measured.{measured};

use crate::places::{CORNER, moved_by};
use shadow_frame::{Point, Rect};
use shadow_node::{Forest, ShadowNode};

/// A node that a walk came to.
#[derive(Clone, Copy)]
pub(crate) struct Found {
    /// Where the node's parent begins in the ancestor that is asked for, where there is one.
    pub(crate) begin: Option<Point>,
    /// The frame in the parent.
    pub(crate) frame: Rect,
}

impl Found {
    /// Where the node lies in the ancestor that is asked for, where there is one.
    fn rectangle(self) -> Option<Rect>
        requires room { HasRoomFrom 1 self.begin }
        requires frame { IsFrameInBounds self.frame }
        ensures place { result ≡ rectangle_of self }
        ensures origin { IfSome result (λ place. IsPlaceWithin 5040000000 place.origin) }
    {
        match self.begin {
            Some(place) => Some(Rect {
                origin: moved_by(place, self.frame.origin),
                size: self.frame.size,
            }),
            None => None,
        }
    }
}

/// Where a surface's top nodes begin in what is asked for: that is the surface itself by tag 0.
fn begin_at_top(against: u32) -> Option<Point>
    ensures { result ≡ begin_below against [] }
{
    if against == 0 { Some(CORNER) } else { None }
}

/// Where what lies in a node begins in the ancestor that is asked for.
fn begin_inside(begin: Option<Point>, node: &ShadowNode, against: u32) -> Option<Point>
    requires room { HasRoomFrom 1 begin }
    requires frame { IsFrameInBounds node.now.fields.frame }
    ensures { result ≡ begin_inside against begin node.now.fields }
{
    if node.tag() == against {
        return Some(CORNER);
    }
    match begin {
        Some(place) => Some(moved_by(place, node.frame().origin)),
        None => None,
    }
}

/// The first node with that tag, in preorder, among nodes whose parent begins there.
fn find_place(forest: &Forest, tag: u32, against: u32, begin: Option<Point>) -> Option<Found>
    requires frames { AreFramesInBounds forest.now }
    requires levels { depth_of forest.now ≤ 48 }
    requires room { HasRoomFrom (depth_of forest.now) begin }
    ensures found { result ≡ found_from tag against begin forest.now }
    ensures frame { IfSome result (λ found. IsFrameInBounds found.frame) }
    ensures room { IfSome result (λ found. HasRoomFrom 1 found.begin) }
{
    for node in forest.nodes() {
        if node.tag() == tag {
            return Some(Found {
                begin,
                frame: node.frame(),
            });
        }
        let children = node.children();
        if children.nodes().is_empty() {
            continue;
        }
        let inside = begin_inside(begin, node, against);
        if let Some(found) = find_place(children, tag, against, inside) {
            return Some(found);
        }
    }
    None
}

/// Where the node of a tag lies in the ancestor of another tag, or on the surface by tag 0: the
/// sum of the frame origins from below that ancestor down to the node, and the node's size.
///
/// The forest is that of a revision. It is `None` where the forest has no node of that tag, and
/// where this has no such ancestor; a node is none of its own. The place is at most 5,040,000,000
/// points away. It takes no memory, and time in proportion to the nodes that come before this one.
pub fn measure(forest: &Forest, tag: u32, against: u32) -> Option<Rect>
    requires { IsForestInLimits forest.now }
    ensures place { result ≡ measured forest.now tag against }
    ensures origin { IfSome result (λ place. IsPlaceWithin 5040000000 place.origin) }
{
    let found = find_place(forest, tag, against, begin_at_top(against))?;
    found.rectangle()
}
