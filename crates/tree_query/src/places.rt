//! Places that are moved, without a sum that leaves 64 bits.

ghost use Rattle.std.specs.Prelude.{◌≡◌, ◌+ℤ◌, ◌≤ℤ◌, ◌^◌, pos};
ghost use Rattle.view_flatten.specs.HostTree.{moved};
ghost use Rattle.tree_query.specs.Bounds.{IsPlaceNear};

use shadow_frame::Point;

/// The corner of the surface or of a node.
pub(crate) const CORNER: Point = Point { x: 0, y: 0 };

/// A coordinate moved by another.
fn coordinate_after(coordinate: i64, by: i64) -> i64
    requires low { pos 0 ≤ℤ (coordinate +ℤ pos (2 ^ 60)) }
    requires high { coordinate ≤ℤ pos (2 ^ 60) }
    requires by_low { pos 0 ≤ℤ (by +ℤ pos (2 ^ 60)) }
    requires by_high { by ≤ℤ pos (2 ^ 60) }
    ensures { result ≡ coordinate +ℤ by }
{
    coordinate + by
}

/// A place moved by another. Neither is more than 2^60 points away from 0, along either axis.
pub(crate) fn moved_by(place: Point, by: Point) -> Point
    requires place { IsPlaceNear place }
    requires by { IsPlaceNear by }
    ensures { result ≡ moved place by }
{
    Point {
        x: coordinate_after(place.x, by.x),
        y: coordinate_after(place.y, by.y),
    }
}
