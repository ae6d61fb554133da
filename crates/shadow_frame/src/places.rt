//! How a node is placed in its parent, each axis by itself.

ghost use Rattle.std.specs.Prelude.{◌≡◌, pos, negsuc, ◌+ℤ◌, ◌-ℤ◌, ◌≤ℤ◌};
ghost use Rattle.std.specs.Int.{int_max};
ghost use Rattle.shadow_frame.specs.Place.{axis_start, axis_size, placed};
ghost use Rattle.shadow_frame.specs.Range.{IsAxisInRange, IsSideInRange, IsParentInRange};

use crate::{Axis, Point, Rect, Size};

/// What is left of a parent's side between two distances from its ends, and at least 0.
fn side_between(start: i64, end: i64, parent: i64) -> i64
    requires start_low { negsuc 999999 ≤ℤ start }
    requires start_high { start ≤ℤ pos 1000000 }
    requires end_low { negsuc 999999 ≤ℤ end }
    requires end_high { end ≤ℤ pos 1000000 }
    requires parent_in_range { IsSideInRange parent }
    ensures value { result ≡ int_max (pos 0) (parent -ℤ start -ℤ end) }
    ensures low { pos 0 ≤ℤ result }
    ensures high { result ≤ℤ (parent +ℤ pos 2000000) }
{
    let between = parent - start - end;
    if between < 0 { 0 } else { between }
}

/// Where a node of that size begins that lies so far before its parent's end.
fn start_from_end(end: i64, size: i64, parent: i64) -> i64
    requires end_low { negsuc 999999 ≤ℤ end }
    requires end_high { end ≤ℤ pos 1000000 }
    requires size_low { pos 0 ≤ℤ size }
    requires size_high { size ≤ℤ pos 1000000 }
    requires parent_in_range { IsSideInRange parent }
    ensures value { result ≡ parent -ℤ end -ℤ size }
    ensures low { negsuc 1999999 ≤ℤ result }
    ensures high { result ≤ℤ (parent +ℤ pos 1000000) }
{
    parent - end - size
}

/// A node's size along an axis.
fn size_along(axis: Axis, parent: i64) -> i64
    requires axis_in_range { IsAxisInRange axis }
    requires parent_in_range { IsSideInRange parent }
    ensures value { result ≡ axis_size axis parent }
    ensures low { pos 0 ≤ℤ result }
    ensures high { result ≤ℤ (parent +ℤ pos 2000000) }
{
    match (axis.size, axis.start, axis.end) {
        (Some(size), _, _) => size,
        (None, Some(start), Some(end)) => side_between(start, end, parent),
        _ => 0,
    }
}

/// Where a node begins along an axis of its parent, and its size, in whole points.
/// Start and end are from -1,000,000 to 1,000,000 and the size from 0 to 1,000,000 where they are
/// given, and the parent's side is from 0 to 100,000,000.
pub fn place_axis(axis: Axis, parent: i64) -> (i64, i64)
    requires axis_in_range { IsAxisInRange axis }
    requires parent_in_range { IsSideInRange parent }
    ensures value { result ≡ (axis_start axis parent, axis_size axis parent) }
    ensures start_low { negsuc 1999999 ≤ℤ result.0 }
    ensures start_high { result.0 ≤ℤ (parent +ℤ pos 1000000) }
    ensures size_low { pos 0 ≤ℤ result.1 }
    ensures size_high { result.1 ≤ℤ (parent +ℤ pos 2000000) }
{
    let size = size_along(axis, parent);
    let start = match (axis.start, axis.end) {
        (Some(start), _) => start,
        (None, Some(end)) => start_from_end(end, size, parent),
        (None, None) => 0,
    };
    (start, size)
}

/// The frame of a node in a parent of that size, in whole points, under the conditions of
/// [`place_axis`] on each axis.
pub fn place(x: Axis, y: Axis, parent: Size) -> Rect
    requires x_in_range { IsAxisInRange x }
    requires y_in_range { IsAxisInRange y }
    requires parent_in_range { IsParentInRange parent }
    ensures value { result ≡ placed x y parent }
    ensures x_low { negsuc 1999999 ≤ℤ result.origin.x }
    ensures x_high { result.origin.x ≤ℤ (parent.width +ℤ pos 1000000) }
    ensures y_low { negsuc 1999999 ≤ℤ result.origin.y }
    ensures y_high { result.origin.y ≤ℤ (parent.height +ℤ pos 1000000) }
    ensures width_low { pos 0 ≤ℤ result.size.width }
    ensures width_high { result.size.width ≤ℤ (parent.width +ℤ pos 2000000) }
    ensures height_low { pos 0 ≤ℤ result.size.height }
    ensures height_high { result.size.height ≤ℤ (parent.height +ℤ pos 2000000) }
{
    let (left, width) = place_axis(x, parent.width);
    let (top, height) = place_axis(y, parent.height);
    Rect {
        origin: Point { x: left, y: top },
        size: Size { width, height },
    }
}
