//! Whole-point geometry: points, sizes, rectangles, and how a node is placed in its parent.
#![tactic(auto)]

mod places;
#[cfg(test)]
mod tests;

pub use places::{place, place_axis};

/// A place in whole points.
#[derive(Clone, Copy, Debug, PartialEq, Eq)]
pub struct Point {
    pub x: i64,
    pub y: i64,
}

/// A width and a height in whole points.
#[derive(Clone, Copy, Debug, PartialEq, Eq)]
pub struct Size {
    pub width: i64,
    pub height: i64,
}

/// A rectangle: where it begins in its parent, and how large it is.
#[derive(Clone, Copy, Debug, PartialEq, Eq)]
pub struct Rect {
    pub origin: Point,
    pub size: Size,
}

/// What a node says of itself along one axis, in whole points.
#[derive(Clone, Copy, Debug, PartialEq, Eq)]
pub struct Axis {
    /// The distance from the parent's start to the node's start.
    pub start: Option<i64>,
    /// The distance from the node's end to the parent's end.
    pub end: Option<i64>,
    /// The node's size, which goes before what start and end leave.
    pub size: Option<i64>,
}
