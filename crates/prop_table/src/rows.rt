//! The rows of the node's table, by their numbers. Those below `HIDDEN` are version 1's too.

/// The distance from the parent's left side, in whole points.
pub const LEFT: usize = 0;

/// The distance from the parent's top, in whole points.
pub const TOP: usize = 1;

/// The distance to the parent's right side, in whole points.
pub const RIGHT: usize = 2;

/// The distance to the parent's bottom, in whole points.
pub const BOTTOM: usize = 3;

/// The width in whole points.
pub const WIDTH: usize = 4;

/// The height in whole points.
pub const HEIGHT: usize = 5;

/// The background's color: alpha in the highest byte, then red, green and blue.
pub const BACKGROUND: usize = 6;

/// The border's color, as the background's.
pub const BORDER_COLOR: usize = 7;

/// The opacity in percent.
pub const OPACITY: usize = 8;

/// The order among siblings, from -1000 to 1000.
pub const Z: usize = 9;

/// 1 where what lies outside is cut off.
pub const CLIP: usize = 10;

/// 0 where the node must have a host view of its own.
pub const COLLAPSABLE: usize = 11;

/// Who takes a touch: 0 the node and what lies below it, 1 none, 2 what lies below it alone, 3 the
/// node alone.
pub const POINTER: usize = 12;

/// The border's width in whole points.
pub const BORDER: usize = 13;

/// 1 where a test looks for the node.
pub const TEST_MARK: usize = 14;

/// 1 where native code looks for the node.
pub const NATIVE_MARK: usize = 15;

/// 1 where the node and what lies below it are not shown.
pub const HIDDEN: usize = 16;

/// 1 where a screen reader stops at the node.
pub const ACCESSIBLE: usize = 17;

/// How far the node stands above what lies behind it, from 0 to 24.
pub const ELEVATION: usize = 18;

/// The shadow's color, as the background's.
pub const SHADOW: usize = 19;

/// The outline's width in whole points.
pub const OUTLINE: usize = 20;

/// The outline's color, as the background's.
pub const OUTLINE_COLOR: usize = 21;
