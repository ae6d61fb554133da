//! What a node is and forms, by its kind and its props.

ghost use Rattle.std.specs.Prelude.{◌≡◌, IsTrue};
ghost use Rattle.prop_table.specs.Table.{AreNodeProps};
ghost use Rattle.shadow_frame.specs.Range.{IsAxisInRange};
ghost use Rattle.shadow_kinds.specs.Axes.{x_axis_of, y_axis_of, z_order_of};
ghost use Rattle.shadow_kinds.specs.Traits.{is_number, is_at_least, is_below, is_leaf_of, has_state_of, forms_context_of, forms_view_of, is_hidden_of, shows_itself_of};
ghost use Rattle.shadow_kinds.specs.SameProps.{is_same_props};

use crate::Kind;
use prop_table::{NodeProps, rows};
use shadow_frame::Axis;

/// Whether nodes of that kind have no children.
pub fn is_leaf(kind: Kind) -> bool
    ensures { result ≡ is_leaf_of kind }
{
    match kind {
        Kind::View | Kind::Scroll => false,
        Kind::Text | Kind::Image | Kind::Input => true,
    }
}

/// Whether nodes of that kind have native state.
pub fn has_state(kind: Kind) -> bool
    ensures { result ≡ has_state_of kind }
{
    match kind {
        Kind::View | Kind::Text | Kind::Image => false,
        Kind::Scroll | Kind::Input => true,
    }
}

/// Whether a row has exactly that number.
fn is_number(value: Option<i64>, n: i64) -> bool
    ensures { result ≡ is_number n value }
{
    match value {
        Some(value) => value == n,
        None => false,
    }
}

/// Whether a row has that number or a greater one.
fn is_at_least(value: Option<i64>, n: i64) -> bool
    ensures { result ≡ is_at_least n value }
{
    match value {
        Some(value) => n <= value,
        None => false,
    }
}

/// Whether a row has a smaller number.
fn is_below(value: Option<i64>, n: i64) -> bool
    ensures { result ≡ is_below n value }
{
    match value {
        Some(value) => value < n,
        None => false,
    }
}

/// Whether a node is the host parent of what lies below it. Of the kinds, a view alone depends on
/// its props.
pub fn forms_context(kind: Kind, props: &NodeProps) -> bool
    ensures { result ≡ forms_context_of kind props.now }
{
    match kind {
        Kind::View => {
            is_below(props.get(rows::OPACITY), 100)
                || props.get(rows::Z).is_some()
                || is_number(props.get(rows::CLIP), 1)
                || is_number(props.get(rows::COLLAPSABLE), 0)
                || is_number(props.get(rows::POINTER), 1)
                || is_number(props.get(rows::NATIVE_MARK), 1)
                || is_number(props.get(rows::ACCESSIBLE), 1)
                || is_at_least(props.get(rows::ELEVATION), 1)
        }
        Kind::Text | Kind::Image | Kind::Scroll | Kind::Input => true,
    }
}

/// Whether a node shows something of its own: a background or a shadow that is not clear, a border,
/// an outline, or a test mark.
pub fn shows_itself(props: &NodeProps) -> bool
    ensures { result ≡ shows_itself_of props.now }
{
    is_at_least(props.get(rows::BACKGROUND), 16_777_216)
        || is_at_least(props.get(rows::BORDER), 1)
        || is_number(props.get(rows::TEST_MARK), 1)
        || is_at_least(props.get(rows::SHADOW), 16_777_216)
        || is_at_least(props.get(rows::OUTLINE), 1)
}

/// Whether a node has a host view: it forms a context, or shows something of its own.
pub fn forms_view(kind: Kind, props: &NodeProps) -> bool
    ensures { result ≡ forms_view_of kind props.now }
{
    forms_context(kind, props) || shows_itself(props)
}

/// Whether a node hides itself and what lies below it.
pub fn is_hidden(props: &NodeProps) -> bool
    ensures { result ≡ is_hidden_of props.now }
{
    is_number(props.get(rows::HIDDEN), 1)
}

/// A node's order among its siblings: z, or 0 where it is absent.
pub fn z_of(props: &NodeProps) -> i64
    ensures { result ≡ z_order_of props.now }
{
    props.get(rows::Z).unwrap_or(0)
}

/// What a node says along each axis: left, right and width, and top, bottom and height.
pub fn axes_of(props: &NodeProps) -> (Axis, Axis)
    ensures value { result ≡ (x_axis_of props.now, y_axis_of props.now) }
    ensures x_in_range { AreNodeProps props.now → IsAxisInRange result.0 }
    ensures y_in_range { AreNodeProps props.now → IsAxisInRange result.1 }
{
    let x = Axis {
        start: props.get(rows::LEFT),
        end: props.get(rows::RIGHT),
        size: props.get(rows::WIDTH),
    };
    let y = Axis {
        start: props.get(rows::TOP),
        end: props.get(rows::BOTTOM),
        size: props.get(rows::HEIGHT),
    };
    (x, y)
}

/// Whether each row is the same in both.
pub fn have_same_rows(a: &NodeProps, b: &NodeProps) -> bool
    ensures { result ≡ is_same_props a.now b.now }
{
    a.is_same(b)
}
