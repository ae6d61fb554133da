//! The trees of the app.

ghost use Rattle.std.specs.Prelude.{IfSome};
ghost use Rattle.tree_revision.specs.InRange.{IsOpInRange};
ghost use Rattle.tree_revision.specs.Records.{plain_op};

use shadow_kinds::Kind;
use std::alloc::Global;
use tree_revision::Op;
use tree_write::{Kept, Tree, Written};

/// The tag of the list.
pub const LIST: u32 = 1;
/// The tag of the first row; the others follow it.
const FIRST_ROW: u32 = 100;
/// How high a row is, in points.
const ROW_HEIGHT: i64 = 20;

/// The list with its first rows: all but the last are kept as they stand, and that one is new.
/// `None` stands for want of memory or a value out of range.
pub fn list_with(alloc: Global, rows: u32) -> Option<Op>
    ensures { IfSome result (λ op. IsOpInRange (plain_op op)) }
{
    let mut list = Written::start(alloc, LIST, Kind::Scroll).ok()?;
    list = list.prop("width", 200).ok()?.prop("height", 100).ok()?;
    for row in 1..rows {
        let kept = Kept::start(FIRST_ROW.checked_add(row)?).ok()?;
        list = list.kept(kept).ok()?;
    }
    if rows > 0 {
        list = list.child(new_row(alloc, rows)?).ok()?;
    }
    let mut tree = Tree::start(alloc);
    tree.write(list).ok()?;
    Some(tree.into_op())
}

/// The row of that number, from 1.
fn new_row(alloc: Global, row: u32) -> Option<Written> {
    let tag = FIRST_ROW.checked_add(row)?;
    let top = ROW_HEIGHT.checked_mul(i64::from(row.checked_sub(1)?))?;
    let text = format!(in alloc; "row {row}").ok()?;
    Written::start(alloc, tag, Kind::Text)
        .ok()?
        .prop("top", top)
        .ok()?
        .prop("width", 200)
        .ok()?
        .prop("height", ROW_HEIGHT)
        .ok()?
        .label(alloc, text.as_str())
        .ok()
}
