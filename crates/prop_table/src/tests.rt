//! The tables at their edges.

ghost use Rattle.std.specs.Prelude.{◌≤◌};

use crate::{
    Label, LabelRefusal, NODE_TABLE, OutOfRange, PropEdit, PropTable, V1, changed, rows, widen,
    widen_edit,
};
use std::process::Abort;
use std::test::Fail;

/// Sets every row at its low, its high, one beyond each, and absent.
fn each_row<const N: usize>(rt: &impl Abort, table: &PropTable<N>)
    requires { N ≤ 32 }
{
    let start = table.start();
    for row in 0..N {
        let rule = &table.rows[row];
        assert_eq!(rt;
            table.find(rule.name.as_bytes()),
            Some(row),
            "{}",
            rule.name
        );
        for (value, takes) in [
            (Some(rule.low), true),
            (Some(rule.high), true),
            (Some(rule.low.saturating_sub(1)), false),
            (Some(rule.high.saturating_add(1)), false),
            (None, rule.start.is_none()),
        ] {
            match table.set(&start, row, value) {
                Ok(props) => {
                    assert_eq!(rt; props.get(row), value, "{}", rule.name);
                    assert!(rt; takes, "{}", rule.name);
                    let bits = if value == rule.start { 0 } else { 1 << row };
                    assert_eq!(rt; changed(&start, &props), bits, "{}", rule.name);
                }
                Err(OutOfRange) => assert!(rt; !takes, "{}", rule.name),
            }
        }
    }
}

#[test]
fn tables_at_their_edges(rt: HostRuntime) {
    each_row(&rt, &V1);
    each_row(&rt, &NODE_TABLE);
    assert_eq!(rt; NODE_TABLE.find(b"opacit"), None);
}

#[test]
fn edits_are_merged(rt: HostRuntime) {
    let start = V1.start();
    let edit = PropEdit::empty();
    let edit = match V1.edit(&edit, rows::LEFT, Some(7)) {
        Ok(edit) => edit,
        Err(OutOfRange) => edit,
    };
    let edit = match V1.edit(&edit, rows::TOP, None) {
        Ok(edit) => edit,
        Err(OutOfRange) => edit,
    };
    assert_eq!(rt; edit.get(rows::LEFT), Some(Some(7)));
    assert_eq!(rt; edit.get(rows::TOP), Some(None));
    assert_eq!(rt; edit.get(rows::OPACITY), None);
    assert!(rt; V1.edit(&edit, rows::OPACITY, None).is_err());
    let Ok(placed) = V1.set(&start, rows::TOP, Some(9)) else {
        return;
    };
    let merged = V1.merge(&placed, &edit);
    assert_eq!(rt; merged.get(rows::LEFT), Some(7));
    assert_eq!(rt; merged.get(rows::TOP), None);
    assert_eq!(rt; merged.get(rows::OPACITY), Some(100));
    let wide = NODE_TABLE.merge(&widen(&placed), &widen_edit(&edit));
    assert!(rt; wide.is_same(&widen(&merged)));
    assert_eq!(rt; wide.get(rows::HIDDEN), Some(0));
}

#[test]
fn rows_are_written(rt: HostRuntime) {
    let mut props = NODE_TABLE.start();
    for (name, value, text) in [
        ("left", -10, " left=-10"),
        ("outline_color", 4_294_967_295, " outline_color=4294967295"),
        ("opacity", 99, " opacity=99"),
        ("opacity", 100, ""),
        ("z", 0, " z=0"),
    ] {
        let Some(row) = NODE_TABLE.find(name.as_bytes()) else {
            continue;
        };
        if let Ok(after) = NODE_TABLE.set(&props, row, Some(value)) {
            props = after;
        }
        let mut buf = [0; 40];
        let length = NODE_TABLE.pair_text(&props, row, &mut buf);
        assert_eq!(rt; &buf[..length], text.as_bytes(), "{name}");
    }
}

#[test]
fn labels_have_256_bytes(rt: HostRuntime) -> Result<(), Fail> {
    let alloc = rt.alloc();
    let text = "a".repeat(alloc, 256)?;
    let Ok(label) = Label::make(alloc, &text) else {
        assert!(rt; false, "256 bytes fit");
        return Ok(());
    };
    assert_eq!(rt; label.share()?.bytes(), text.as_bytes());
    let longer = "a".repeat(alloc, 257)?;
    match Label::make(alloc, &longer) {
        Err(refusal) => assert_eq!(rt; refusal, LabelRefusal::TooLong),
        Ok(_) => assert!(rt; false, "257 bytes do not fit"),
    }
    assert!(rt; Label::none().bytes().is_empty());
    Ok(())
}
