//! Some of what is made from the number 0.

use crate::draws::Draws;
use crate::making::make_script;
use crate::script::{Act, Script};
use prop_table::rows::BACKGROUND;
use std::test::Fail;
use tree_build::ScriptNode;
use tree_revision::Op;

/// What the first actor's step of that number commits.
fn first_actor_op(script: &Script, step: usize) -> Option<&Op> {
    match &script.actors.get(0)?.steps.get(step)?.act {
        Act::Commit(op) => Some(&**op),
        _ => None,
    }
}

/// The tag of the first child of the first node that an op completes, where it keeps both.
fn first_kept_child(op: &Op) -> Option<u32> {
    let Op::Complete { nodes } = op else {
        return None;
    };
    let ScriptNode::Kept {
        children: Some(children),
        ..
    } = nodes.get(0)?
    else {
        return None;
    };
    match children.get(0)? {
        ScriptNode::Kept { tag, .. } => Some(*tag),
        ScriptNode::Written { .. } => None,
    }
}

/// The tag and the background that an op changes.
fn recolored(op: &Op) -> Option<(u32, Option<i64>)> {
    match op {
        Op::Props { tag, change } => Some((*tag, change.rows.get(BACKGROUND)?)),
        _ => None,
    }
}

#[test]
fn numbers_are_drawn(rt: HostRuntime) {
    let mut draws = Draws::start(0);
    for number in [
        48_271,
        182_605_794,
        1_291_394_886,
        1_914_720_637,
        2_078_669_041,
    ] {
        assert_eq!(rt; draws.below(2_147_483_647), number);
    }
}

#[test]
fn a_script_is_made(rt: HostRuntime) -> Result<(), Fail> {
    let script = make_script(rt.alloc(), 0)?;
    let turned = first_actor_op(&script, 1).ok_or("no step 1")?;
    assert_eq!(rt; first_kept_child(turned), Some(294));
    let colored = first_actor_op(&script, 2).ok_or("no step 2")?;
    assert_eq!(rt; recolored(colored), Some((137, Some(268_435_456))));
    Ok(())
}

#[test]
fn scripts_have_the_same_counts(rt: HostRuntime) -> Result<(), Fail> {
    for number in [7, 1_000_000] {
        let script = make_script(rt.alloc(), number)?;
        assert_eq!(rt; script.actors.len(), 5);
        assert_eq!(rt; script.turns.len(), 2000);
        for actor in script.actors.as_slice() {
            assert_eq!(rt; actor.steps.len(), 100);
        }
    }
    Ok(())
}
