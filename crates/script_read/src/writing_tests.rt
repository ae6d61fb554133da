//! Texts that are written of scripts that were read.

use crate::making::make_script;
use crate::read::read_script;
use crate::writing::{script_value, write_script};
use std::test::Fail;

/// Each kind of step, each form of node, and rows that differ from their start, are empty or are at
/// their start; the members of each object are in the order of their names.
const WHOLE: &str =
    r#"{"actors":[{"name":"js","steps":[{"do":"complete","on":1,"tree":[{"children":[{"kind":"text","tag":3}],"kind":"scroll","props":{"label":"Inbox","left":-5,"opacity":50},"tag":2},{"keep":4},{"children":[],"keep":5,"props":{}},{"keep":6,"props":{"label":"","opacity":100,"z":null}}]},{"do":"state","on":1,"set":[0,40],"tag":2},{"add":[-1,2],"do":"state","on":1,"tag":2},{"do":"state","on":1,"set_if":[3,4,5],"tag":2},{"do":"props","on":1,"props":{"left":null},"tag":2},{"do":"size","height":7,"on":1,"width":8},{"do":"stop","on":1},{"do":"suspend","on":1},{"do":"resume","on":1},{"do":"hold","on":1},{"do":"mount","on":1}]}],"surfaces":[{"height":100,"id":1,"width":100}],"turns":[0,0],"version":2}"#;

#[test]
fn a_script_is_written_as_it_was_read(rt: HostRuntime) -> Result<(), Fail> {
    let script = read_script(rt.alloc(), WHOLE.as_bytes())?;
    let text = script_value(rt.alloc(), &script)?.to_vec(rt.alloc())?;
    assert_eq!(rt; text.as_slice(), WHOLE.as_bytes());
    Ok(())
}

#[test]
fn a_made_script_reads_back(rt: HostRuntime) -> Result<(), Fail> {
    let script = make_script(rt.alloc(), 0)?;
    let text = write_script(rt.alloc(), &script)?;
    let again = read_script(rt.alloc(), text.as_slice())?;
    assert_eq!(rt; again.actors.len(), 5);
    assert_eq!(rt; again.turns.as_slice(), script.turns.as_slice());
    Ok(())
}
