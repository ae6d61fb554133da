//! What is read of scripts, and the faults of others.

use crate::read_script;
use crate::script::{Act, ScriptFault, ScriptRefusal};
use std::alloc::{AllocError, Global};
use std::process::Abort;
use std::test::Fail;
use tree_build::ScriptNode;
use tree_revision::Op;

/// A fault's number and its place, which is empty where the fault has none.
fn parts_of(fault: &ScriptFault) -> (u8, &[u8]) {
    match fault {
        ScriptFault::TooLong => (1, b""),
        ScriptFault::NotJson => (2, b""),
        ScriptFault::Shape(place) => (3, place.text.as_slice()),
        ScriptFault::Version => (4, b""),
        ScriptFault::TooMany(place) => (5, place.text.as_slice()),
        ScriptFault::BadName(place) => (6, place.text.as_slice()),
        ScriptFault::BadSurface(place) => (7, place.text.as_slice()),
        ScriptFault::BadKind(place) => (8, place.text.as_slice()),
        ScriptFault::BadProp(place) => (9, place.text.as_slice()),
        ScriptFault::BadTag(place) => (10, place.text.as_slice()),
        ScriptFault::TwoMounters(_) => (11, b""),
        ScriptFault::BadTurn(_) => (12, b""),
    }
}

/// Whether a text has the fault of that number at that place; 0 is no fault.
fn has_fault(alloc: Global, text: &str, number: u8, place: &str) -> bool {
    match read_script(alloc, text.as_bytes()) {
        Ok(_) => number == 0,
        Err(ScriptRefusal::Fault(fault)) => parts_of(&fault) == (number, place.as_bytes()),
        Err(ScriptRefusal::Memory) => false,
    }
}

/// The surface that most scripts here have.
const SURFACES: &str = r#"[{"id":1,"width":100,"height":100}]"#;

/// A script of that version, with one actor of those steps.
fn with_steps(alloc: Global, version: u32, steps: &str) -> Result<String, AllocError> {
    format!(in alloc;
        "{{\"version\":{version},\"surfaces\":{SURFACES},\"actors\":[{{\"name\":\"js\",\"steps\":[{steps}]}}],\"turns\":[]}}"
    )
}

/// Texts that have the fault of that number at that place, before the next fault that they have.
const TEXTS: [(u8, &str, &str); 36] = [
    (
        0,
        "",
        r#"{"version":1,"surfaces":[],"actors":[],"turns":[]}"#,
    ),
    (2, "", ""),
    (
        2,
        "",
        r#"{"version":1,"surfaces":[],"actors":[],"turns":[]"#,
    ),
    (3, "/", "[]"),
    (3, "/", r#"{"version":1,"surfaces":[],"actors":[]}"#),
    (
        3,
        "/",
        r#"{"version":"1","surfaces":[],"actors":[],"turns":[],"stops":[]}"#,
    ),
    (
        3,
        "/version",
        r#"{"version":1.5,"surfaces":7,"actors":[],"turns":[]}"#,
    ),
    (
        3,
        "/surfaces",
        r#"{"version":1,"surfaces":7,"actors":7,"turns":[]}"#,
    ),
    (
        3,
        "/surfaces/1",
        r#"{"version":1,"surfaces":[{"id":1,"width":1,"height":1},1],"actors":7,"turns":[]}"#,
    ),
    (
        3,
        "/surfaces/0",
        r#"{"version":1,"surfaces":[{"id":"1","width":1}],"actors":[],"turns":[]}"#,
    ),
    (
        3,
        "/surfaces/0/id",
        r#"{"version":1,"surfaces":[{"id":"1","width":1.5,"height":1}],"actors":[],"turns":[]}"#,
    ),
    (
        3,
        "/surfaces/0/width",
        r#"{"version":1,"surfaces":[{"id":1,"width":null,"height":[]}],"actors":[],"turns":[]}"#,
    ),
    (
        3,
        "/surfaces/0/height",
        r#"{"version":1,"surfaces":[{"id":1,"width":1,"height":9223372036854775808}],"actors":[],"turns":[]}"#,
    ),
    (
        3,
        "/actors",
        r#"{"version":1,"surfaces":[],"actors":{},"turns":{}}"#,
    ),
    (
        3,
        "/actors/0",
        r#"{"version":1,"surfaces":[],"actors":[{"name":"js"}],"turns":[]}"#,
    ),
    (
        3,
        "/actors/0/name",
        r#"{"version":1,"surfaces":[],"actors":[{"name":1,"steps":1}],"turns":[]}"#,
    ),
    (
        3,
        "/actors/0/steps",
        r#"{"version":1,"surfaces":[],"actors":[{"name":"js","steps":{}}],"turns":[]}"#,
    ),
    (
        3,
        "/turns",
        r#"{"version":3,"surfaces":[],"actors":[],"turns":{}}"#,
    ),
    (
        3,
        "/turns/1",
        r#"{"version":3,"surfaces":[],"actors":[],"turns":[0,"0"]}"#,
    ),
    (
        10,
        "/actors/0/steps/0/tag",
        r#"{"version":1,"surfaces":[{"id":3,"width":1,"height":1}],"actors":[{"name":"a","steps":[{"do":"state","on":3,"tag":0,"set":[0,0]},{"do":"mount","on":3}]},{"name":"b","steps":[{"do":"mount","on":3}]}],"turns":[]}"#,
    ),
    (
        4,
        "",
        r#"{"version":3,"surfaces":[],"actors":[{"name":"","steps":[]}],"turns":[]}"#,
    ),
    (
        4,
        "",
        r#"{"version":4294967298,"surfaces":[],"actors":[],"turns":[]}"#,
    ),
    (
        6,
        "/actors/0/name",
        r#"{"version":1,"surfaces":[{"id":0,"width":1,"height":1}],"actors":[{"name":"","steps":[]}],"turns":[]}"#,
    ),
    (
        6,
        "/actors/0/name",
        r#"{"version":1,"surfaces":[],"actors":[{"name":"abcdefghijklmnopqrstuvwxyz_-01234","steps":[]}],"turns":[]}"#,
    ),
    (
        6,
        "/actors/1/name",
        r#"{"version":1,"surfaces":[],"actors":[{"name":"abcdefghijklmnopqrstuvwxyz_-0123","steps":[]},{"name":"Js","steps":[]}],"turns":[]}"#,
    ),
    (
        6,
        "/actors/2/name",
        r#"{"version":1,"surfaces":[],"actors":[{"name":"js","steps":[]},{"name":"ui","steps":[]},{"name":"js","steps":[]}],"turns":[]}"#,
    ),
    (
        7,
        "/surfaces/0/id",
        r#"{"version":1,"surfaces":[{"id":0,"width":-1,"height":1}],"actors":[],"turns":[]}"#,
    ),
    (
        7,
        "/surfaces/0/id",
        r#"{"version":1,"surfaces":[{"id":1000001,"width":1,"height":1}],"actors":[],"turns":[]}"#,
    ),
    (
        7,
        "/surfaces/1/id",
        r#"{"version":1,"surfaces":[{"id":4,"width":0,"height":1000000},{"id":4,"width":1,"height":1}],"actors":[],"turns":[]}"#,
    ),
    (
        7,
        "/surfaces/0/width",
        r#"{"version":1,"surfaces":[{"id":1,"width":-1,"height":-1}],"actors":[],"turns":[]}"#,
    ),
    (
        7,
        "/surfaces/0/height",
        r#"{"version":1,"surfaces":[{"id":1,"width":1,"height":1000001}],"actors":[],"turns":[]}"#,
    ),
    (
        11,
        "",
        r#"{"version":1,"surfaces":[{"id":3,"width":1,"height":1}],"actors":[{"name":"a","steps":[{"do":"mount","on":3}]},{"name":"b","steps":[{"do":"mount","on":3}]}],"turns":[2]}"#,
    ),
    (
        0,
        "",
        r#"{"version":1,"surfaces":[{"id":3,"width":1,"height":1}],"actors":[{"name":"a","steps":[{"do":"mount","on":3},{"do":"mount","on":3}]},{"name":"b","steps":[]}],"turns":[1]}"#,
    ),
    (
        12,
        "",
        r#"{"version":1,"surfaces":[],"actors":[{"name":"a","steps":[]}],"turns":[0,1]}"#,
    ),
    (
        12,
        "",
        r#"{"version":1,"surfaces":[],"actors":[{"name":"a","steps":[]}],"turns":[-1]}"#,
    ),
    (
        12,
        "",
        r#"{"version":2,"surfaces":[],"actors":[],"turns":[0]}"#,
    ),
];

#[test]
fn texts_have_faults(rt: HostRuntime) {
    for (number, place, text) in TEXTS {
        assert!(rt; has_fault(rt.alloc(), text, number, place), "{text}");
    }
    match read_script(rt.alloc(), b"\"\xFF\"") {
        Err(ScriptRefusal::Fault(fault)) => assert_eq!(rt; parts_of(&fault).0, 2),
        _ => assert!(rt; false, "no UTF-8"),
    }
}

/// Steps of version 1, the first or only one of which is misshapen at that place.
const MISSHAPEN: [(&str, &str); 38] = [
    ("", "1"),
    ("", r#"{"on":1}"#),
    ("", r#"{"do":"hold"}"#),
    ("", r#"{"do":"paint"}"#),
    ("/do", r#"{"do":"paint","on":"1","more":1}"#),
    ("/do", r#"{"do":7,"on":1}"#),
    ("/do", r#"{"do":"suspend","on":1}"#),
    ("/do", r#"{"do":"resume","on":1}"#),
    ("/on", r#"{"do":"hold","on":"1"}"#),
    ("", r#"{"do":"hold","on":"1","tag":1}"#),
    ("", r#"{"do":"complete","on":1}"#),
    ("/tree", r#"{"do":"complete","on":1,"tree":{}}"#),
    ("/tree/0", r#"{"do":"complete","on":1,"tree":[7]}"#),
    ("/tree/0", r#"{"do":"complete","on":1,"tree":[{}]}"#),
    ("/tree/0", r#"{"do":"complete","on":1,"tree":[{"tag":2}]}"#),
    (
        "/tree/0",
        r#"{"do":"complete","on":1,"tree":[{"tag":2,"kind":"view","keep":2}]}"#,
    ),
    (
        "/tree/0",
        r#"{"do":"complete","on":1,"tree":[{"keep":2,"kind":"view"}]}"#,
    ),
    (
        "/tree/1/tag",
        r#"{"do":"complete","on":1,"tree":[{"keep":2},{"tag":"2","kind":1}]}"#,
    ),
    (
        "/tree/0/keep",
        r#"{"do":"complete","on":1,"tree":[{"keep":null,"props":1}]}"#,
    ),
    (
        "/tree/0/kind",
        r#"{"do":"complete","on":1,"tree":[{"tag":2,"kind":1,"props":1}]}"#,
    ),
    (
        "/tree/0/props",
        r#"{"do":"complete","on":1,"tree":[{"tag":2,"kind":"view","props":[],"children":1}]}"#,
    ),
    (
        "/tree/0/children",
        r#"{"do":"complete","on":1,"tree":[{"keep":2,"children":{}}]}"#,
    ),
    (
        "/tree/0/children/1",
        r#"{"do":"complete","on":1,"tree":[{"keep":2,"children":[{"keep":3,"children":[]},{}]},1]}"#,
    ),
    ("", r#"{"do":"state","on":1,"tag":2}"#),
    (
        "",
        r#"{"do":"state","on":1,"tag":2,"set":[1,2],"add":[1,2]}"#,
    ),
    ("/tag", r#"{"do":"state","on":1,"tag":"2","set":[1]}"#),
    ("/set", r#"{"do":"state","on":1,"tag":2,"set":7}"#),
    ("/set", r#"{"do":"state","on":1,"tag":2,"set":[1]}"#),
    ("/set/1", r#"{"do":"state","on":1,"tag":2,"set":[1,"2"]}"#),
    ("/add", r#"{"do":"state","on":1,"tag":2,"add":[1,2,3]}"#),
    ("/add/0", r#"{"do":"state","on":1,"tag":2,"add":[1.5,2.5]}"#),
    ("/set_if", r#"{"do":"state","on":1,"tag":2,"set_if":[1,2]}"#),
    (
        "/set_if/0",
        r#"{"do":"state","on":1,"tag":2,"set_if":[-1,2,"3"]}"#,
    ),
    (
        "/set_if/2",
        r#"{"do":"state","on":1,"tag":2,"set_if":[0,2,"3"]}"#,
    ),
    ("/props", r#"{"do":"props","on":1,"tag":2,"props":7}"#),
    ("", r#"{"do":"size","on":1,"width":1}"#),
    ("/width", r#"{"do":"size","on":1,"width":"1","height":"1"}"#),
    ("/height", r#"{"do":"size","on":1,"width":1,"height":"1"}"#),
];

#[test]
fn steps_are_misshapen(rt: HostRuntime) -> Result<(), Fail> {
    let alloc = rt.alloc();
    for (place, step) in MISSHAPEN {
        let text = with_steps(alloc, 1, step)?;
        let whole = format!(in alloc; "/actors/0/steps/0{place}")?;
        assert!(rt; has_fault(alloc, &text, 3, &whole), "{step}");
    }
    Ok(())
}

/// Steps that are of the right form and have the fault of that number at that place, before others.
const FAULTY: [(u8, u32, &str, &str); 26] = [
    (
        0,
        2,
        "",
        r#"{"do":"suspend","on":1},{"do":"resume","on":1},{"do":"stop","on":1},{"do":"hold","on":1}"#,
    ),
    (
        7,
        1,
        "/on",
        r#"{"do":"complete","on":2,"tree":[{"tag":0,"kind":"box"}]}"#,
    ),
    (
        7,
        1,
        "/width",
        r#"{"do":"size","on":1,"width":-1,"height":-1}"#,
    ),
    (
        7,
        1,
        "/height",
        r#"{"do":"size","on":1,"width":1,"height":1000001}"#,
    ),
    (
        8,
        1,
        "/tree/0/kind",
        r#"{"do":"complete","on":1,"tree":[{"tag":2,"kind":"box","props":{"nope":1}}]}"#,
    ),
    (
        8,
        1,
        "/tree/0/children/0/kind",
        r#"{"do":"complete","on":1,"tree":[{"tag":2,"kind":"view","children":[{"tag":3,"kind":"View"}]},{"tag":2,"kind":"box"}]}"#,
    ),
    (
        9,
        1,
        "/tree/0/props",
        r#"{"do":"complete","on":1,"tree":[{"tag":0,"kind":"view","props":{"nope":1,"left":"1"}}]}"#,
    ),
    (
        9,
        1,
        "/tree/0/props/left",
        r#"{"do":"complete","on":1,"tree":[{"keep":2,"props":{"left":"1","opacity":101,"label":7}}]}"#,
    ),
    (
        9,
        1,
        "/props/left",
        r#"{"do":"props","on":1,"tag":0,"props":{"left":1000001}}"#,
    ),
    (
        9,
        1,
        "/props/left",
        r#"{"do":"props","on":1,"tag":2,"props":{"left":-1000001}}"#,
    ),
    (
        9,
        1,
        "/props/top",
        r#"{"do":"props","on":1,"tag":2,"props":{"left":null,"top":1.5}}"#,
    ),
    (
        9,
        1,
        "/props/opacity",
        r#"{"do":"props","on":1,"tag":2,"props":{"label":7,"opacity":null}}"#,
    ),
    (
        9,
        1,
        "/props/label",
        r#"{"do":"props","on":1,"tag":2,"props":{"label":7,"z":null,"collapsable":0}}"#,
    ),
    (
        9,
        1,
        "/props",
        r#"{"do":"props","on":1,"tag":2,"props":{"hidden":1}}"#,
    ),
    (
        0,
        2,
        "",
        r#"{"do":"props","on":1,"tag":2,"props":{"hidden":1,"elevation":24,"outline_color":4294967295}}"#,
    ),
    (
        9,
        2,
        "/props/elevation",
        r#"{"do":"props","on":1,"tag":2,"props":{"elevation":25}}"#,
    ),
    (
        10,
        1,
        "/tree/0/tag",
        r#"{"do":"complete","on":1,"tree":[{"tag":0,"kind":"view"}]}"#,
    ),
    (
        10,
        1,
        "/tree/0/children/1/keep",
        r#"{"do":"complete","on":1,"tree":[{"keep":2147483647,"children":[{"keep":1},{"keep":2147483648}]}]}"#,
    ),
    (
        10,
        1,
        "/tag",
        r#"{"do":"state","on":1,"tag":-1,"add":[0,0]}"#,
    ),
    (10, 1, "/tag", r#"{"do":"props","on":1,"tag":0,"props":{}}"#),
    (
        0,
        1,
        "",
        r#"{"do":"size","on":1,"width":0,"height":1000000}"#,
    ),
    (
        0,
        1,
        "",
        r#"{"do":"state","on":1,"tag":1,"set":[-9223372036854775808,9223372036854775807]}"#,
    ),
    (
        0,
        1,
        "",
        r#"{"do":"state","on":1,"tag":1,"set_if":[0,1,2]}"#,
    ),
    (
        0,
        1,
        "",
        r#"{"do":"props","on":1,"tag":1,"props":{"left":null,"label":"Read","opacity":0}}"#,
    ),
    (0, 1, "", r#"{"do":"complete","on":1,"tree":[]}"#),
    (
        0,
        1,
        "",
        r#"{"do":"complete","on":1,"tree":[{"keep":1,"props":{},"children":[]},{"tag":2,"kind":"input","props":{"label":""}}]}"#,
    ),
];

#[test]
fn steps_have_faults(rt: HostRuntime) -> Result<(), Fail> {
    let alloc = rt.alloc();
    for (number, version, place, steps) in FAULTY {
        let text = with_steps(alloc, version, steps)?;
        let whole = if number == 0 {
            String::new(alloc)
        } else {
            format!(in alloc; "/actors/0/steps/0{place}")?
        };
        assert!(rt; has_fault(alloc, &text, number, &whole), "{steps}");
    }
    Ok(())
}

/// The part as often as told, with commas between.
fn repeated(alloc: Global, part: &str, count: usize) -> Result<String, AllocError> {
    let mut text = String::new(alloc);
    for index in 0..count {
        if index > 0 {
            text.push_str(",")?;
        }
        text.push_str(part)?;
    }
    Ok(text)
}

#[test]
fn labels_are_short(rt: HostRuntime) -> Result<(), Fail> {
    let alloc = rt.alloc();
    for (length, number, place) in [(256, 0, ""), (257, 9, "/actors/0/steps/0/props/label")] {
        let label = "a".repeat(alloc, length)?;
        let step = format!(in alloc;
            "{{\"do\":\"props\",\"on\":1,\"tag\":2,\"props\":{{\"label\":\"{label}\"}}}}"
        )?;
        let text = with_steps(alloc, 1, &step)?;
        assert!(rt; has_fault(alloc, &text, number, place), "{length} bytes");
    }
    Ok(())
}

#[test]
fn counts_have_limits(rt: HostRuntime) -> Result<(), Fail> {
    let alloc = rt.alloc();
    let surface = r#"{"id":0,"width":1,"height":1}"#;
    let surfaces = repeated(alloc, surface, 9)?;
    let actors = repeated(alloc, r#"{"name":"","steps":[]}"#, 17)?;
    let text = format!(in alloc;
        "{{\"version\":1,\"surfaces\":[{surfaces}],\"actors\":[{actors}],\"turns\":[]}}"
    )?;
    assert!(rt; has_fault(alloc, &text, 5, "/surfaces"), "nine surfaces");
    let text = format!(in alloc;
        "{{\"version\":3,\"surfaces\":[{surfaces}],\"actors\":[],\"turns\":[]}}"
    )?;
    assert!(rt; has_fault(alloc, &text, 4, ""), "another version");
    let text = format!(in alloc;
        "{{\"version\":1,\"surfaces\":[],\"actors\":[{actors}],\"turns\":[]}}"
    )?;
    assert!(rt; has_fault(alloc, &text, 5, "/actors"), "seventeen actors");
    let hold = r#"{"do":"hold","on":1}"#;
    for (count, number, place) in [(1048, 0, ""), (1049, 5, "/actors/1/steps")] {
        let first = repeated(alloc, hold, 1000)?;
        let second = repeated(alloc, hold, count)?;
        let text = format!(in alloc;
            "{{\"version\":1,\"surfaces\":{SURFACES},\"actors\":[{{\"name\":\"a\",\"steps\":[{first}]}},{{\"name\":\"b\",\"steps\":[{second}]}},{{\"name\":\"c\",\"steps\":[]}}],\"turns\":[]}}"
        )?;
        assert!(rt;
            has_fault(alloc, &text, number, place),
            "{count} further steps"
        );
    }
    for (count, number, place) in [(65_536, 12, ""), (65_537, 5, "/turns")] {
        let turns = repeated(alloc, "9", count)?;
        let text = format!(in alloc;
            "{{\"version\":1,\"surfaces\":[],\"actors\":[],\"turns\":[{turns}]}}"
        )?;
        assert!(rt; has_fault(alloc, &text, number, place), "{count} turns");
    }
    let spaces = " ".repeat(alloc, 4_194_304)?;
    assert!(rt; has_fault(alloc, &spaces, 2, ""), "4,194,304 bytes");
    let longer = format!(in alloc; "{spaces} ")?;
    assert!(rt; has_fault(alloc, &longer, 1, ""), "one byte more");
    Ok(())
}

/// What a fault tells beside a place.
fn told_number(alloc: Global, text: &str) -> Option<u32> {
    match read_script(alloc, text.as_bytes()) {
        Err(ScriptRefusal::Fault(ScriptFault::TwoMounters(id))) => Some(id),
        Err(ScriptRefusal::Fault(ScriptFault::BadTurn(position))) => Some(position),
        _ => None,
    }
}

#[test]
fn faults_tell_numbers(rt: HostRuntime) {
    let alloc = rt.alloc();
    let mounters =
        r#"{"version":1,"surfaces":[{"id":7,"width":1,"height":1},{"id":5,"width":1,"height":1},{"id":3,"width":1,"height":1}],"actors":[{"name":"a","steps":[{"do":"mount","on":7},{"do":"mount","on":3},{"do":"mount","on":5}]},{"name":"b","steps":[{"do":"hold","on":7},{"do":"mount","on":3},{"do":"mount","on":5}]}],"turns":[]}"#;
    assert_eq!(rt; told_number(alloc, mounters), Some(5));
    let turns =
        r#"{"version":1,"surfaces":[],"actors":[{"name":"a","steps":[]}],"turns":[0,0,3,4]}"#;
    assert_eq!(rt; told_number(alloc, turns), Some(2));
}

/// A script of version 2 whose parts are walked down below.
const WHOLE: &str =
    r#"{"version":2,"surfaces":[{"id":8,"width":320,"height":480}],"actors":[{"name":"js","steps":[{"do":"complete","on":8,"tree":[{"tag":2,"kind":"scroll","props":{"left":-10,"hidden":1,"label":"Inbox"},"children":[{"keep":3,"props":{"z":null}}]}]}]},{"name":"ui","steps":[{"do":"mount","on":8}]}],"turns":[1,0,1]}"#;

#[test]
fn a_script_is_read(rt: HostRuntime) -> Result<(), Fail> {
    let alloc = rt.alloc();
    let Ok(script) = read_script(alloc, WHOLE.as_bytes()) else {
        assert!(rt; false, "it has no fault");
        return Ok(());
    };
    assert_eq!(rt; script.version, 2);
    assert_eq!(rt; script.turns.as_slice(), [1, 0, 1].as_slice());
    assert_eq!(rt; script.surfaces.len(), 1);
    let surface = script.surfaces.get(0).ok_or("a surface")?;
    assert_eq!(rt;
        (surface.id, surface.size.width, surface.size.height),
        (8, 320, 480)
    );
    let actor = script.actors.get(0).ok_or("an actor")?;
    assert_eq!(rt; actor.name.as_slice(), b"js".as_slice());
    let step = actor.steps.get(0).ok_or("a step")?;
    assert_eq!(rt; step.surface, 8);
    match &step.act {
        Act::Commit(op) => match &**op {
            Op::Complete { nodes } => walk_down(&rt, nodes.get(0).ok_or("a node")?)?,
            _ => assert!(rt; false, "a complete"),
        },
        _ => assert!(rt; false, "a commit"),
    }
    Ok(())
}

/// Looks at the node of the script above, and at its child.
fn walk_down(rt: &impl Abort, node: &ScriptNode) -> Result<(), Fail> {
    match node {
        ScriptNode::Written {
            tag,
            props,
            label,
            children,
            ..
        } => {
            assert_eq!(rt; *tag, 2);
            assert_eq!(rt;
                (props.get(0), props.get(1), props.get(8), props.get(16)),
                (Some(-10), None, Some(100), Some(1))
            );
            assert_eq!(rt; label.bytes(), b"Inbox".as_slice());
            match children.get(0).ok_or("a child")? {
                ScriptNode::Kept {
                    tag,
                    change: Some(change),
                    children: None,
                } => {
                    assert_eq!(rt; *tag, 3);
                    assert_eq!(rt;
                        (change.rows.get(9), change.rows.get(8)),
                        (Some(None), None)
                    );
                }
                _ => assert!(rt; false, "a kept child with props"),
            }
        }
        ScriptNode::Kept { .. } => assert!(rt; false, "a written node"),
    }
    Ok(())
}
