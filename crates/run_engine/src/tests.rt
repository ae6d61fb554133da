//! Lists of turns of two actors, each with its answers written by hand.

ghost use Rattle.std.specs.Prelude.{IfOk};
ghost use Rattle.tree_revision.specs.Sound.{IsSoundScript};
ghost use Rattle.script_read.specs.Plain.{plain_script};
ghost use Rattle.run_engine.specs.Numbers.{IsWithinNumbers};

use crate::{FreeGate, run_threads, run_turns};
use run_report::Journal;
use script_read::{Script, read_script};
use shadow_node::Made;
use std::alloc::{AllocError, Global};
use std::sync::Wait;
use std::test::Fail;
use std::thread::Threads;
use tree_revision::Answer;

/// One actor completes a text and then holds, the other changes the size and then mounts.
const SCRIPT: &[u8] =
    br#"{"version":1,"surfaces":[{"id":1,"width":100,"height":100}],"actors":[{"name":"js","steps":[{"do":"complete","on":1,"tree":[{"tag":2,"kind":"text"}]},{"do":"hold","on":1}]},{"name":"ui","steps":[{"do":"size","on":1,"width":50,"height":50},{"do":"mount","on":1}]}],"turns":["#;

/// A list of turns, and what comes of it: the number and the tries of each commit, the number that
/// is held, and the one that is mounted.
struct Case {
    turns: &'static [u8],
    complete: (u64, u64),
    held: u64,
    size: (u64, u64),
    mounted: u64,
}

const CASES: [Case; 10] = [
    Case {
        turns: b"",
        complete: (1, 1),
        held: 1,
        size: (2, 1),
        mounted: 2,
    },
    Case {
        turns: b"1",
        complete: (1, 1),
        held: 1,
        size: (2, 2),
        mounted: 2,
    },
    Case {
        turns: b"0,1",
        complete: (1, 1),
        held: 1,
        size: (2, 2),
        mounted: 2,
    },
    Case {
        turns: b"0,1,1",
        complete: (2, 2),
        held: 2,
        size: (1, 1),
        mounted: 2,
    },
    Case {
        turns: b"0,1,1,1",
        complete: (2, 2),
        held: 2,
        size: (1, 1),
        mounted: 1,
    },
    Case {
        turns: b"1,1",
        complete: (2, 1),
        held: 2,
        size: (1, 1),
        mounted: 2,
    },
    Case {
        turns: b"1,1,1",
        complete: (2, 1),
        held: 2,
        size: (1, 1),
        mounted: 1,
    },
    Case {
        turns: b"0,0,1",
        complete: (1, 1),
        held: 1,
        size: (2, 1),
        mounted: 2,
    },
    Case {
        turns: b"0,0,1,1",
        complete: (1, 1),
        held: 2,
        size: (2, 1),
        mounted: 2,
    },
    Case {
        turns: b"1,0,0,1",
        complete: (1, 1),
        held: 1,
        size: (2, 2),
        mounted: 2,
    },
];

/// The script of this text.
pub(crate) fn script_of(alloc: Global, text: &[u8]) -> Result<Script, AllocError>
    ensures sound { IfOk result (λ script. IsSoundScript (plain_script script)) }
    ensures numbers { IfOk result (λ script. IsWithinNumbers (plain_script script)) }
{
    match read_script(alloc, text) {
        Ok(script) => Ok(script),
        Err(_) => Err(AllocError),
    }
}

/// The script with these turns.
fn script_with(alloc: Global, turns: &[u8]) -> Result<Script, AllocError>
    ensures sound { IfOk result (λ script. IsSoundScript (plain_script script)) }
    ensures numbers { IfOk result (λ script. IsWithinNumbers (plain_script script)) }
{
    let mut text = Vec::new(alloc);
    text.extend_from_slice(SCRIPT)?;
    text.extend_from_slice(turns)?;
    text.extend_from_slice(b"]}")?;
    script_of(alloc, &text)
}

/// The journal of the script with these turns.
fn journal_of(alloc: Global, made: &mut Made, turns: &[u8]) -> Result<Journal, AllocError> {
    run_turns(alloc, made, &script_with(alloc, turns)?)
}

/// The journal of the script on threads.
fn journal_on_threads(
    rt: &(impl Threads + Wait + Sync),
    alloc: Global,
) -> Result<Journal, AllocError> {
    run_threads(rt, alloc, &script_with(alloc, b"")?, &FreeGate)
}

/// The answer of a step.
fn answer_of(journal: &Journal, actor: usize, call: usize) -> Option<Answer> {
    Some(journal.actors.get(actor)?.steps.get(call)?.answer)
}

#[test]
fn each_list_of_turns_has_its_answers(rt: HostRuntime) -> Result<(), Fail> {
    let alloc = rt.alloc();
    let mut made = Made::start(&rt);
    for case in &CASES {
        let journal = journal_of(alloc, &mut made, case.turns)?;
        let (number, tries) = case.complete;
        assert_eq!(rt;
            answer_of(&journal, 0, 0),
            Some(Answer::Admitted { number, tries })
        );
        assert_eq!(rt;
            answer_of(&journal, 0, 1),
            Some(Answer::Held { at: case.held })
        );
        let (number, tries) = case.size;
        assert_eq!(rt;
            answer_of(&journal, 1, 0),
            Some(Answer::Admitted { number, tries })
        );
        let to = case.mounted;
        assert_eq!(rt;
            answer_of(&journal, 1, 1),
            Some(Answer::Mounted { base: 0, to })
        );
    }
    Ok(())
}

#[test]
fn a_run_on_threads_admits_each_commit(rt: HostRuntime) -> Result<(), Fail> {
    let journal = journal_on_threads(&rt, rt.alloc())?;
    for surface in journal.surfaces.as_slice() {
        assert_eq!(rt; surface.records.len(), 2);
    }
    assert_eq!(rt; journal.surfaces.len(), 1);
    assert_eq!(rt; journal.actors.len(), 2);
    Ok(())
}
