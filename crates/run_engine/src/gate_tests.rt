//! Workers on threads, which a gate lets act in one order.

use crate::spines::open_spines;
use crate::tests::script_of;
use crate::{Gate, Worked, run_workers};
use std::sync::atomic::{AtomicBool, AtomicU64, Ordering};
use std::test::Fail;
use tree_revision::Answer;

/// Three actors, of which the second mounts and is overtaken by the third.
const OVERTAKEN: &[u8] =
    br#"{"version":1,"surfaces":[{"id":1,"width":100,"height":100}],"actors":[{"name":"js","steps":[{"do":"complete","on":1,"tree":[{"tag":7,"kind":"scroll","props":{"width":100,"height":100}}]},{"do":"hold","on":1}]},{"name":"ui","steps":[{"do":"hold","on":1},{"do":"mount","on":1},{"do":"props","on":1,"tag":7,"props":{"border":1}}]},{"name":"scr","steps":[{"do":"state","on":1,"tag":7,"set":[0,40]},{"do":"hold","on":1}]}],"turns":[]}"#;

/// How often a pass that is held looks before it gives up.
const MOST_LOOKS: u64 = 1_000_000_000;

/// Lets the actors of `OVERTAKEN` act one at a time below stage 4, and then all at once.
#[derive(Drop)]
struct StageGate {
    stage: AtomicU64,
    gave_up: AtomicBool,
}

impl StageGate {
    /// Goes on from a stage to the next, and answers whether it was at that stage.
    fn leave(&self, stage: u64, next: u64) -> bool {
        self.stage
            .compare_exchange(stage, next, Ordering::SeqCst, Ordering::SeqCst)
            .is_ok()
    }

    /// Holds its caller until a stage is reached.
    fn hold_until(&self, stage: u64) {
        for _ in 0..MOST_LOOKS {
            if self.stage.load(Ordering::SeqCst) >= stage {
                return;
            }
        }
        self.gave_up.store(true, Ordering::SeqCst);
    }
}

impl Gate for StageGate {
    fn pass(&self, actor: usize, call: usize) {
        match (actor, call) {
            (0, 1) => {
                self.leave(0, 1);
                self.hold_until(4);
            }
            (1, 0) => self.hold_until(1),
            // Its first pass is before the look, and its second before the offer.
            (1, 2) => {
                if !self.leave(1, 2) {
                    self.leave(2, 3);
                    self.hold_until(4);
                }
            }
            (2, 0) => self.hold_until(3),
            (2, 1) => {
                self.leave(3, 4);
            }
            _ => {}
        }
    }
}

/// The answer of a step.
fn answer_of(worked: &Worked, actor: usize, call: usize) -> Option<Answer> {
    Some(worked.actors.get(actor)?.steps().get(call)?.answer)
}

#[test]
fn a_worker_is_overtaken(rt: HostRuntime) -> Result<(), Fail> {
    let script = script_of(rt.alloc(), OVERTAKEN)?;
    let (spines, mut passes) = open_spines(rt.alloc(), &script)?;
    let gate = StageGate {
        stage: AtomicU64::new(0),
        gave_up: AtomicBool::new(false),
    };
    let worked = run_workers(&rt, rt.alloc(), &script, &spines, &mut passes, &gate)?;
    assert!(rt; !gate.gave_up.load(Ordering::SeqCst));
    for (actor, call, number, tries) in [(0, 0, 1, 1), (1, 2, 3, 2), (2, 0, 2, 1)] {
        let answer = Answer::Admitted { number, tries };
        assert_eq!(rt; answer_of(&worked, actor, call), Some(answer));
    }
    assert_eq!(rt; answer_of(&worked, 1, 0), Some(Answer::Held { at: 1 }));
    let mounted = Answer::Mounted { base: 0, to: 1 };
    assert_eq!(rt; answer_of(&worked, 1, 1), Some(mounted));
    let left = passes.get(&1).map(|pass| (pass.shares(), pass.permits()));
    assert_eq!(rt; left, Some((4, 0)));
    Ok(())
}
