//! What the workers leave is gathered, in the order of the actors.

ghost use Rattle.std.specs.Prelude.{◌≡◌, List, [], IfOk, length, map, unwrap_or};
ghost use Rattle.tree_revision.specs.Script.{PlainActor, PlainSurface};
ghost use Rattle.run_engine.specs.Jobs.{AreDone, AreHandedBack, AreJoined, AreKept, MayGather, MayJoin};

use crate::jobs::Job;
use crate::threads::Worked;
use commit_spine::{Spine, SpinePass};
use indexmap::IndexMap;
use mount_coordinator::Coordinator;
use run_actor::Actor;
use std::alloc::{AllocError, Global};

/// Joins an actor's passes to those of their surfaces. It takes no memory.
fn join_passes(
    spines: &IndexMap<u32, Spine>,
    passes: &mut IndexMap<u32, SpinePass>,
    own: Vec<SpinePass>,
)
    requires { MayJoin spines.now.entries passes.old.entries own.items }
    ensures { AreJoined passes.old.entries passes.new.entries own.items }
{
    let mut place = 0;
    for pass in own {
        let Some((_, spine)) = spines.get_index(place) else {
            unreachable!()
        };
        let Some(keep) = passes.get_index_mut(place) else {
            unreachable!()
        };
        spine.join(keep, pass);
        place += 1;
    }
}

/// Keeps an actor's coordinator in place of another, where it has one.
fn keep_mount(kept: &mut Coordinator, mine: Option<Coordinator>)
    ensures { kept.new ≡ unwrap_or mine kept.old }
{
    if let Some(coordinator) = mine {
        *kept = coordinator;
    }
}

/// Keeps an actor's coordinators in place of those that mounted nothing.
fn keep_mounts(mounts: &mut Vec<Coordinator>, own: Vec<Option<Coordinator>>)
    requires { length own.items ≡ length mounts.old.items }
    ensures { AreKept mounts.old.items mounts.new.items own.items }
{
    let mut place = 0;
    for mount in own {
        keep_mount(&mut mounts[place], mount);
        place += 1;
    }
}

/// Takes the jobs apart: their passes are joined to those of the surfaces, and actors and coordinators
/// stand in order. They are added to `actors`, which has memory for all.
pub(crate) fn gather<'a>(
    spines: &IndexMap<u32, Spine>,
    passes: &mut IndexMap<u32, SpinePass>,
    jobs: Vec<Job<'a>>,
    mut mounts: Vec<Coordinator>,
    mut actors: Vec<Actor<'a>>,
) -> Result<Worked<'a>, AllocError>
    requires may { MayGather spines.now.entries passes.old.entries jobs.items mounts.items }
    requires empty { actors.items ≡ [] }
    ensures actors { IfOk result (λ worked. worked.actors.items ≡ map (λ job. job.actor) jobs.entry.items) }
    ensures gathered { IfOk result (λ worked. (surfaces : List PlainSurface) (plans : List PlainActor) → AreDone surfaces plans jobs.entry.items → AreHandedBack surfaces [] [] passes.old.entries passes.old.entries mounts.items
        → AreHandedBack surfaces plans worked.actors.items passes.old.entries passes.new.entries worked.mounts.items) }
{
    for job in jobs {
        let Job {
            actor,
            passes: own,
            mounts: mine,
            ..
        } = job;
        join_passes(spines, passes, own);
        keep_mounts(&mut mounts, mine);
        actors.push(actor)?;
    }
    Ok(Worked { actors, mounts })
}
