//! What a run begins with: the first revisions, the histories, the actors and the surfaces.

ghost use Rattle.std.specs.Prelude.{◌≡◌, ℕ, ◌<◌, ◌^◌, [], ◌∷◌, ◌++◌, All, IfOk, List, None, OnOk, count_by, length, map, nat_eq};
ghost use Rattle.std.specs.List.{IsDistinct};
ghost use Rattle.std.specs.Map.{keys_of};
ghost use Rattle.indexmap.specs.IndexMap.{get};
ghost use Rattle.tree_revision.specs.InRange.{IsActInRange, IsSurfaceInRange};
ghost use Rattle.tree_revision.specs.Settled.{KeptRevision};
ghost use Rattle.script_read.specs.Plain.{plain_actor, plain_step, plain_surface};
ghost use Rattle.run_report.specs.Machine.{ActorNow};
ghost use Rattle.run_report.specs.Shorthands.{begun};
ghost use Rattle.run_engine.specs.Opening.{AreDesksAtStart, AreHistories, AreOpenings, ArePassesAtStart, AreWorkersAtStart, IsHistory, IsMountedAtStart};
ghost use Rattle.run_engine.specs.Run.{commits_left};
ghost use Rattle.run_actor.specs.Runs.{commits_on};

use crate::workers::Worker;
use commit_core::{PlainPass, PlainPort, PlainSpine};
use indexmap::IndexMap;
use mount_coordinator::Coordinator;
use run_actor::{Actor, Desk};
use script_read::{Act, ActorPlan, Step, SurfacePlan};
use std::alloc::{AllocError, Global};
use tree_revision::Revision;

/// Each surface's first revision, with its id.
pub(crate) fn openings_of(
    alloc: Global,
    surfaces: &[SurfacePlan],
) -> Result<Vec<(u32, Revision)>, AllocError>
    requires { All IsSurfaceInRange (map plain_surface surfaces.now) }
    ensures { IfOk result (λ first. AreOpenings (map plain_surface surfaces.now) first.items) }
{
    let mut first = Vec::with_capacity(alloc, surfaces.len())?;
    for surface in surfaces {
        first.push((surface.id, Revision::opening(alloc, surface.size)?))?;
    }
    Ok(first)
}

/// How many of these steps are commits on the surface of that id.
pub(crate) fn count_commits(steps: &[Step], id: u32) -> u64
    requires { length steps.now < 2 ^ 31 }
    ensures { result ≡ count_by (commits_on id) (map plain_step steps.now) }
{
    let mut count = 0;
    for step in steps {
        if step.surface == id && matches!(step.act, Act::Commit(_)) {
            count += 1;
        }
    }
    count
}

/// How many commits all actors have on the surface of that id.
pub(crate) fn count_all_commits(actors: &[ActorPlan], id: u32) -> u64
    requires count { length actors.now < 2 ^ 31 }
    requires calls { All (λ actor. length actor.steps < 2 ^ 31) (map plain_actor actors.now) }
    ensures count { result ≡ commits_left id (map begun (map plain_actor actors.now)) }
    ensures small { result < 2 ^ 62 }
{
    let mut count = 0;
    for actor in actors {
        count += count_commits(actor.steps.as_slice(), id);
    }
    count
}

/// Each surface's history, with room for all commits that the actors have there.
pub(crate) fn spines_of(
    alloc: Global,
    actors: &[ActorPlan],
    first: &[(u32, Revision)],
) -> Result<Vec<PlainSpine>, AllocError>
    requires count { length actors.now < 2 ^ 31 }
    requires calls { All (λ actor. length actor.steps < 2 ^ 31) (map plain_actor actors.now) }
    requires first { All (λ entry. entry.1.newest.number ≡ 0) first.now }
    ensures { IfOk result (λ spines. AreHistories (map begun (map plain_actor actors.now)) first.now spines.items) }
{
    let mut spines = Vec::with_capacity(alloc, first.len())?;
    for opening in first {
        let room = count_all_commits(actors, opening.0);
        spines.push(PlainSpine::start(alloc, room, opening.1.share()?)?)?;
    }
    Ok(spines)
}

/// A pass of each history, which has seen nothing.
fn passes_of(alloc: Global, spines: &[PlainSpine]) -> Result<Vec<PlainPass>, AllocError>
    ensures { IfOk result (λ passes. ArePassesAtStart (length spines.now) passes.items) }
{
    let mut passes = Vec::with_capacity(alloc, spines.len())?;
    for spine in spines {
        passes.push(spine.pass())?;
    }
    Ok(passes)
}

/// Each actor before its first step, which has seen nothing.
pub(crate) fn workers_of<'a>(
    alloc: Global,
    plans: &'a [ActorPlan],
    first: &[(u32, Revision)],
    spines: &[PlainSpine],
) -> Result<Vec<Worker<'a>>, AllocError>
    requires ids { IsDistinct nat_eq (map (λ entry. entry.0) first.now) }
    requires spines { length spines.now ≡ length first.now }
    requires count { length plans.now < 2 ^ 31 }
    requires calls { All (λ actor. length actor.steps < 2 ^ 31) (map plain_actor plans.now) }
    requires in_range { All (λ actor. All (λ step. IsActInRange step.act) actor.steps) (map plain_actor plans.now) }
    ensures { IfOk result (λ workers. AreWorkersAtStart first.now (map plain_actor plans.now) workers.items) }
{
    let mut workers = Vec::with_capacity(alloc, plans.len())?;
    for number in 0..plans.len() {
        workers.push(Worker {
            actor: Actor::start(alloc, number as u32, &plans[number], first)?,
            passes: passes_of(alloc, spines)?,
        })?;
    }
    Ok(workers)
}

/// A surface before its first commit, of whose first revision nothing is mounted yet.
fn open_desk(
    alloc: Global,
    spine: PlainSpine,
    first: Revision,
) -> Result<Desk<PlainPort>, AllocError>
    requires { first.newest.number ≡ 0 }
    ensures history { IfOk result (λ desk. (actors : List ActorNow) (entry : ℕ × KeptRevision) → IsHistory actors entry spine → IsHistory actors entry desk.port.spine) }
    ensures mounted { IfOk result (λ desk. IsMountedAtStart first desk) }
{
    let mount = Coordinator::start(alloc, first)?;
    let pass = spine.pass();
    Ok(Desk {
        port: spine.port(pass),
        mount: Some(mount),
    })
}

/// Puts an item of a new id behind the others.
pub(crate) fn add_new<V: Drop>(
    items: &mut IndexMap<u32, V>,
    id: u32,
    item: V,
) -> Result<(), AllocError>
    requires { get nat_eq items.old id ≡ None }
    ensures { OnOk result (items.new.entries ≡ items.old.entries ++ (id, item) ∷ []) }
{
    match items.insert(id, item) {
        Ok(_) => Ok(()),
        Err(_) => Err(AllocError),
    }
}

/// Each surface before its first commit, by its id.
pub(crate) fn desks_of(
    alloc: Global,
    first: &[(u32, Revision)],
    spines: Vec<PlainSpine>,
) -> Result<IndexMap<u32, Desk<PlainPort>>, AllocError>
    requires ids { IsDistinct nat_eq (keys_of first.now) }
    requires first { All (λ entry. entry.1.newest.number ≡ 0) first.now }
    requires spines { length spines.items ≡ length first.now }
    ensures { IfOk result (λ desks. (actors : List ActorNow) → AreHistories actors first.now spines.items → AreDesksAtStart actors first.now desks.entries) }
{
    let mut desks = IndexMap::with_capacity(alloc, first.len())?;
    for spine in spines {
        let opening = &first[desks.len()];
        let desk = open_desk(alloc, spine, opening.1.share()?)?;
        add_new(&mut desks, opening.0, desk)?;
    }
    Ok(desks)
}
