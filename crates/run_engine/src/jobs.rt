//! What the workers of a run are handed: an actor, and of each surface a pass and, where the actor
//! mounts there, the coordinator.

ghost use Rattle.std.specs.Prelude.{◌≡◌, ◌^◌, ◌<◌, ◌&&◌, [], All, IfOk, OnOk, length, map, nat_eq};
ghost use Rattle.std.specs.List.{AllZip, IsDistinct, list_any};
ghost use Rattle.tree_revision.specs.InRange.{IsActInRange};
ghost use Rattle.tree_revision.specs.Sound.{is_mount};
ghost use Rattle.script_read.specs.Plain.{plain_actor, plain_step};
ghost use Rattle.run_engine.specs.Jobs.{AreJobsAtStart, IsJobAtStart, IsMountFor, IsUnmounted, MayGiveAll, MayGiveEach, after_own_pass, after_own_passes, own_pass};

use crate::opening::count_commits;
use commit_spine::{Spine, SpinePass};
use indexmap::IndexMap;
use mount_coordinator::Coordinator;
use run_actor::Actor;
use script_read::{Act, ActorPlan, Step};
use std::alloc::{AllocError, Global};
use tree_revision::Revision;

/// An actor's work on a thread of its own, with a pass of each surface, in their order.
#[derive(Drop)]
pub(crate) struct Job<'a> {
    pub(crate) actor: Actor<'a>,
    pub(crate) passes: Vec<SpinePass>,
    /// Of each surface the coordinator, where the actor mounts there.
    pub(crate) mounts: Vec<Option<Coordinator>>,
    /// Whether want of memory ended it.
    pub(crate) short: bool,
}

/// Whether one of these steps mounts the surface of that id.
fn mount_there(steps: &[Step], id: u32) -> bool
    ensures { result ≡ list_any (λ step. is_mount step.act && nat_eq step.surface id) (map plain_step steps.now) }
{
    for step in steps {
        if matches!(step.act, Act::Mount) && step.surface == id {
            return true;
        }
    }
    false
}

/// The coordinator of a surface with that first revision, for an actor that mounts there.
fn mount_for(
    alloc: Global,
    plan: &ActorPlan,
    first: &(u32, Revision),
) -> Result<Option<Coordinator>, AllocError>
    requires { first.now.1.newest.number ≡ 0 }
    ensures { IfOk result (λ mount. IsMountFor (plain_actor plan.now) first.now mount) }
{
    if !mount_there(plan.steps.as_slice(), first.0) {
        return Ok(None);
    }
    let coordinator = Coordinator::start(alloc, first.1.share()?)?;
    Ok(Some(coordinator))
}

/// What an actor mounts, surface by surface.
fn mounts_for(
    alloc: Global,
    plan: &ActorPlan,
    first: &[(u32, Revision)],
) -> Result<Vec<Option<Coordinator>>, AllocError>
    requires { All (λ entry. entry.1.newest.number ≡ 0) first.now }
    ensures { IfOk result (λ mounts. AllZip (IsMountFor (plain_actor plan.now)) first.now mounts.items) }
{
    let mut mounts = Vec::with_capacity(alloc, first.len())?;
    for opening in first {
        mounts.push(mount_for(alloc, plan, opening)?)?;
    }
    Ok(mounts)
}

/// A coordinator of each surface, of which nothing is mounted yet.
pub(crate) fn coordinators_of(
    alloc: Global,
    first: &[(u32, Revision)],
) -> Result<Vec<Coordinator>, AllocError>
    requires { All (λ entry. entry.1.newest.number ≡ 0) first.now }
    ensures { IfOk result (λ mounts. AllZip (λ entry. IsUnmounted entry.1) first.now mounts.items) }
{
    let mut mounts = Vec::with_capacity(alloc, first.len())?;
    for opening in first {
        mounts.push(Coordinator::start(alloc, opening.1.share()?)?)?;
    }
    Ok(mounts)
}

/// Splits a pass of each surface off for an actor: with one share, and a permit for each of its
/// commits there. It is added to `own`, which is empty and has memory for all.
fn split_passes(
    spines: &IndexMap<u32, Spine>,
    passes: &mut IndexMap<u32, SpinePass>,
    plan: &ActorPlan,
    mut own: Vec<SpinePass>,
) -> Result<Vec<SpinePass>, AllocError>
    requires calls { length (plain_actor plan.now).steps < 2 ^ 31 }
    requires may { MayGiveEach (plain_actor plan.now).steps spines.now.entries passes.old.entries }
    requires empty { own.items ≡ [] }
    ensures own { IfOk result (λ own. own.items ≡ map (own_pass (plain_actor plan.now).steps) passes.old.entries) }
    ensures passes { OnOk result (passes.new.entries ≡ map (after_own_pass (plain_actor plan.now).steps) passes.old.entries) }
{
    for place in 0..spines.len() {
        let Some((_, spine)) = spines.get_index(place) else {
            unreachable!()
        };
        let Some((id, _)) = passes.get_index(place) else {
            unreachable!()
        };
        let permits = count_commits(plan.steps.as_slice(), *id);
        let Some(pass) = passes.get_index_mut(place) else {
            unreachable!()
        };
        own.push(spine.split(pass, permits))?;
    }
    Ok(own)
}

/// The job of an actor before its first step.
fn job_of<'a>(
    alloc: Global,
    number: u32,
    plan: &'a ActorPlan,
    first: &[(u32, Revision)],
    spines: &IndexMap<u32, Spine>,
    passes: &mut IndexMap<u32, SpinePass>,
) -> Result<Job<'a>, AllocError>
    requires ids { IsDistinct nat_eq (map (λ entry. entry.0) first.now) }
    requires first { All (λ entry. entry.1.newest.number ≡ 0) first.now }
    requires calls { length (plain_actor plan.now).steps < 2 ^ 31 }
    requires in_range { All (λ step. IsActInRange step.act) (plain_actor plan.now).steps }
    requires may { MayGiveEach (plain_actor plan.now).steps spines.now.entries passes.old.entries }
    ensures job { IfOk result (IsJobAtStart first.now passes.old.entries number (plain_actor plan.now)) }
    ensures passes { OnOk result (passes.new.entries ≡ map (after_own_pass (plain_actor plan.now).steps) passes.old.entries) }
{
    let actor = Actor::start(alloc, number, plan, first)?;
    let mounts = mounts_for(alloc, plan, first)?;
    let own = Vec::with_capacity(alloc, spines.len())?;
    let passes = split_passes(spines, passes, plan, own)?;
    Ok(Job {
        actor,
        passes,
        mounts,
        short: false,
    })
}

/// The jobs of all actors before their first steps, in their order.
pub(crate) fn jobs_of<'a>(
    alloc: Global,
    plans: &'a [ActorPlan],
    first: &[(u32, Revision)],
    spines: &IndexMap<u32, Spine>,
    passes: &mut IndexMap<u32, SpinePass>,
) -> Result<Vec<Job<'a>>, AllocError>
    requires ids { IsDistinct nat_eq (map (λ entry. entry.0) first.now) }
    requires first { All (λ entry. entry.1.newest.number ≡ 0) first.now }
    requires count { length plans.now < 2 ^ 31 }
    requires calls { All (λ actor. length actor.steps < 2 ^ 31) (map plain_actor plans.now) }
    requires in_range { All (λ actor. All (λ step. IsActInRange step.act) actor.steps) (map plain_actor plans.now) }
    requires may { MayGiveAll (map plain_actor plans.now) spines.now.entries passes.old.entries }
    ensures jobs { IfOk result (λ jobs. AreJobsAtStart first.now passes.old.entries (map plain_actor plans.now) jobs.items) }
    ensures passes { OnOk result (passes.new.entries ≡ map (after_own_passes (map plain_actor plans.now)) passes.old.entries) }
{
    let mut jobs = Vec::with_capacity(alloc, plans.len())?;
    for number in 0..plans.len() {
        let plan = &plans[number];
        jobs.push(job_of(alloc, number as u32, plan, first, spines, passes)?)?;
    }
    Ok(jobs)
}
