//! Runs of a script on threads: each actor is a worker with passes of its own.

ghost use Rattle.std.specs.Prelude.{IfOk};
ghost use Rattle.tree_revision.specs.Sound.{IsSoundScript};
ghost use Rattle.script_read.specs.Plain.{plain_script};
ghost use Rattle.run_engine.specs.Numbers.{IsWithinNumbers};
ghost use Rattle.run_engine.specs.Workers.{HaveWorked, MayWork};

use crate::gathering::gather;
use crate::jobs::{coordinators_of, jobs_of};
use crate::opening::openings_of;
use crate::work::run_jobs;
use commit_spine::{Spine, SpinePass};
use indexmap::IndexMap;
use mount_coordinator::Coordinator;
use run_actor::{Actor, Gate};
use script_read::Script;
use std::alloc::{AllocError, Global};
use std::sync::Wait;
use std::thread::Threads;

/// What the workers of a script leave: each actor at its end, and each surface's coordinator, both in
/// the script's order.
#[derive(Drop)]
pub struct Worked<'a> {
    pub actors: Vec<Actor<'a>>,
    pub mounts: Vec<Coordinator>,
}

/// Runs the actors of a script on the spines that are handed in, each as a worker on a thread of its
/// own where one can be started, over passes that are split from the ones handed in and joined to them
/// at the end.
///
/// A worker that meets want of memory ends, and the others run to their ends. After a refusal the
/// events so far stand, and passes that were split may be gone with their shares.
pub fn run_workers<'a, R: Threads + Wait + Sync, G: Gate + Sync>(
    rt: &R,
    alloc: Global,
    script: &'a Script,
    spines: &IndexMap<u32, Spine>,
    passes: &mut IndexMap<u32, SpinePass>,
    gate: &G,
) -> Result<Worked<'a>, AllocError>
    requires sound { IsSoundScript (plain_script script.now) }
    requires numbers { IsWithinNumbers (plain_script script.now) }
    requires passes { MayWork (plain_script script.now) spines.now.entries passes.old.entries }
    ensures worked { IfOk result (λ worked. HaveWorked (plain_script script.now) passes.old.entries passes.new.entries worked.actors.items worked.mounts.items) }
{
    let first = openings_of(alloc, script.surfaces.as_slice())?;
    let mounts = coordinators_of(alloc, &first)?;
    let plans = script.actors.as_slice();
    let actors = Vec::with_capacity(alloc, plans.len())?;
    let mut jobs = jobs_of(alloc, plans, &first, spines, passes)?;
    run_jobs(rt, alloc, &mut jobs, spines, gate)?;
    gather(spines, passes, jobs, mounts, actors)
}
