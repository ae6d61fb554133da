//! A worker runs its job: its actor, to its end, at desks of its own.

ghost use Rattle.std.specs.Prelude.{◌≡◌, ◌<◌, ℕ, [], All, IfOk, OnOk, length, map, nat_eq, slice_index_or};
ghost use Rattle.std.specs.List.{IsDistinct, list_any};
ghost use Rattle.std.specs.Map.{keys_of};
ghost use Rattle.run_engine.specs.Jobs.{AreDesksOf, AreOfSpines, AreRun, HasRunJob, HasWorkedOff, MayRun, MayRunEach, mount_at_desk, pass_at_desk};

use crate::jobs::Job;
use crate::opening::add_new;
use crate::sending::{jobs_are_sent, needs_sync};
use commit_spine::{Spine, SpinePass, SpinePort, spines_are_shared};
use indexmap::IndexMap;
use mount_coordinator::Coordinator;
use run_actor::{Desk, Gate, run_actor};
use shadow_node::Made;
use std::alloc::{AllocError, Global};
use std::sync::Wait;
use std::thread::Threads;
use std::{mem, thread};

/// A desk of each surface, with these passes and coordinators, in their order. They are added to
/// `desks`, which is empty and has memory for all.
fn desks_with<'a>(
    spines: &'a IndexMap<u32, Spine>,
    passes: Vec<SpinePass>,
    mounts: Vec<Option<Coordinator>>,
    mut desks: IndexMap<u32, Desk<SpinePort<'a>>>,
) -> Result<IndexMap<u32, Desk<SpinePort<'a>>>, AllocError>
    requires ids { IsDistinct nat_eq (keys_of spines.now.entries) }
    requires passes { AreOfSpines spines.now.entries passes.items }
    requires mounts { length mounts.items ≡ length spines.now.entries }
    requires empty { desks.entries ≡ [] }
    ensures { IfOk result (λ desks. AreDesksOf spines.now.entries passes.items mounts.items desks.entries) }
{
    let mut mounts = mounts.into_iter();
    for pass in passes {
        let Some((id, spine)) = spines.get_index(desks.len()) else {
            unreachable!()
        };
        let Some(mount) = mounts.next() else {
            unreachable!()
        };
        let port = spine.port(pass);
        add_new(&mut desks, *id, Desk { port, mount })?;
    }
    Ok(desks)
}

/// What desks have: the passes and the coordinators, in their order. They are added to these lists,
/// which are empty and have memory for all.
fn taken_apart<'a>(
    desks: IndexMap<u32, Desk<SpinePort<'a>>>,
    mut passes: Vec<SpinePass>,
    mut mounts: Vec<Option<Coordinator>>,
) -> Result<(Vec<SpinePass>, Vec<Option<Coordinator>>), AllocError>
    requires { (passes.items ≡ []) × (mounts.items ≡ []) }
    ensures passes { IfOk result (λ lists. lists.0.items ≡ map pass_at_desk desks.entry.entries) }
    ensures mounts { IfOk result (λ lists. lists.1.items ≡ map mount_at_desk desks.entry.entries) }
{
    for (_, desk) in desks {
        let Desk { port, mount } = desk;
        passes.push(port.into_pass())?;
        mounts.push(mount)?;
    }
    Ok((passes, mounts))
}

impl<'a> Job<'a> {
    /// Runs its actor to its end. It takes memory for the desks before it takes its passes out.
    fn run<R: Threads + Wait, G: Gate>(
        &mut self,
        rt: &R,
        alloc: Global,
        spines: &IndexMap<u32, Spine>,
        gate: &G,
    ) -> Result<(), AllocError>
        requires { MayRun spines.now.entries self.old }
        ensures { OnOk result (HasRunJob spines.now.entries self.old self.new) }
    {
        let desks = IndexMap::with_capacity(alloc, spines.len())?;
        let passes = Vec::with_capacity(alloc, spines.len())?;
        let mounts = Vec::with_capacity(alloc, spines.len())?;
        let own = mem::replace(&mut self.passes, Vec::new(alloc));
        let mine = mem::replace(&mut self.mounts, Vec::new(alloc));
        let mut desks = desks_with(spines, own, mine, desks)?;
        let mut made = Made::start(rt);
        run_actor(rt, alloc, &mut made, &mut self.actor, &mut desks, gate)?;
        let (passes, mounts) = taken_apart(desks, passes, mounts)?;
        self.passes = passes;
        self.mounts = mounts;
        Ok(())
    }

    /// The same, and notes whether want of memory ended it.
    fn work<R: Threads + Wait, G: Gate>(
        &mut self,
        rt: &R,
        alloc: Global,
        spines: &IndexMap<u32, Spine>,
        gate: &G,
    )
        requires { MayRun spines.now.entries self.old }
        ensures { HasWorkedOff spines.now.entries self.old self.new }
    {
        self.short = self.run(rt, alloc, spines, gate).is_err();
    }
}

/// Whether want of memory ended one of these jobs.
fn some_short(jobs: &[Job]) -> bool
    ensures { result ≡ list_any (λ job. job.short) jobs.now }
{
    for job in jobs {
        if job.short {
            return true;
        }
    }
    false
}

/// Runs each job, on a thread of its own where one can be started. It takes no memory.
fn run_each<R: Threads + Wait + Sync, G: Gate + Sync>(
    rt: &R,
    alloc: Global,
    jobs: &mut [Job],
    spines: &IndexMap<u32, Spine>,
    gate: &G,
)
    requires { All (MayRun spines.now.entries) jobs.old }
    ensures count { length jobs.new ≡ length jobs.old }
    ensures each { (i : ℕ) (d : Job) → i < length jobs.old → HasWorkedOff spines.now.entries (slice_index_or jobs.old i d) (slice_index_or jobs.new i d) }
{
    jobs_are_sent();
    spines_are_shared();
    needs_sync::<IndexMap<u32, Spine>>(None);
    thread::for_each_mut(
        rt,
        jobs,
        jobs.len().max(1),
        &|_, job| { job.work(rt, alloc, spines, gate) },
    );
}

/// Runs each job, on a thread of its own where one can be started. It is refused where want of memory
/// ended one of them; the others ran to their ends.
pub(crate) fn run_jobs<R: Threads + Wait + Sync, G: Gate + Sync>(
    rt: &R,
    alloc: Global,
    jobs: &mut [Job],
    spines: &IndexMap<u32, Spine>,
    gate: &G,
) -> Result<(), AllocError>
    requires { MayRunEach spines.now.entries jobs.old }
    ensures { OnOk result (AreRun spines.now.entries jobs.old jobs.new) }
{
    run_each(rt, alloc, jobs, spines, gate);
    if some_short(jobs) {
        Err(AllocError)
    } else {
        Ok(())
    }
}
