//! A run of a script on threads, from its spines to its journal.

ghost use Rattle.std.specs.Prelude.{IfOk, nat_eq};
ghost use Rattle.std.specs.List.{IsDistinct};
ghost use Rattle.indexmap.specs.IndexMap.{keys};
ghost use Rattle.tree_revision.specs.Sound.{IsSoundScript};
ghost use Rattle.script_read.specs.Plain.{plain_script};
ghost use Rattle.run_report.specs.Journal.{plain_journal};
ghost use Rattle.run_report.specs.Legal.{IsLegal};
ghost use Rattle.run_report.specs.Named.{NamesItsActors};
ghost use Rattle.run_engine.specs.Numbers.{IsWithinNumbers};
ghost use Rattle.run_engine.specs.Spines.{IsJournalOf, MayCloseAll};

use crate::runs::{no_mounts, sort_out};
use crate::spines::{close_spines, open_spines};
use crate::threads::{Worked, run_workers};
use commit_spine::{Spine, SpinePass};
use indexmap::IndexMap;
use run_actor::Gate;
use run_report::Journal;
use script_read::Script;
use sqlite_items::Items;
use std::alloc::{AllocError, Global};
use std::sync::Wait;
use std::thread::Threads;

/// Runs a script on threads, and answers the journal of the run. Its list of turns is not used.
///
/// The script has fewer than 2^31 actors, and each of them fewer than 2^31 steps. What is said holds if
/// it returns.
pub fn run_threads<R: Threads + Wait + Sync, G: Gate + Sync>(
    rt: &R,
    alloc: Global,
    script: &Script,
    gate: &G,
) -> Result<Journal, AllocError>
    requires sound { IsSoundScript (plain_script script.now) }
    requires numbers { IsWithinNumbers (plain_script script.now) }
    ensures legal { IfOk result (λ journal. IsLegal (plain_script script.now) (plain_journal journal)) }
    ensures names { IfOk result (λ journal. NamesItsActors (plain_journal journal)) }
{
    let (spines, mut passes) = open_spines(alloc, script)?;
    let worked = run_workers(rt, alloc, script, &spines, &mut passes, gate)?;
    close_run(alloc, spines, passes, worked)
}

/// The journal of a run on these spines, after its workers. Records and mounts are moved into it.
fn close_run(
    alloc: Global,
    spines: IndexMap<u32, Spine>,
    passes: IndexMap<u32, SpinePass>,
    worked: Worked,
) -> Result<Journal, AllocError>
    requires ids { IsDistinct nat_eq (keys spines) }
    requires may { MayCloseAll spines.entries passes.entries worked.mounts.items }
    ensures { IfOk result (IsJournalOf spines.entries passes.entries worked.entry.actors.items worked.entry.mounts.items) }
{
    let Worked {
        actors,
        mounts: coordinators,
    } = worked;
    let mut mounts = no_mounts(alloc, spines.len())?;
    let mut parts = Items::new(alloc);
    for actor in actors {
        let (part, own) = actor.into_parts(alloc)?;
        parts.push(part)?;
        sort_out(&spines, &mut mounts, own)?;
    }
    let surfaces = close_spines(alloc, spines, passes, coordinators, mounts)?;
    Ok(Journal {
        surfaces,
        actors: parts,
    })
}
