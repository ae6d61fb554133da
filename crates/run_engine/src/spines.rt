//! The surfaces of a run on threads: their spines and passes at the start, and their parts of the
//! journal at the end.

ghost use Rattle.std.specs.Prelude.{◌≡◌, IfOk, length};
ghost use Rattle.tree_revision.specs.Sound.{IsSoundScript};
ghost use Rattle.script_read.specs.Plain.{plain_script};
ghost use Rattle.run_engine.specs.Numbers.{IsWithinNumbers};
ghost use Rattle.run_engine.specs.Spines.{ArePartsAtEnd, AreSpinesAtStart, MayCloseAll};

use crate::desks::close_surface;
use crate::opening::{add_new, count_all_commits, openings_of};
use commit_spine::{Spine, SpinePass, Store};
use indexmap::IndexMap;
use mount_coordinator::Coordinator;
use run_report::{MountPart, SurfacePart};
use script_read::Script;
use sqlite_items::Items;
use std::alloc::{AllocError, Global};

/// Each surface's spine, with room for all commits there and a seat for each actor and one more, and
/// a pass that has all shares and permits. Both are by the surfaces' ids, in the script's order.
pub(crate) fn open_spines(
    alloc: Global,
    script: &Script,
) -> Result<(IndexMap<u32, Spine>, IndexMap<u32, SpinePass>), AllocError>
    requires sound { IsSoundScript (plain_script script.now) }
    requires numbers { IsWithinNumbers (plain_script script.now) }
    ensures { IfOk result (λ opened. AreSpinesAtStart (plain_script script.now) opened.0.entries opened.1.entries) }
{
    let first = openings_of(alloc, script.surfaces.as_slice())?;
    let actors = script.actors.as_slice();
    let seats = actors.len() as u32 + 1;
    let mut spines = IndexMap::with_capacity(alloc, first.len())?;
    let mut passes = IndexMap::with_capacity(alloc, first.len())?;
    for (id, opening) in first {
        let room = count_all_commits(actors, id);
        let (spine, pass) = Spine::start(alloc, room, seats, opening)?;
        add_new(&mut spines, id, spine)?;
        add_new(&mut passes, id, pass)?;
    }
    Ok((spines, passes))
}

/// Each surface's part of the journal, with the pass, the coordinator and the mounts that stand at its
/// place. Nothing is copied.
pub(crate) fn close_spines(
    alloc: Global,
    spines: IndexMap<u32, Spine>,
    passes: IndexMap<u32, SpinePass>,
    coordinators: Vec<Coordinator>,
    lists: Vec<Items<MountPart>>,
) -> Result<Items<SurfacePart>, AllocError>
    requires may { MayCloseAll spines.entries passes.entries coordinators.items }
    requires lists { length lists.items ≡ length spines.entries }
    ensures { IfOk result (ArePartsAtEnd spines.entries passes.entries coordinators.items lists.items) }
{
    let mut parts = Items::new(alloc);
    let mut passes = passes.into_iter();
    let mut coordinators = coordinators.into_iter();
    let mut lists = lists.into_iter();
    for (id, spine) in spines {
        let Some((_, pass)) = passes.next() else {
            unreachable!()
        };
        let Some(coordinator) = coordinators.next() else {
            unreachable!()
        };
        let Some(mounts) = lists.next() else {
            unreachable!()
        };
        let Store { records, front } = spine.close(pass);
        let records = Items::from_vec(records);
        parts.push(close_surface(alloc, id, records, front, coordinator, mounts)?)?;
    }
    Ok(parts)
}
