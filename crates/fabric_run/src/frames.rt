//! The command `frames`: a script is read, run by its list of turns, and it is told which frames of host
//! views each mount changed.

ghost use Rattle.std.specs.Prelude.{◌≡◌, IfOk, map};
ghost use Rattle.std.specs.List.{flat_map};
ghost use Rattle.byte_ports.specs.Sinks.{Writes};
ghost use Rattle.script_read.specs.Plain.{plain_script, plain_surface};
ghost use Rattle.run_report.specs.Journal.{plain_journal, plain_surface_part};
ghost use Rattle.run_report.specs.Legal.{IsLegal};
ghost use Rattle.fabric_run.specs.Commands.{FramesEnd};
ghost use Rattle.fabric_run.specs.Frames.{all_frames_text, change_line, frames_on, mount_frames_text, surface_frames_text};
ghost use Rattle.fabric_run.specs.Steps.{MayBeFollowed};
ghost use Rattle.fabric_run.specs.Surfaces.{surfaces_in};
ghost use Rattle.fabric_run.specs.Texts.{Tells, status_line};

use crate::reading::script_from;
use crate::status::Status;
use crate::texts::told;
use crate::writing::{Text, write_text};
use byte_ports::{Failed, Sink, Source, write_whole};
use frame_watch::{Follow, FrameChange};
use run_engine::run_turns;
use run_report::laws::journals_of_turns_are_legal;
use run_report::{Journal, Piece, SurfacePart, write_pieces, write_tag_line};
use script_read::{Script, SurfacePlan};
use shadow_node::Made;
use sqlite_items::Items;
use std::alloc::{AllocError, Global};

/// A mount: from which revision to which, and the frames that it changed.
#[derive(Drop)]
pub(crate) struct MountFrames {
    pub(crate) base: u64,
    pub(crate) to: u64,
    pub(crate) changes: Items<FrameChange>,
}

/// A surface, and its mounts in their order.
#[derive(Drop)]
pub(crate) struct SurfaceFrames {
    pub(crate) id: u32,
    pub(crate) mounts: Items<MountFrames>,
}

/// The frames that the mounts of a run changed.
#[derive(Drop)]
struct Frames {
    surfaces: Vec<SurfaceFrames>,
}

/// The frames that each mount of a surface changed, the closing one too.
fn frames_on(
    alloc: Global,
    surface: &SurfacePlan,
    part: &SurfacePart,
) -> Result<SurfaceFrames, AllocError>
    requires { MayBeFollowed surface.now.size (plain_surface_part part.now) }
    ensures { IfOk result (λ frames. frames ≡ frames_on (plain_surface surface.now, plain_surface_part part.now)) }
{
    let mut follow = Follow::start(alloc)?;
    let mut mounts = Items::new(alloc);
    for mount in part.mounts.as_slice() {
        let changes = follow.mount(mount.mutations.as_slice())?;
        mounts.push(MountFrames {
            base: mount.base,
            to: mount.to,
            changes: Items::from_vec(changes),
        })?;
    }
    Ok(SurfaceFrames {
        id: surface.id,
        mounts,
    })
}

/// The frames that each mount of a run changed, surface by surface.
fn frames_of(
    alloc: Global,
    script: &Script,
    journal: &Journal,
) -> Result<Vec<SurfaceFrames>, AllocError>
    requires { IsLegal (plain_script script.now) (plain_journal journal.now) }
    ensures { IfOk result (λ surfaces. surfaces.items ≡ map frames_on (surfaces_in (plain_script script.now) (plain_journal journal.now))) }
{
    let surfaces = script.surfaces.as_slice();
    let mut list = Vec::new(alloc);
    for (at, part) in journal.surfaces.as_slice().iter().enumerate() {
        list.push(frames_on(alloc, &surfaces[at], part)?)?;
    }
    Ok(list)
}

/// Writes the line of a frame that changed.
fn write_change<K: Sink>(out: &mut K, change: &FrameChange) -> Result<(), Failed>
    ensures { Writes (K.sink_view out.old) (K.sink_view out.new) (change_line change.now) result }
{
    write_pieces(
        out,
        &[
            Piece::Text(b"frame "),
            Piece::Number(change.tag.into()),
            Piece::Text(b" "),
            Piece::Signed(change.frame.origin.x),
            Piece::Text(b" "),
            Piece::Signed(change.frame.origin.y),
            Piece::Text(b" "),
            Piece::Signed(change.frame.size.width),
            Piece::Text(b" "),
            Piece::Signed(change.frame.size.height),
            Piece::Text(b"\n"),
        ],
    )
}

/// Writes the lines of the frames that changed.
#[tactic(auto, using(byte_ports::proofs::Joined::whole_none))]
fn write_changes<K: Sink>(out: &mut K, changes: &[FrameChange]) -> Result<(), Failed>
    ensures { Writes (K.sink_view out.old) (K.sink_view out.new) (flat_map change_line changes.now) result }
{
    for change in changes {
        write_change(out, change)?;
    }
    Ok(())
}

/// Writes the line of a mount, and the frames that it changed.
fn write_mount<K: Sink>(out: &mut K, mount: &MountFrames) -> Result<(), Failed>
    ensures { Writes (K.sink_view out.old) (K.sink_view out.new) (mount_frames_text mount.now) result }
{
    write_pieces(
        out,
        &[
            Piece::Text(b"mount "),
            Piece::Number(mount.base),
            Piece::Text(b" "),
            Piece::Number(mount.to),
            Piece::Text(b"\n"),
        ],
    )?;
    write_changes(out, mount.changes.as_slice())
}

/// Writes the mounts of a surface.
#[tactic(auto, using(byte_ports::proofs::Joined::whole_none))]
fn write_mounts<K: Sink>(out: &mut K, mounts: &[MountFrames]) -> Result<(), Failed>
    ensures { Writes (K.sink_view out.old) (K.sink_view out.new) (flat_map mount_frames_text mounts.now) result }
{
    for mount in mounts {
        write_mount(out, mount)?;
    }
    Ok(())
}

/// Writes the line of a surface, and its mounts.
fn write_surface<K: Sink>(out: &mut K, surface: &SurfaceFrames) -> Result<(), Failed>
    ensures { Writes (K.sink_view out.old) (K.sink_view out.new) (surface_frames_text surface.now) result }
{
    write_tag_line(out, b"surface", surface.id)?;
    write_mounts(out, surface.mounts.as_slice())
}

/// Writes all surfaces.
#[tactic(auto, using(byte_ports::proofs::Joined::whole_none))]
fn write_surfaces<K: Sink>(out: &mut K, surfaces: &[SurfaceFrames]) -> Result<(), Failed>
    ensures { Writes (K.sink_view out.old) (K.sink_view out.new) (flat_map surface_frames_text surfaces.now) result }
{
    for surface in surfaces {
        write_surface(out, surface)?;
    }
    Ok(())
}

impl Text for Frames {
    ghost text = { λ frames. all_frames_text frames.surfaces.items };

    ghost is_ready = { λ frames. Unit {0} };

    fn write<K: Sink>(&self, out: &mut K) -> Result<(), Failed> {
        write_whole(out, b"frames\n")?;
        write_surfaces(out, self.surfaces.as_slice())?;
        write_whole(out, b"end\n")
    }
}

/// Reads a script from the source, runs it, and writes to `out` which frames its mounts changed.
fn answer_frames<S: Source, K: Sink>(
    alloc: Global,
    made: &mut Made,
    source: &mut S,
    out: &mut K,
) -> Status
    ensures { FramesEnd (S.source_view source.old) (S.source_view source.new) (K.sink_view out.old) (K.sink_view out.new) result }
{
    let script = match script_from(alloc, source) {
        Ok(script) => script,
        Err(status) => return status,
    };
    let Ok(journal) = run_turns(alloc, made, &script) else {
        return Status::Memory;
    };
    journals_of_turns_are_legal();
    let Ok(surfaces) = frames_of(alloc, &script, &journal) else {
        return Status::Memory;
    };
    write_text(&Frames { surfaces }, out)
}

/// Reads a script from the source, runs it by its list of turns, and writes to `out` which frames of host
/// views each mount changed.
///
/// It waits for nobody and always returns. Every status but `Done` is told in a line on `err`;
/// where that fails, the status stays.
pub fn fabric_frames<S: Source, K: Sink, E: Sink>(
    alloc: Global,
    made: &mut Made,
    source: &mut S,
    out: &mut K,
    err: &mut E,
) -> Status
    ensures frames { FramesEnd (S.source_view source.old) (S.source_view source.new) (K.sink_view out.old) (K.sink_view out.new) result }
    ensures err { Tells (E.sink_view err.old) (E.sink_view err.new) (status_line result) }
{
    let status = answer_frames(alloc, made, source, out);
    told(err, status)
}
