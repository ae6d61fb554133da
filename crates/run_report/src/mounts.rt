//! The mounts of a surface with their mutations, and the views that stand at the end, a line each.

ghost use Rattle.std.specs.Prelude.{◌+◌, ◌<◌, map, length, All};
ghost use Rattle.byte_ports.specs.Sinks.{Writes};
ghost use Rattle.host_views.specs.Plain.{plain_mutation, plain_placed};
ghost use Rattle.run_report.specs.Journal.{plain_actor_part, plain_mount, plain_surface_part};
ghost use Rattle.run_report.specs.Named.{IsByActor, NamesActors};
ghost use Rattle.run_report.specs.TextParts.{AreMountedByActors, tagged_head, mutations_text, mount_head, transactions_text, placed_head, last_text, all_mounts_text};
ghost use Rattle.run_report.specs.Text.{tagged_text, mutation_text, by_text, mount_text, placed_text, mounts_text};

use crate::history::name_of;
use crate::journal::{ActorPart, MountPart, StepName, SurfacePart};
use crate::pieces::{Piece, write_pieces, write_tag_line, write_triple_line};
use crate::views::write_view_line;
use byte_ports::{Failed, Sink, write_whole};
use host_views::{HostView, Mutation, PlacedView};

/// Writes a word and a tag, before a view.
fn write_tagged_head<K: Sink>(sink: &mut K, word: &[u8], tag: u32) -> Result<(), Failed>
    ensures { Writes (K.sink_view sink.old) (K.sink_view sink.new) (tagged_head word.now tag) result }
{
    write_pieces(
        sink,
        &[
            Piece::Text(word),
            Piece::Text(b" "),
            Piece::Number(tag.into()),
            Piece::Text(b" "),
        ],
    )
}

/// Writes a word, a tag and a view.
fn write_tagged<K: Sink>(sink: &mut K, word: &[u8], tag: u32, view: &HostView) -> Result<(), Failed>
    ensures { Writes (K.sink_view sink.old) (K.sink_view sink.new) (tagged_text word.now tag view.now) result }
{
    write_tagged_head(sink, word, tag)?;
    write_view_line(sink, view)
}

/// Writes a mutation.
fn write_mutation<K: Sink>(sink: &mut K, mutation: &Mutation) -> Result<(), Failed>
    ensures { Writes (K.sink_view sink.old) (K.sink_view sink.new) (mutation_text (plain_mutation mutation.now)) result }
{
    match mutation {
        Mutation::Create { tag, view } => write_tagged(sink, b"create", *tag, view),
        Mutation::Delete { tag } => write_tag_line(sink, b"delete", *tag),
        Mutation::Insert { parent, tag, index } => {
            write_triple_line(sink, b"insert", (*parent, *tag, *index))
        }
        Mutation::Remove { parent, tag, index } => {
            write_triple_line(sink, b"remove", (*parent, *tag, *index))
        }
        Mutation::Update { tag, view } => write_tagged(sink, b"update", *tag, view),
    }
}

/// Writes some mutations.
#[tactic(auto, using(byte_ports::proofs::Joined::whole_none))]
fn write_mutations<K: Sink>(sink: &mut K, mutations: &[Mutation]) -> Result<(), Failed>
    ensures { Writes (K.sink_view sink.old) (K.sink_view sink.new) (mutations_text (map plain_mutation mutations.now)) result }
{
    for mutation in mutations {
        write_mutation(sink, mutation)?;
    }
    Ok(())
}

/// Writes from which revision to which a mount went.
fn write_mount_head<K: Sink>(sink: &mut K, base: u64, to: u64) -> Result<(), Failed>
    ensures { Writes (K.sink_view sink.old) (K.sink_view sink.new) (mount_head base to) result }
{
    write_pieces(
        sink,
        &[
            Piece::Text(b"transaction "),
            Piece::Number(base),
            Piece::Text(b" "),
            Piece::Number(to),
            Piece::Text(b" "),
        ],
    )
}

/// Writes by whom a mount was, to the end of the line.
fn write_by<K: Sink>(sink: &mut K, actors: &[ActorPart], by: Option<StepName>) -> Result<(), Failed>
    requires { IsByActor (length actors.now) by }
    ensures { Writes (K.sink_view sink.old) (K.sink_view sink.new) (by_text (map plain_actor_part actors.now) by) result }
{
    match by {
        None => write_whole(sink, b"closing\n"),
        Some(step) => write_pieces(
            sink,
            &[
                Piece::Text(b"by "),
                Piece::Text(name_of(actors, step.actor)),
                Piece::Text(b" "),
                Piece::Number(step.call.into()),
                Piece::Text(b"\n"),
            ],
        ),
    }
}

/// Writes a mount and its mutations.
fn write_mount<K: Sink>(sink: &mut K, actors: &[ActorPart], mount: &MountPart) -> Result<(), Failed>
    requires { IsByActor (length actors.now) mount.now.by }
    ensures { Writes (K.sink_view sink.old) (K.sink_view sink.new)
        (mount_text (map plain_actor_part actors.now) (plain_mount mount.now)) result }
{
    write_mount_head(sink, mount.base, mount.to)?;
    write_by(sink, actors, mount.by)?;
    write_mutations(sink, mount.mutations.as_slice())
}

/// Writes the mounts of a surface.
#[tactic(auto, using(byte_ports::proofs::Joined::whole_none))]
fn write_transactions<K: Sink>(
    sink: &mut K,
    actors: &[ActorPart],
    mounts: &[MountPart],
) -> Result<(), Failed>
    requires { AreMountedByActors (length actors.now) (map plain_mount mounts.now) }
    ensures { Writes (K.sink_view sink.old) (K.sink_view sink.new)
        (transactions_text (map plain_actor_part actors.now) (map plain_mount mounts.now)) result }
{
    for mount in mounts {
        write_mount(sink, actors, mount)?;
    }
    Ok(())
}

/// Writes where a view stands.
fn write_placed_head<K: Sink>(sink: &mut K, tag: u32, parent: u32, index: u32) -> Result<(), Failed>
    ensures { Writes (K.sink_view sink.old) (K.sink_view sink.new) (placed_head tag parent index) result }
{
    write_pieces(
        sink,
        &[
            Piece::Text(b"view "),
            Piece::Number(tag.into()),
            Piece::Text(b" in "),
            Piece::Number(parent.into()),
            Piece::Text(b" at "),
            Piece::Number(index.into()),
            Piece::Text(b" "),
        ],
    )
}

/// Writes a view at its place.
fn write_placed<K: Sink>(sink: &mut K, placed: &PlacedView) -> Result<(), Failed>
    ensures { Writes (K.sink_view sink.old) (K.sink_view sink.new) (placed_text (plain_placed placed.now)) result }
{
    write_placed_head(sink, placed.tag, placed.parent, placed.index)?;
    write_view_line(sink, &placed.view)
}

/// Writes the views that stand at the end.
#[tactic(auto, using(byte_ports::proofs::Joined::whole_none))]
fn write_last<K: Sink>(sink: &mut K, views: &[PlacedView]) -> Result<(), Failed>
    ensures { Writes (K.sink_view sink.old) (K.sink_view sink.new) (last_text (map plain_placed views.now)) result }
{
    for placed in views {
        write_placed(sink, placed)?;
    }
    Ok(())
}

/// Writes the mounts of a surface, and its last views.
fn write_mounts<K: Sink>(
    sink: &mut K,
    actors: &[ActorPart],
    part: &SurfacePart,
) -> Result<(), Failed>
    requires { NamesActors (length actors.now) (plain_surface_part part.now) }
    ensures { Writes (K.sink_view sink.old) (K.sink_view sink.new)
        (mounts_text (map plain_actor_part actors.now) (plain_surface_part part.now)) result }
{
    let mounts = part.mounts.as_slice();
    let views = part.last.as_slice();
    write_tag_line(sink, b"mounts", part.id)?;
    write_transactions(sink, actors, mounts)?;
    write_tag_line(sink, b"views", part.id)?;
    write_last(sink, views)
}

/// Writes the mounts and last views of each surface.
#[tactic(auto, using(byte_ports::proofs::Joined::whole_none))]
pub(crate) fn write_all_mounts<K: Sink>(
    sink: &mut K,
    actors: &[ActorPart],
    parts: &[SurfacePart],
) -> Result<(), Failed>
    requires { All (NamesActors (length actors.now)) (map plain_surface_part parts.now) }
    ensures { Writes (K.sink_view sink.old) (K.sink_view sink.new)
        (all_mounts_text (map plain_actor_part actors.now) (map plain_surface_part parts.now)) result }
{
    for part in parts {
        write_mounts(sink, actors, part)?;
    }
    Ok(())
}
