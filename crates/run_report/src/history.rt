//! The admitted commits of a surface, a line each.

ghost use Rattle.std.specs.Prelude.{◌≡◌, ◌<◌, map, length, All};
ghost use Rattle.byte_ports.specs.Sinks.{Writes};
ghost use Rattle.tree_revision.specs.Records.{plain_op, plain_record};
ghost use Rattle.run_report.specs.Journal.{plain_actor_part, plain_surface_part};
ghost use Rattle.run_report.specs.Named.{NamesActors};
ghost use Rattle.run_report.specs.TextParts.{AreByActors, records_text, histories_text};
ghost use Rattle.run_report.specs.Text.{op_word_of, name_at, record_text, history_text};

use crate::journal::{ActorPart, SurfacePart};
use crate::pieces::{Piece, write_pieces, write_tag_line};
use byte_ports::{Failed, Sink};
use tree_revision::{Op, Record};

/// The word of a change.
fn op_word(op: &Op) -> &'static [u8]
    ensures { result.now ≡ op_word_of (plain_op op.now) }
{
    match op {
        Op::Complete { .. } => b"complete",
        Op::State { .. } => b"state",
        Op::Props { .. } => b"props",
        Op::Size { .. } => b"size",
        Op::Stop => b"stop",
        Op::Suspend => b"suspend",
        Op::Resume => b"resume",
    }
}

/// The name of the actor of that number.
pub(crate) fn name_of(actors: &[ActorPart], actor: u32) -> &[u8]
    requires { actor < length actors.now }
    ensures { result.now ≡ name_at (map plain_actor_part actors.now) actor }
{
    actors[actor as usize].name.as_slice()
}

/// Writes an admitted commit.
fn write_record<K: Sink>(
    sink: &mut K,
    actors: &[ActorPart],
    number: u64,
    commit: &Record,
) -> Result<(), Failed>
    requires { commit.now.actor < length actors.now }
    ensures { Writes (K.sink_view sink.old) (K.sink_view sink.new)
        (record_text (map plain_actor_part actors.now) number (plain_record commit.now)) result }
{
    write_pieces(
        sink,
        &[
            Piece::Text(b"commit "),
            Piece::Number(number),
            Piece::Text(b" "),
            Piece::Text(name_of(actors, commit.actor)),
            Piece::Text(b" "),
            Piece::Number(commit.call.into()),
            Piece::Text(b" "),
            Piece::Text(op_word(&commit.op)),
            Piece::Text(b" held "),
            Piece::Number(commit.held),
            Piece::Text(b"\n"),
        ],
    )
}

/// Writes the commits of a surface, numbered from 1.
#[tactic(auto, using(byte_ports::proofs::Joined::whole_none))]
fn write_records<K: Sink>(
    sink: &mut K,
    actors: &[ActorPart],
    records: &[Record],
) -> Result<(), Failed>
    requires { AreByActors (length actors.now) (map plain_record records.now) }
    ensures { Writes (K.sink_view sink.old) (K.sink_view sink.new)
        (records_text (map plain_actor_part actors.now) (map plain_record records.now)) result }
{
    for (i, commit) in records.iter().enumerate() {
        write_record(sink, actors, i as u64 + 1, commit)?;
    }
    Ok(())
}

/// Writes a surface and its commits.
fn write_history<K: Sink>(
    sink: &mut K,
    actors: &[ActorPart],
    part: &SurfacePart,
) -> Result<(), Failed>
    requires { NamesActors (length actors.now) (plain_surface_part part.now) }
    ensures { Writes (K.sink_view sink.old) (K.sink_view sink.new)
        (history_text (map plain_actor_part actors.now) (plain_surface_part part.now)) result }
{
    write_tag_line(sink, b"surface", part.id)?;
    write_records(sink, actors, part.records.as_slice())
}

/// Writes each surface and its commits.
#[tactic(auto, using(byte_ports::proofs::Joined::whole_none))]
pub(crate) fn write_histories<K: Sink>(
    sink: &mut K,
    actors: &[ActorPart],
    parts: &[SurfacePart],
) -> Result<(), Failed>
    requires { All (NamesActors (length actors.now)) (map plain_surface_part parts.now) }
    ensures { Writes (K.sink_view sink.old) (K.sink_view sink.new)
        (histories_text (map plain_actor_part actors.now) (map plain_surface_part parts.now)) result }
{
    for part in parts {
        write_history(sink, actors, part)?;
    }
    Ok(())
}
