//! What a run came to, in numbers.

ghost use Rattle.std.specs.Prelude.{◌≡◌, map, sum_by, count_by, length};
ghost use Rattle.byte_ports.specs.Sinks.{Writes};
ghost use Rattle.run_report.specs.Journal.{plain_mount, plain_actor_part, plain_surface_part, plain_journal};
ghost use Rattle.run_report.specs.Summary.{is_cancelled_on as is_cancelled_on_of, cancelled_on as cancelled_on_of, counts_of as counts_of_of, counts_line, surface_line, surface_lines, summary_text};

use crate::journal::{ActorPart, Journal, MountPart, StepPart, SurfacePart};
use crate::pieces::{Piece, write_pieces, write_tag_line};
use byte_ports::{Failed, Sink, write_whole};
use itoa::Buffer;
use tree_revision::Answer;

/// Whether a step was cancelled on the surface of that id.
fn is_cancelled_on(id: u32, part: StepPart) -> bool
    ensures { result ≡ is_cancelled_on_of id part }
{
    matches!(&part.answer, Answer::Cancelled { .. }) && part.surface == id
}

/// How many of these steps were cancelled on the surface of that id.
fn count_cancelled(id: u32, steps: &[StepPart]) -> usize
    ensures { result ≡ count_by (is_cancelled_on_of id) steps.now }
{
    let mut count = 0;
    for part in steps {
        if is_cancelled_on(id, *part) {
            count += 1;
        }
    }
    count
}

/// How many steps of all actors were cancelled on the surface of that id.
fn cancelled_on(id: u32, actors: &[ActorPart]) -> u128
    ensures { result ≡ cancelled_on_of id (map plain_actor_part actors.now) }
{
    let mut total = 0;
    for actor in actors {
        total += count_cancelled(id, actor.steps.as_slice()) as u128;
    }
    total
}

/// How many mutations all mounts have.
fn mutation_count(mounts: &[MountPart]) -> u128
    ensures { result ≡ sum_by (λ mount. length mount.mutations) (map plain_mount mounts.now) }
{
    let mut total = 0;
    for mount in mounts {
        total += mount.mutations.len() as u128;
    }
    total
}

/// What a run came to on a surface.
#[derive(Clone, Copy)]
pub(crate) struct SurfaceCounts {
    commits: u64,
    cancelled: u128,
    transactions: u64,
    mutations: u128,
    views: u64,
}

/// What a run of these actors came to on a surface.
fn counts_of(actors: &[ActorPart], part: &SurfacePart) -> SurfaceCounts
    ensures { result ≡ counts_of_of (map plain_actor_part actors.now) (plain_surface_part part.now) }
{
    SurfaceCounts {
        commits: part.records.len() as u64,
        cancelled: cancelled_on(part.id, actors),
        transactions: part.mounts.len() as u64,
        mutations: mutation_count(part.mounts.as_slice()),
        views: part.last.len() as u64,
    }
}

/// Writes the line of a surface of that id.
fn write_counts<K: Sink>(sink: &mut K, id: u32, counts: SurfaceCounts) -> Result<(), Failed>
    ensures { Writes (K.sink_view sink.old) (K.sink_view sink.new) (counts_line id counts) result }
{
    let mut cancelled = Buffer::new();
    let mut mutations = Buffer::new();
    write_pieces(
        sink,
        &[
            Piece::Text(b"surface "),
            Piece::Number(id.into()),
            Piece::Text(b" commits "),
            Piece::Number(counts.commits),
            Piece::Text(b" cancelled "),
            Piece::Text(cancelled.format(counts.cancelled).as_bytes()),
            Piece::Text(b" transactions "),
            Piece::Number(counts.transactions),
            Piece::Text(b" mutations "),
            Piece::Text(mutations.format(counts.mutations).as_bytes()),
            Piece::Text(b" views "),
            Piece::Number(counts.views),
            Piece::Text(b"\n"),
        ],
    )
}

/// Writes the line of a surface.
fn write_surface_line<K: Sink>(
    sink: &mut K,
    actors: &[ActorPart],
    part: &SurfacePart,
) -> Result<(), Failed>
    ensures { Writes (K.sink_view sink.old) (K.sink_view sink.new)
        (surface_line (map plain_actor_part actors.now) (plain_surface_part part.now)) result }
{
    write_counts(sink, part.id, counts_of(actors, part))
}

/// Writes the line of each surface.
#[tactic(auto, using(byte_ports::proofs::Joined::whole_none))]
fn write_surface_lines<K: Sink>(
    sink: &mut K,
    actors: &[ActorPart],
    parts: &[SurfacePart],
) -> Result<(), Failed>
    ensures { Writes (K.sink_view sink.old) (K.sink_view sink.new)
        (surface_lines (map plain_actor_part actors.now) (map plain_surface_part parts.now)) result }
{
    for part in parts {
        write_surface_line(sink, actors, part)?;
    }
    Ok(())
}

/// Writes what a run came to, under a number: for each surface how many commits were admitted and how
/// many cancelled, how many transactions there were, the closing one too, with how many mutations, and
/// how many views stand at the end.
///
/// It takes no memory. After `Failed` the first bytes of the summary are written, and the sink's count
/// of faults rose.
pub fn write_summary<K: Sink>(number: u32, journal: &Journal, out: &mut K) -> Result<(), Failed>
    ensures { Writes (K.sink_view out.old) (K.sink_view out.new) (summary_text number (plain_journal journal.now)) result }
{
    write_tag_line(out, b"sweep", number)?;
    write_surface_lines(out, journal.actors.as_slice(), journal.surfaces.as_slice())?;
    write_whole(out, b"end\n")
}
