//! The answers of each actor's steps, a line each.

ghost use Rattle.std.specs.Prelude.{◌+◌, ◌++◌, map};
ghost use Rattle.byte_ports.specs.Sinks.{Writes};
ghost use Rattle.run_report.specs.Journal.{plain_actor_part};
ghost use Rattle.run_report.specs.Text.{cause_text, answer_text, step_text, actor_text};
ghost use Rattle.run_report.specs.TextParts.{cancelled_head, step_head, steps_text, actor_line, actors_text};

use crate::journal::{ActorPart, StepPart};
use crate::pieces::{Piece, write_number_line, write_pair_line, write_pieces, write_tag_line};
use byte_ports::{Failed, Sink, write_whole};
use tree_revision::{Answer, Cancel};

/// Writes a cause to the end of its line.
fn write_cause<K: Sink>(sink: &mut K, cause: Cancel) -> Result<(), Failed>
    ensures { Writes (K.sink_view sink.old) (K.sink_view sink.new) (cause_text cause) result }
{
    match cause {
        Cancel::Unkept { tag } => write_tag_line(sink, b"1 Unkept", tag),
        Cancel::ChildOfLeaf { tag } => write_tag_line(sink, b"2 ChildOfLeaf", tag),
        Cancel::TwiceTag { tag } => write_tag_line(sink, b"3 TwiceTag", tag),
        Cancel::TooDeep => write_whole(sink, b"4 TooDeep\n"),
        Cancel::TooManyNodes => write_whole(sink, b"5 TooManyNodes\n"),
        Cancel::KindChanged { tag } => write_tag_line(sink, b"6 KindChanged", tag),
        Cancel::FamiliesFull => write_whole(sink, b"7 FamiliesFull\n"),
        Cancel::NotMounted { tag } => write_tag_line(sink, b"8 NotMounted", tag),
        Cancel::Stateless { tag } => write_tag_line(sink, b"9 Stateless", tag),
        Cancel::Stale { tag, count } => write_pair_line(sink, b"10 Stale", (tag.into(), count)),
    }
}

/// Writes where and after how many tries a step was cancelled, and why.
fn write_cancelled<K: Sink>(sink: &mut K, at: u64, tries: u64, cause: Cancel) -> Result<(), Failed>
    ensures { Writes (K.sink_view sink.old) (K.sink_view sink.new) (cancelled_head at tries ++ cause_text cause) result }
{
    write_pieces(
        sink,
        &[
            Piece::Text(b"cancelled "),
            Piece::Number(at),
            Piece::Text(b" tries "),
            Piece::Number(tries),
            Piece::Text(b" cause "),
        ],
    )?;
    write_cause(sink, cause)
}

/// Writes an answer to the end of its line.
fn write_answer<K: Sink>(sink: &mut K, answer: Answer) -> Result<(), Failed>
    ensures { Writes (K.sink_view sink.old) (K.sink_view sink.new) (answer_text answer) result }
{
    match answer {
        Answer::Held { at } => write_number_line(sink, b"held", at),
        Answer::Admitted { number, tries } => write_pieces(
            sink,
            &[
                Piece::Text(b"admitted "),
                Piece::Number(number),
                Piece::Text(b" tries "),
                Piece::Number(tries),
                Piece::Text(b"\n"),
            ],
        ),
        Answer::Cancelled { at, tries, cause } => write_cancelled(sink, at, tries, cause),
        Answer::Mounted { base, to } => write_pair_line(sink, b"mounted", (base, to)),
        Answer::Empty { at } => write_number_line(sink, b"empty", at),
    }
}

/// Writes the beginning of a step's line.
fn write_step_head<K: Sink>(sink: &mut K, call: u64, surface: u32) -> Result<(), Failed>
    ensures { Writes (K.sink_view sink.old) (K.sink_view sink.new) (step_head call surface) result }
{
    write_pieces(
        sink,
        &[
            Piece::Text(b"step "),
            Piece::Number(call),
            Piece::Text(b" on "),
            Piece::Number(surface.into()),
            Piece::Text(b" "),
        ],
    )
}

/// Writes a step and its answer.
fn write_step<K: Sink>(sink: &mut K, call: u64, step: StepPart) -> Result<(), Failed>
    ensures { Writes (K.sink_view sink.old) (K.sink_view sink.new) (step_text call step) result }
{
    write_step_head(sink, call, step.surface)?;
    write_answer(sink, step.answer)
}

/// Writes the steps of an actor, numbered from 0.
#[tactic(auto, using(byte_ports::proofs::Joined::whole_none))]
fn write_steps<K: Sink>(sink: &mut K, steps: &[StepPart]) -> Result<(), Failed>
    ensures { Writes (K.sink_view sink.old) (K.sink_view sink.new) (steps_text steps.now) result }
{
    for (i, step) in steps.iter().enumerate() {
        write_step(sink, i as u64, *step)?;
    }
    Ok(())
}

/// Writes the line of an actor's name.
fn write_actor_line<K: Sink>(sink: &mut K, part: &ActorPart) -> Result<(), Failed>
    ensures { Writes (K.sink_view sink.old) (K.sink_view sink.new) (actor_line part.now.name) result }
{
    write_pieces(
        sink,
        &[
            Piece::Text(b"actor "),
            Piece::Text(part.name.as_slice()),
            Piece::Text(b"\n"),
        ],
    )
}

/// Writes an actor and its steps.
fn write_actor<K: Sink>(sink: &mut K, part: &ActorPart) -> Result<(), Failed>
    ensures { Writes (K.sink_view sink.old) (K.sink_view sink.new) (actor_text (plain_actor_part part.now)) result }
{
    write_actor_line(sink, part)?;
    write_steps(sink, part.steps.as_slice())
}

/// Writes each actor and its steps.
#[tactic(auto, using(byte_ports::proofs::Joined::whole_none))]
pub(crate) fn write_actors<K: Sink>(sink: &mut K, parts: &[ActorPart]) -> Result<(), Failed>
    ensures { Writes (K.sink_view sink.old) (K.sink_view sink.new) (actors_text (map plain_actor_part parts.now)) result }
{
    for part in parts {
        write_actor(sink, part)?;
    }
    Ok(())
}
