//! The commands that make the script of a number: `make` writes it, `sweep` runs it and writes what it
//! came to.

ghost use Rattle.std.specs.Prelude.{◌≤◌, ◌++◌, codes};
ghost use Rattle.run_report.specs.Journal.{plain_journal};
ghost use Rattle.run_report.specs.Summary.{summary_text};
ghost use Rattle.fabric_run.specs.Commands.{MakeEnds, SweepEnds};
ghost use Rattle.fabric_run.specs.Texts.{Tells, status_line};

use crate::status::Status;
use crate::texts::told;
use crate::writing::{Text, write_text};
use byte_ports::{Failed, Sink, write_whole};
use run_engine::run_turns;
use run_report::laws::journals_of_turns_are_legal;
use run_report::{Journal, write_summary};
use script_read::{make_script, write_script};
use shadow_node::Made;
use std::alloc::Global;

/// A text and the end of its line.
#[derive(Drop)]
struct Line {
    text: Vec<u8>,
}

impl Text for Line {
    ghost text = { λ line. line.text.items ++ codes "\n" };

    ghost is_ready = { λ line. Unit {0} };

    fn write<K: Sink>(&self, out: &mut K) -> Result<(), Failed> {
        write_whole(out, self.text.as_slice())?;
        write_whole(out, b"\n")
    }
}

/// What the run of the script of a number came to.
#[derive(Drop)]
struct Summary {
    number: u32,
    journal: Journal,
}

impl Text for Summary {
    ghost text = { λ summary. summary_text summary.number (plain_journal summary.journal) };

    ghost is_ready = { λ summary. Unit {0} };

    fn write<K: Sink>(&self, out: &mut K) -> Result<(), Failed> {
        write_summary(self.number, &self.journal, out)
    }
}

/// Makes the script of a number, and writes it to `out`.
fn answer_make<K: Sink>(alloc: Global, number: u32, out: &mut K) -> Status
    requires { number ≤ 1000000 }
    ensures { MakeEnds number (K.sink_view out.old) (K.sink_view out.new) result }
{
    let Ok(script) = make_script(alloc, number) else {
        return Status::Memory;
    };
    let Ok(text) = write_script(alloc, &script) else {
        return Status::Memory;
    };
    write_text(&Line { text }, out)
}

/// Makes the script of a number, runs it, and writes what it came to to `out`.
fn answer_sweep<K: Sink>(alloc: Global, made: &mut Made, number: u32, out: &mut K) -> Status
    requires { number ≤ 1000000 }
    ensures { SweepEnds number (K.sink_view out.old) (K.sink_view out.new) result }
{
    let Ok(script) = make_script(alloc, number) else {
        return Status::Memory;
    };
    let Ok(journal) = run_turns(alloc, made, &script) else {
        return Status::Memory;
    };
    journals_of_turns_are_legal();
    write_text(&Summary { number, journal }, out)
}

/// Writes the script of a number to `out`, and a newline.
///
/// It waits for nobody and always returns. Every status but `Done` is told in a line on `err`;
/// where that fails, the status stays.
pub fn fabric_make<K: Sink, E: Sink>(alloc: Global, number: u32, out: &mut K, err: &mut E) -> Status
    requires { number ≤ 1000000 }
    ensures make { MakeEnds number (K.sink_view out.old) (K.sink_view out.new) result }
    ensures err { Tells (E.sink_view err.old) (E.sink_view err.new) (status_line result) }
{
    let status = answer_make(alloc, number, out);
    told(err, status)
}

/// Runs the script of a number by its list of turns, and writes what it came to to `out`.
///
/// It waits for nobody and always returns. Every status but `Done` is told in a line on `err`;
/// where that fails, the status stays.
pub fn fabric_sweep<K: Sink, E: Sink>(
    alloc: Global,
    made: &mut Made,
    number: u32,
    out: &mut K,
    err: &mut E,
) -> Status
    requires { number ≤ 1000000 }
    ensures sweep { SweepEnds number (K.sink_view out.old) (K.sink_view out.new) result }
    ensures err { Tells (E.sink_view err.old) (E.sink_view err.new) (status_line result) }
{
    let status = answer_sweep(alloc, made, number, out);
    told(err, status)
}
