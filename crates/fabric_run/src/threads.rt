//! The command `run`: a script is read, run on threads, and reported.

ghost use Rattle.fabric_run.specs.Commands.{RunEnds};
ghost use Rattle.fabric_run.specs.Texts.{Tells, status_line};

use crate::reading::script_from;
use crate::reporting::Report;
use crate::status::Status;
use crate::texts::told;
use crate::writing::write_text;
use byte_ports::{Sink, Source};
use run_engine::{Gate, run_threads};
use std::alloc::Global;
use std::sync::Wait;
use std::thread::Threads;

/// Reads a script from the source, runs it on threads, and writes the report to `out`.
fn answer_run<R: Threads + Wait + Sync, S: Source, K: Sink, G: Gate + Sync>(
    rt: &R,
    alloc: Global,
    source: &mut S,
    out: &mut K,
    gate: &G,
) -> Status
    ensures { RunEnds (S.source_view source.old) (S.source_view source.new) (K.sink_view out.old) (K.sink_view out.new) result }
{
    let script = match script_from(alloc, source) {
        Ok(script) => script,
        Err(status) => return status,
    };
    let Ok(journal) = run_threads(rt, alloc, &script, gate) else {
        return Status::Memory;
    };
    write_text(&Report { journal }, out)
}

/// Reads a script from the source, runs it on threads, each actor on one of its own where one can be
/// started, and writes the report to `out`. Its list of turns is not used.
///
/// What is said holds if it returns. Every status but `Done` is told in a line on `err`; where that
/// fails, the status stays.
pub fn fabric_run<R: Threads + Wait + Sync, S: Source, K: Sink, E: Sink, G: Gate + Sync>(
    rt: &R,
    alloc: Global,
    source: &mut S,
    out: &mut K,
    err: &mut E,
    gate: &G,
) -> Status
    ensures run { RunEnds (S.source_view source.old) (S.source_view source.new) (K.sink_view out.old) (K.sink_view out.new) result }
    ensures err { Tells (E.sink_view err.old) (E.sink_view err.new) (status_line result) }
{
    let status = answer_run(rt, alloc, source, out, gate);
    told(err, status)
}
