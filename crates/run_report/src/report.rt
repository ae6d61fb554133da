//! A whole report.

ghost use Rattle.std.specs.Prelude.{map, length, All};
ghost use Rattle.byte_ports.specs.Sinks.{Writes};
ghost use Rattle.run_report.specs.Journal.{plain_actor_part, plain_surface_part, plain_journal};
ghost use Rattle.run_report.specs.Named.{NamesActors, NamesItsActors};
ghost use Rattle.run_report.specs.Text.{report_text};

use crate::answers::write_actors;
use crate::history::write_histories;
use crate::journal::{ActorPart, Journal, SurfacePart};
use crate::mounts::write_all_mounts;
use byte_ports::{Failed, Sink, write_whole};

/// Writes the report of a run of these surfaces and actors.
fn write_parts<K: Sink>(
    sink: &mut K,
    surfaces: &[SurfacePart],
    actors: &[ActorPart],
) -> Result<(), Failed>
    requires { All (NamesActors (length actors.now)) (map plain_surface_part surfaces.now) }
    ensures { Writes (K.sink_view sink.old) (K.sink_view sink.new)
        (report_text (record { surfaces = map plain_surface_part surfaces.now; actors = map plain_actor_part actors.now })) result }
{
    write_whole(sink, b"report 1\n")?;
    write_histories(sink, actors, surfaces)?;
    write_actors(sink, actors)?;
    write_all_mounts(sink, actors, surfaces)?;
    write_whole(sink, b"end\n")
}

/// Writes the report of a run: each surface's commits, each actor's answers, and each surface's
/// mounts and last views. The journal's records and mounts name only actors that it has.
///
/// It takes no memory. After `Failed` the first bytes of the report are written, and the sink's count
/// of faults rose.
pub fn write_report<K: Sink>(journal: &Journal, out: &mut K) -> Result<(), Failed>
    requires { NamesItsActors (plain_journal journal.now) }
    ensures { Writes (K.sink_view out.old) (K.sink_view out.new) (report_text (plain_journal journal.now)) result }
{
    write_parts(out, journal.surfaces.as_slice(), journal.actors.as_slice())
}
