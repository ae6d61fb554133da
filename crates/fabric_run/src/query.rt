//! The command `query`: a script is read, run by its list of turns, and it is told where a node is.

ghost use Rattle.std.specs.Prelude.{◌≡◌, ◌≤◌, ◌≤ℤ◌, ◌+ℤ◌, pos, IfOk, map};
ghost use Rattle.std.specs.List.{flat_map};
ghost use Rattle.byte_ports.specs.Sinks.{Writes};
ghost use Rattle.tree_query.specs.Bounds.{IsPlaceWithin};
ghost use Rattle.tree_query.specs.Flattening.{IsPointInRange};
ghost use Rattle.tree_query.specs.Rebuilt.{IsRebuildOf};
ghost use Rattle.tree_revision.specs.Records.{plain_record};
ghost use Rattle.tree_revision.specs.Sound.{IsSoundScript};
ghost use Rattle.script_read.specs.Plain.{plain_script, plain_surface};
ghost use Rattle.run_report.specs.Journal.{plain_journal, plain_surface_part};
ghost use Rattle.run_report.specs.Legal.{IsLegal};
ghost use Rattle.run_report.specs.Pieces.{piece_text};
ghost use Rattle.fabric_run.specs.Commands.{QueryEnds};
ghost use Rattle.fabric_run.specs.Query.{finding_line, finding_on, findings_text, hit_text, middle_along, middle_of, place_in};
ghost use Rattle.fabric_run.specs.Steps.{MayBeRebuilt};
ghost use Rattle.fabric_run.specs.Surfaces.{surfaces_in};
ghost use Rattle.fabric_run.specs.Texts.{Tells, status_line};

use crate::reading::script_from;
use crate::status::Status;
use crate::texts::told;
use crate::writing::{Text, write_text};
use byte_ports::{Failed, Sink, Source, write_whole};
use run_engine::run_turns;
use run_report::laws::journals_of_turns_are_legal;
use run_report::{Journal, Piece, SurfacePart, write_pieces, write_tag_line};
use script_read::{Script, SurfacePlan};
use shadow_frame::{Point, Rect, Size};
use shadow_node::Made;
use std::alloc::{AllocError, Global};
use tree_query::{Rebuild, hit, measure};
use tree_revision::{Record, Revision};
use view_flatten::flatten;

/// Where a node is.
#[derive(Clone, Copy)]
pub(crate) struct Place {
    /// Its rectangle on the surface.
    pub(crate) frame: Rect,
    /// The tag of the topmost view over the middle of it.
    pub(crate) hit: Option<u32>,
}

/// What a query finds on a surface.
#[derive(Clone, Copy)]
pub(crate) struct Finding {
    /// The surface's id.
    pub(crate) id: u32,
    /// How many commits there were.
    pub(crate) at: u64,
    /// Where the node is, if it is mounted.
    pub(crate) place: Option<Place>,
}

/// What a query for a tag finds on the surfaces of a run.
#[derive(Drop)]
struct Query {
    tag: u32,
    findings: Vec<Finding>,
}

/// The middle of a side that begins there, rounded down.
#[tactic(auto, using(crate::proofs::Halves::half_within))]
fn middle_along(start: i64, side: i64) -> i64
    requires low { pos 0 ≤ℤ (start +ℤ pos 5040000000) }
    requires high { start ≤ℤ pos 5040000000 }
    ensures middle { result ≡ middle_along start side }
    ensures low { pos 0 ≤ℤ (result +ℤ pos 5000000000000000000) }
    ensures high { result ≤ℤ pos 5000000000000000000 }
{
    start + side / 2
}

/// The middle of a node's rectangle, rounded down.
fn middle_of(frame: Rect) -> Point
    requires { IsPlaceWithin 5040000000 frame.origin }
    ensures middle { result ≡ middle_of frame }
    ensures range { IsPointInRange result }
{
    Point {
        x: middle_along(frame.origin.x, frame.size.width),
        y: middle_along(frame.origin.y, frame.size.height),
    }
}

/// Where the node of a tag is in a revision, if it is mounted there.
fn place_in(alloc: Global, tag: u32, revision: &Revision) -> Result<Option<Place>, AllocError>
    ensures { IfOk result (λ place. place ≡ place_in tag revision.now.newest.forest) }
{
    let forest = revision.forest();
    let Some(frame) = measure(forest, tag, 0) else {
        return Ok(None);
    };
    let tree = flatten(alloc, forest)?;
    let hit = hit(alloc, &tree, middle_of(frame))?;
    Ok(Some(Place { frame, hit }))
}

/// The revisions of a surface of that first size, one after each of its records.
fn rebuilt(
    alloc: Global,
    made: &mut Made,
    first: Size,
    records: &[Record],
) -> Result<Rebuild, AllocError>
    requires { MayBeRebuilt first (map plain_record records.now) }
    ensures { IfOk result (λ rebuild. IsRebuildOf first rebuild (map plain_record records.now)) }
{
    let mut rebuild = Rebuild::start(alloc, first)?;
    for entry in records {
        // Nothing cancels a record of a lawful history.
        let _none = rebuild.push(made, entry)?;
    }
    Ok(rebuild)
}

/// What a query for a tag finds on a surface, by its whole history.
fn finding_on(
    alloc: Global,
    made: &mut Made,
    tag: u32,
    surface: &SurfacePlan,
    part: &SurfacePart,
) -> Result<Finding, AllocError>
    requires { MayBeRebuilt surface.now.size (plain_surface_part part.now).records }
    ensures { IfOk result (λ finding. finding ≡ finding_on tag (plain_surface surface.now, plain_surface_part part.now)) }
{
    let rebuild = rebuilt(alloc, made, surface.size, part.records.as_slice())?;
    let at = rebuild.len();
    let Some(revision) = rebuild.at(at) else {
        unreachable!()
    };
    let place = place_in(alloc, tag, revision)?;
    Ok(Finding {
        id: surface.id,
        at,
        place,
    })
}

/// What a query for a tag finds on each surface of a run.
fn findings_of(
    alloc: Global,
    made: &mut Made,
    tag: u32,
    script: &Script,
    journal: &Journal,
) -> Result<Vec<Finding>, AllocError>
    requires sound { IsSoundScript (plain_script script.now) }
    requires legal { IsLegal (plain_script script.now) (plain_journal journal.now) }
    ensures { IfOk result (λ findings. findings.items ≡ map (finding_on tag) (surfaces_in (plain_script script.now) (plain_journal journal.now))) }
{
    let surfaces = script.surfaces.as_slice();
    let mut findings = Vec::new(alloc);
    for (at, part) in journal.surfaces.as_slice().iter().enumerate() {
        findings.push(finding_on(alloc, made, tag, &surfaces[at], part)?)?;
    }
    Ok(findings)
}

/// What is written of a hit.
fn hit_piece(hit: Option<u32>) -> Piece<'static>
    ensures { piece_text result ≡ hit_text hit }
{
    match hit {
        Some(tag) => Piece::Number(tag.into()),
        None => Piece::Text(b"none"),
    }
}

/// Writes the line of a surface.
fn write_finding<K: Sink>(out: &mut K, finding: &Finding) -> Result<(), Failed>
    ensures { Writes (K.sink_view out.old) (K.sink_view out.new) (finding_line finding.now) result }
{
    match finding.place {
        None => write_pieces(
            out,
            &[
                Piece::Text(b"surface "),
                Piece::Number(finding.id.into()),
                Piece::Text(b" at "),
                Piece::Number(finding.at),
                Piece::Text(b" absent\n"),
            ],
        ),
        Some(Place { frame, hit }) => write_pieces(
            out,
            &[
                Piece::Text(b"surface "),
                Piece::Number(finding.id.into()),
                Piece::Text(b" at "),
                Piece::Number(finding.at),
                Piece::Text(b" measure "),
                Piece::Signed(frame.origin.x),
                Piece::Text(b" "),
                Piece::Signed(frame.origin.y),
                Piece::Text(b" "),
                Piece::Signed(frame.size.width),
                Piece::Text(b" "),
                Piece::Signed(frame.size.height),
                Piece::Text(b" hit "),
                hit_piece(hit),
                Piece::Text(b"\n"),
            ],
        ),
    }
}

/// Writes the lines of all surfaces.
#[tactic(auto, using(byte_ports::proofs::Joined::whole_none))]
fn write_findings<K: Sink>(out: &mut K, findings: &[Finding]) -> Result<(), Failed>
    ensures { Writes (K.sink_view out.old) (K.sink_view out.new) (flat_map finding_line findings.now) result }
{
    for finding in findings {
        write_finding(out, finding)?;
    }
    Ok(())
}

impl Text for Query {
    ghost text = { λ query. findings_text query.tag query.findings.items };

    ghost is_ready = { λ query. Unit {0} };

    fn write<K: Sink>(&self, out: &mut K) -> Result<(), Failed> {
        write_tag_line(out, b"query", self.tag)?;
        write_findings(out, self.findings.as_slice())?;
        write_whole(out, b"end\n")
    }
}

/// Reads a script from the source, runs it, and writes where the node of a tag is to `out`.
fn answer_query<S: Source, K: Sink>(
    alloc: Global,
    made: &mut Made,
    number: u32,
    source: &mut S,
    out: &mut K,
) -> Status
    ensures { QueryEnds number (S.source_view source.old) (S.source_view source.new) (K.sink_view out.old) (K.sink_view out.new) result }
{
    let script = match script_from(alloc, source) {
        Ok(script) => script,
        Err(status) => return status,
    };
    let Ok(journal) = run_turns(alloc, made, &script) else {
        return Status::Memory;
    };
    journals_of_turns_are_legal();
    let Ok(findings) = findings_of(alloc, made, number, &script, &journal) else {
        return Status::Memory;
    };
    let tag = number;
    write_text(&Query { tag, findings }, out)
}

/// Reads a script from the source, runs it by its list of turns, and writes to `out` where the node of
/// that tag is on each surface after all its commits, and what lies over the middle of it.
///
/// It waits for nobody and always returns. Every status but `Done` is told in a line on `err`;
/// where that fails, the status stays.
pub fn fabric_query<S: Source, K: Sink, E: Sink>(
    alloc: Global,
    made: &mut Made,
    number: u32,
    source: &mut S,
    out: &mut K,
    err: &mut E,
) -> Status
    requires { number ≤ 1000000 }
    ensures query { QueryEnds number (S.source_view source.old) (S.source_view source.new) (K.sink_view out.old) (K.sink_view out.new) result }
    ensures err { Tells (E.sink_view err.old) (E.sink_view err.new) (status_line result) }
{
    let status = answer_query(alloc, made, number, source, out);
    told(err, status)
}
