//! Laws of journals: what every run keeps, and when a report tells its journal.

ghost use Rattle.std.specs.Prelude.{◌≡◌, ℕ, ◌≤◌, ◌<◌, List, length, map, nat_eq, false, slice_get, Some, None};
ghost use Rattle.std.specs.List.{AllZip};
ghost use Rattle.shadow_frame.specs.declared.Size.{Size};
ghost use Rattle.tree_revision.specs.Records.{PlainRecord};
ghost use Rattle.tree_revision.specs.Script.{PlainAct, mount, PlainStep, PlainScript};
ghost use Rattle.tree_revision.specs.Sound.{IsSoundScript, IsWithinCounts};
ghost use Rattle.tree_revision.specs.Lawful.{IsLawful};
ghost use Rattle.tree_revision.specs.Ports.{BeginsWith};
ghost use Rattle.run_report.specs.declared.journal.StepPart.{StepPart};
ghost use Rattle.run_report.specs.Journal.{PlainMount, PlainJournal};
ghost use Rattle.run_report.specs.Mounts.{passages_by, last_to, mount_along};
ghost use Rattle.run_report.specs.Text.{report_text};
ghost use Rattle.run_report.specs.Machine.{SurfaceNow, ActorNow, after_hooked_event, journal_of_hooked_turns, journal_of_turns};
ghost use Rattle.run_report.specs.Shorthands.{trying};
ghost use Rattle.run_report.specs.Legal.{HasFormOf, IsHookLegal, IsLegal};
ghost use Rattle.run_report.specs.ActorLegal.{GoesThrough, PassagesFollowOn, MountsFollow, IsLegalSoFar, MayTakeEvent, IsLegalAfter, IsPutTogether, AreLegalAnswers, admitted_records, NamesItsEvent, NamesTheSame};
ghost use Rattle.tree_revision.specs.Wishes.{Wish, KeepsRange};
ghost use Rattle.run_report.specs.Ranges.{IsInRange};
ghost use Rattle.run_report.specs.Readable.{HasNames, IsReadable};

/// For every script whose actors have names of their own: two journals of it that have its form, in which each
/// admitted commit stands once, each actor named is one, and numbers and props are in range, are one journal
/// where they have the same report.
pub fn reports_tell_their_journals()
    ensures { (script : PlainScript) (a b : PlainJournal) → HasNames script → IsReadable script a → IsReadable script b
        → report_text a ≡ report_text b → a ≡ b }
{}

/// For every sound script within the counts, the numbers and props of each legal journal of it are in range.
pub fn legal_journals_are_in_range()
    ensures { (script : PlainScript) (journal : PlainJournal) → IsSoundScript script → IsWithinCounts script
        → IsLegal script journal → IsInRange journal }
{}

/// For every sound script within the counts, two legal journals of it are one journal where they have the same report.
pub fn reports_tell_legal_journals()
    ensures { (script : PlainScript) (a b : PlainJournal) → IsSoundScript script → IsWithinCounts script
        → IsLegal script a → IsLegal script b → report_text a ≡ report_text b → a ≡ b }
{}

/// For every sound script, and every wish that keeps changes in range: the journal of the script's turns, in which each
/// commit asks for what is wished of it, is legal for that wish.
pub fn journals_of_hooked_turns_are_legal()
    ensures { (wish : Wish) (script : PlainScript) → KeepsRange wish → IsSoundScript script
        → IsHookLegal wish script (journal_of_hooked_turns wish script) }
{}

/// For every sound script, the journal of its turns is legal.
pub fn journals_of_turns_are_legal()
    ensures { (script : PlainScript) → IsSoundScript script → IsLegal script (journal_of_turns script) }
{}

/// An actor that is legal so far stays so when the history grows, and with it what was reached.
pub fn longer_histories_keep_actors_legal()
    ensures { (wish : Wish) (first : Size) (id : ℕ) (records longer : List PlainRecord) (floor reached number : ℕ)
        (steps : List PlainStep) (actor : ActorNow) → BeginsWith longer records → floor ≤ reached
        → IsLegalSoFar wish first id records floor number steps actor
        → IsLegalSoFar wish first id longer reached number steps actor }
{}

/// One event keeps its actor legal on its surface, whatever number is reached from then on.
pub fn events_keep_actors_legal()
    ensures { (wish : Wish) (floor reached number : ℕ) (steps : List PlainStep) (step : PlainStep) (surface : SurfaceNow)
        (actor : ActorNow) → MayTakeEvent wish floor number steps step surface actor → length surface.records ≤ reached
        → IsLegalAfter wish reached number steps (after_hooked_event wish number step.act surface actor) }
{}

/// An offer that comes too late keeps its actor legal: a number above the one that it looked at was reached.
pub fn late_offers_keep_actors_legal()
    ensures { (wish : Wish) (first : Size) (id : ℕ) (records : List PlainRecord) (floor reached number : ℕ)
        (steps : List PlainStep) (step : PlainStep) (actor : ActorNow) (at : ℕ) → GoesThrough steps actor
        → slice_get actor.left 0 ≡ Some step → step.surface ≡ id → actor.looked ≡ Some at → at < reached
        → IsLegalSoFar wish first id records floor number steps actor
        → IsLegalSoFar wish first id records reached number steps (trying actor.tries None actor) }
{}

/// An event on another surface keeps its actor legal on this one.
pub fn events_elsewhere_keep_actors_legal()
    ensures { (wish : Wish) (first : Size) (id : ℕ) (records : List PlainRecord) (floor number : ℕ)
        (steps : List PlainStep) (step : PlainStep) (surface : SurfaceNow) (actor : ActorNow) → GoesThrough steps actor
        → slice_get actor.left 0 ≡ Some step → step.surface ≡ surface.id → nat_eq step.surface id ≡ false
        → IsLegalSoFar wish first id records floor number steps actor
        → IsLegalSoFar wish first id records floor number steps (after_hooked_event wish number step.act surface actor).actor }
{}

/// One event keeps its actor's passages on its surface, where a mount begins where the last of them leads.
pub fn events_keep_passages()
    ensures { (wish : Wish) (number : ℕ) (act : PlainAct) (surface : SurfaceNow) (actor : ActorNow)
        → PassagesFollowOn surface.id surface.records number actor.answers
        → (act ≡ mount → surface.base ≡ last_to (passages_by surface.id number actor.answers))
        → let after = after_hooked_event wish number act surface actor in
        PassagesFollowOn surface.id after.surface.records number after.actor.answers }
{}

/// Over a lawful history, mounts along an actor's passages follow them, and the views follow the mounts.
pub fn mounts_along_passages_follow()
    ensures { (first : Size) (id : ℕ) (entries : List PlainRecord) (number : ℕ) (answers : List StepPart)
        → IsLawful first entries → PassagesFollowOn id entries number answers
        → MountsFollow first id entries number answers (map (mount_along first entries) (passages_by id number answers)) }
{}

/// For every sound script: a journal of its form, each of whose parts is put together of what the actors keep, is legal.
pub fn parts_make_legal_journals()
    ensures { (wish : Wish) (script : PlainScript) → IsSoundScript script → (journal : PlainJournal) → HasFormOf script journal
        → AllZip (λ surface part. IsPutTogether wish script journal.actors surface.size part) script.surfaces journal.surfaces
        → IsHookLegal wish script journal }
{}

/// One event names what it did on its surface: an actor's looks rise by as often as it looked, and the records that its
/// admitted answers name are those before and the one by which the history grew.
pub fn events_name_what_they_did()
    ensures { (wish : Wish) (number : ℕ) (steps : List PlainStep) (step : PlainStep) (surface : SurfaceNow) (actor : ActorNow)
        → GoesThrough steps actor → slice_get actor.left 0 ≡ Some step → step.surface ≡ surface.id
        → NamesItsEvent wish number steps step surface actor (after_hooked_event wish number step.act surface actor) }
{}

/// An event on another surface changes nothing of what its actor names and holds on this one.
pub fn events_elsewhere_name_nothing()
    ensures { (wish : Wish) (id : ℕ) (entries : List PlainRecord) (number : ℕ) (steps : List PlainStep) (step : PlainStep)
        (surface : SurfaceNow) (actor : ActorNow) → GoesThrough steps actor
        → slice_get actor.left 0 ≡ Some step → step.surface ≡ surface.id → nat_eq step.surface id ≡ false
        → NamesTheSame wish id entries number steps actor (after_hooked_event wish number step.act surface actor).actor }
{}

/// The records that legal answers name are the same over a longer history.
pub fn longer_histories_keep_named_records()
    ensures { (wish : Wish) (first : Size) (id : ℕ) (records longer : List PlainRecord) (number : ℕ) (steps : List PlainStep)
        (answers : List StepPart) → BeginsWith longer records → AreLegalAnswers wish first id records number steps answers
        → admitted_records wish id longer number steps answers ≡ admitted_records wish id records number steps answers }
{}

/// An actor's mounts follow its passages over a longer lawful history, too.
pub fn longer_histories_keep_mounts()
    ensures { (first : Size) (id : ℕ) (records longer : List PlainRecord) (number : ℕ) (answers : List StepPart)
        (mounts : List PlainMount) → BeginsWith longer records → IsLawful first longer
        → MountsFollow first id records number answers mounts → MountsFollow first id longer number answers mounts }
{}
