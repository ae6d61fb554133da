//! Laws of commits: the tries of a commit, and what a pass saw.

ghost use Rattle.std.specs.Prelude.{◌≡◌, ℕ, ◌+◌, ◌-◌, ◌≤◌, length, Option, Some, None};
ghost use Rattle.tree_revision.specs.Records.{PlainRecord};
ghost use Rattle.tree_revision.specs.Settled.{KeptRevision};
ghost use Rattle.tree_revision.specs.Wishes.{Wish};
ghost use Rattle.tree_revision.specs.Ports.{Told, BeginsWith, Lasts};
ghost use Rattle.tree_revision.specs.declared.record.Cancel.{Cancel};
ghost use Rattle.commit_core.specs.declared.committer.Progress.{Progress};
ghost use Rattle.commit_core.specs.declared.plain_parts.PlainSpine.{PlainSpine};
ghost use Rattle.commit_core.specs.declared.plain_parts.PlainPass.{PlainPass};
ghost use Rattle.commit_core.specs.PlainPorts.{records_of, IsToldOf};
ghost use Rattle.commit_core.specs.Commit.{PlainCommit, entry_under_way, looked_at};
ghost use Rattle.commit_core.specs.Events.{IsReadyFor, IsEvent, IsCancelledLook, IsAdmittedOffer};
ghost use Rattle.commit_core.specs.Tries.{clear_numbers, TriesHaveClearNumbers};

/// Whatever is wished of it, each try of a commit has a number of its own at which it had no cause, from any number on that
/// was seen before its first look: so it is at the start, so it stays over each event and whatever
/// else the port comes to, and so it is told at the end.
pub fn tries_have_clear_numbers()
    ensures starts { (wish : Wish) (from : ℕ) (told : Told) (commit : PlainCommit) → commit.tries ≡ 0 → looked_at commit ≡ None → TriesHaveClearNumbers wish from told commit }
    ensures lasts { (wish : Wish) (old new : Told) (commit : PlainCommit) (from : ℕ) → Lasts old new → TriesHaveClearNumbers wish from old commit → TriesHaveClearNumbers wish from new commit }
    ensures goes_on { (wish : Wish) (old new : Told) (before after : PlainCommit) (progress : Progress) (from : ℕ) → from ≤ length old.seen → Lasts old new → IsEvent wish old new before after progress → TriesHaveClearNumbers wish from old before → TriesHaveClearNumbers wish from new after }
    ensures cancelled { (wish : Wish) (old new : Told) (before after : PlainCommit) (number count from : ℕ) (found : Cancel) (entry : PlainRecord) → Lasts old new → IsCancelledLook wish old new before after number count found → TriesHaveClearNumbers wish from old before → entry_under_way before ≡ Some entry → (1 ≤ count) × (count ≤ clear_numbers wish old.first new.seen entry from number + 1) }
    ensures admitted { (wish : Wish) (old new : Told) (before after : PlainCommit) (number count from : ℕ) (share : Option KeptRevision) → from ≤ length old.seen → Lasts old new → (event : IsAdmittedOffer wish old new before after number count share) → TriesHaveClearNumbers wish from old before → (1 ≤ count) × (count ≤ clear_numbers wish old.first new.seen event.entry from (number - 1) + 1) }
{}

/// A commit that is ready stays so as the port goes on: one that is to look whatever comes, and one
/// that is to be offered while nothing more is seen.
pub fn a_ready_commit_stays_ready()
    ensures looks { (wish : Wish) (old new : Told) (commit : PlainCommit) → Lasts old new → looked_at commit ≡ None → IsReadyFor wish old commit → IsReadyFor wish new commit }
    ensures offers { (wish : Wish) (old new : Told) (commit : PlainCommit) → Lasts old new → new.seen ≡ old.seen → IsReadyFor wish old commit → IsReadyFor wish new commit }
{}

/// As others commit on a history in one hand, a pass has seen the same, and no count falls.
pub fn a_pass_keeps_what_it_saw()
    ensures { (earlier later : PlainSpine) (pass : PlainPass) (old new : Told) → pass.floor ≤ length (records_of earlier) → BeginsWith (records_of later) (records_of earlier) → later.first ≡ earlier.first → later.room ≡ earlier.room → IsToldOf earlier pass old → IsToldOf later pass new → (new.seen ≡ old.seen) × Lasts old new }
{}
