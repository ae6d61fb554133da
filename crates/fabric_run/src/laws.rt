//! What holds of every list of words.

ghost use Rattle.std.specs.Prelude.{◌≡◌, ◌≤◌, ℕ, Some, [], ◌∷◌, codes, decimal};
ghost use Rattle.fabric_run.specs.Words.{command_in};

use crate::words::Command;

/// The plain words of each command name it: `turns`, `run` or `frames` alone, and `make`, `sweep` or
/// `query` with a number of at most 1,000,000 in decimals without a leading zero.
#[tactic(auto, using(crate::proofs::NamedCommands::turns_named, crate::proofs::NamedCommands::run_named, crate::proofs::NamedCommands::make_named, crate::proofs::NamedCommands::sweep_named, crate::proofs::NamedCommands::query_named, crate::proofs::NamedCommands::frames_named))]
pub fn plain_words_name_their_commands()
    ensures turns { command_in (codes "turns" ∷ []) ≡ Some Command.Turns }
    ensures run { command_in (codes "run" ∷ []) ≡ Some Command.Run }
    ensures make { (number : ℕ) → number ≤ 1000000 → command_in (codes "make" ∷ decimal number ∷ []) ≡ Some (Command.Make number) }
    ensures sweep { (number : ℕ) → number ≤ 1000000 → command_in (codes "sweep" ∷ decimal number ∷ []) ≡ Some (Command.Sweep number) }
    ensures query { (number : ℕ) → number ≤ 1000000 → command_in (codes "query" ∷ decimal number ∷ []) ≡ Some (Command.Query number) }
    ensures frames { command_in (codes "frames" ∷ []) ≡ Some Command.Frames }
{}
