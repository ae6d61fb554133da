//! Counts that stand still at the last value of their type.
#![tactic(auto)]

ghost use Rattle.std.specs.Prelude.{◌≡◌};
ghost use Rattle.counts.specs.Raised.{raised};

/// A count that rises by a number, and stands still at 2^64 - 1.
pub fn raise(count: u64, by: u64) -> u64
    ensures { result ≡ raised count by }
{
    count.saturating_add(by)
}

#[cfg(test)]
mod tests;
