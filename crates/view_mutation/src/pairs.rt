//! Values with numbers, in the order of the numbers.

ghost use Rattle.std.specs.Prelude.{◌≡◌, ◌≤◌, ℕ, length, take, drop, IsTrue, OnOk};
ghost use Rattle.std.specs.FinMap.{find};
ghost use Rattle.std.specs.List.Sorted.{IsNonDecreasingBy};
ghost use Rattle.std.specs.Option.{option_copied};
ghost use Rattle.std.specs.Ordering.{nat_cmp};
ghost use Rattle.page_map.specs.Rising.{AreBelow, AreFrom};
ghost use Rattle.view_mutation.specs.Pairs.{pairs_at};

use std::alloc::AllocError;

/// Whether no number is above the next one.
fn are_in_order<V>(pairs: &[(u32, V)]) -> bool
    ensures { IsTrue result → IsNonDecreasingBy (λ pair. pair.0) pairs.now }
{
    pairs.is_sorted_by_key(|pair| pair.0)
}

/// Puts pairs in the order of their numbers, and those of one number as they stand.
pub fn put_in_order<V>(pairs: &mut Vec<(u32, V)>) -> Result<(), AllocError>
    ensures in_order { OnOk result (IsNonDecreasingBy (λ pair. pair.0) pairs.new.items) }
    ensures kept { OnOk result ((number : ℕ) → pairs_at pairs.new.items number ≡ pairs_at pairs.old.items number) }
{
    if !are_in_order(pairs) {
        pairs.sort_by_key(|pair| pair.0)?;
    }
    Ok(())
}

/// How many of the pairs have numbers below this one.
fn start_of<V>(pairs: &[(u32, V)], number: u32) -> usize
    requires { IsNonDecreasingBy (λ pair. pair.0) pairs.now }
    ensures start { result ≤ length pairs.now }
    ensures below { AreBelow number (take result pairs.now) }
    ensures rest { AreFrom number (drop result pairs.now) }
{
    pairs.partition_point(|pair| pair.0 < number)
}

/// The first value of a number.
pub fn first_of<V>(pairs: &[(u32, V)], number: u32) -> Option<&V>
    requires { IsNonDecreasingBy (λ pair. pair.0) pairs.now }
    ensures { option_copied result ≡ find nat_cmp number pairs.now }
{
    let (_, rest) = pairs.split_at(start_of(pairs, number));
    match rest.split_first() {
        Some((first, _)) if first.0 == number => Some(&first.1),
        _ => None,
    }
}

/// Those of one number.
pub fn pairs_of<V>(pairs: &[(u32, V)], number: u32) -> &[(u32, V)]
    requires { IsNonDecreasingBy (λ pair. pair.0) pairs.now }
    ensures { result.now ≡ pairs_at pairs.now number }
{
    let start = pairs.partition_point(|pair| pair.0 < number);
    let end = pairs.partition_point(|pair| pair.0 <= number);
    &pairs[start..end]
}
