//! One optional number for each row of a table.

ghost use Rattle.std.specs.Prelude.{◌≡◌, ◌≢◌, ℕ, None, ◌<◌, ◌≤◌, ◌↔◌, length, slice_set, replicate};
ghost use Rattle.std.specs.Bool.{Decides};
ghost use Rattle.std.specs.Int.{bit_at};
ghost use Rattle.prop_table.specs.Props.{value_at};

use std::marker::Model;

/// One optional number for each row of a table of `N` rows: whether it is given, beside the number
/// that it then is, and 0 where it is absent.
#[derive(Clone, Copy, Debug, PartialEq, Eq)]
pub struct Props<const N: usize> {
    given: [bool; N],
    numbers: [i64; N],
}

impl<const N: usize> Model for Props<N> {
    ghost use Rattle.std.specs.Prelude.{map, is_some};
    ghost use Rattle.std.specs.Coded.{coded_list, coded_option, coded_ℤ};
    ghost use Rattle.prop_table.specs.Props.{PropList};
    ghost use Rattle.prop_table.specs.Slots.{slots, number_or_zero, AreSlots};

    ghost Value = { PropList };

    ghost coded = { coded_list (coded_option coded_ℤ) };

    ghost view = { λ p. slots p.given p.numbers };

    ghost invariant = { λ p. AreSlots N p.given p.numbers };

    ghost inverse = { λ v. record { given = map is_some v; numbers = map number_or_zero v } };

    ghost inverse_ok = { λ p h i. record { given = h.first_back i; numbers = h.second_back i } };
}

impl<const N: usize> Props<N> {
    /// No number in any row.
    pub(crate) fn absent() -> Props<N>
        ensures { result ≡ replicate N None }
    {
        Props {
            given: [false; N],
            numbers: [0; N],
        }
    }

    /// How many rows there are.
    pub fn count(&self) -> usize
        ensures value { result ≡ N }
        ensures count { length self.now ≡ N }
    {
        let given = &self.given;
        given.len()
    }

    /// Whether each row is the same in both.
    pub fn is_same(&self, other: &Props<N>) -> bool
        ensures { Decides result (self.now ≡ other.now) }
    {
        self == other
    }

    /// The number in a row, `None` where it is absent.
    pub fn get(&self, row: usize) -> Option<i64>
        requires { row < N }
        ensures { result ≡ value_at self.now row }
    {
        if self.given[row] {
            Some(self.numbers[row])
        } else {
            None
        }
    }

    /// Puts a number into a row, or makes it absent.
    pub(crate) fn put(&mut self, row: usize, value: Option<i64>)
        requires { row < N }
        ensures value { self.new ≡ slice_set self.old row value }
        ensures count { length self.new ≡ N }
    {
        self.given[row] = value.is_some();
        self.numbers[row] = value.unwrap_or(0);
    }
}

/// A number whose bit `r` is set exactly where row `r` differs.
pub fn changed<const N: usize>(a: &Props<N>, b: &Props<N>) -> u32
    requires { N ≤ 32 }
    ensures rows { (row : ℕ) → row < N → (bit_at result row ≡ 1) ↔ (value_at a.now row ≢ value_at b.now row) }
    ensures above { (row : ℕ) → N ≤ row → bit_at result row ≡ 0 }
{
    let mut bits = 0;
    for row in 0..N {
        if a.get(row) != b.get(row) {
            bits |= 1 << row;
        }
    }
    bits
}
