//! A table's rows by their names, its starts, and what it lets into a row.

ghost use Rattle.std.specs.Prelude.{◌≡◌, ◌<◌, ◌↔◌, IsTrue, IfOk, IsOk, IfSome, slice_set};
ghost use Rattle.prop_table.specs.Table.{IsInRow, AreInRows, start_of};
ghost use Rattle.prop_table.specs.Rules.{rule_of, rules_of, rule_at, row_named};

use crate::props::Props;
use crate::table::{PropTable, Row};

/// A number that its row does not take.
#[derive(Clone, Copy, Debug, PartialEq, Eq)]
pub struct OutOfRange;

impl Row {
    /// Whether a number is in the row's range, or absent where the row may begin so.
    pub(crate) fn takes(&self, value: Option<i64>) -> bool
        ensures { IsTrue result ↔ IsInRow (rule_of self.now) value }
    {
        match value {
            None => self.start.is_none(),
            Some(value) => self.low <= value && value <= self.high,
        }
    }
}

impl<const N: usize> PropTable<N> {
    /// The row of that name, `None` exactly where no row has it.
    pub fn find(&self, name: &[u8]) -> Option<usize>
        ensures value { result ≡ row_named (rules_of self.now) name.now }
        ensures row { IfSome result (λ row. row < N) }
    {
        for (index, row) in self.rows.iter().enumerate() {
            if row.name.as_bytes() == name {
                return Some(index);
            }
        }
        None
    }

    /// Each row's start.
    pub fn start(&self) -> Props<N>
        ensures { result ≡ start_of (rules_of self.now) }
    {
        let mut props = Props::absent();
        for (index, row) in self.rows.iter().enumerate() {
            props.put(index, row.start);
        }
        props
    }

    /// The props with that number in that row. `OutOfRange` exactly where it is below the row's
    /// low, above its high, or absent where the row does not begin absent.
    pub fn set(
        &self,
        props: &Props<N>,
        row: usize,
        value: Option<i64>,
    ) -> Result<Props<N>, OutOfRange>
        requires { row < N }
        ensures value { IfOk result (λ after. after ≡ slice_set props.now row value) }
        ensures in_row { IsOk result ↔ IsInRow (rule_at (rules_of self.now) row) value }
        ensures rows { IfOk result (λ after. AreInRows (rules_of self.now) props.now → AreInRows (rules_of self.now) after) }
    {
        if !self.rows[row].takes(value) {
            return Err(OutOfRange);
        }
        let mut after = *props;
        after.put(row, value);
        Ok(after)
    }
}
