//! Edits of props: what each row is to become, where it is named.

ghost use Rattle.std.specs.Prelude.{◌≡◌, ◌<◌, ◌↔◌, IfOk, IsOk, None, Some, length, replicate, slice_set};
ghost use Rattle.prop_table.specs.Table.{IsInRow, AreInRows, AreNodeProps, v1_rules, v2_rules};
ghost use Rattle.prop_table.specs.Rules.{rules_of, rule_at};
ghost use Rattle.prop_table.specs.Edits.{named_at, merged, with_edit, AreEditsInRows, widened_edit};
ghost use Rattle.prop_table.specs.Marks.{mark_of, number_of};
ghost use Rattle.prop_table.specs.Widened.{widened};

use crate::lookup::OutOfRange;
use crate::mark::Mark;
use crate::props::Props;
use crate::table::PropTable;
use crate::tables::node_table;
use std::marker::Model;

/// For each row of a table of `N` rows: unnamed, or the number that it is to become, which may be
/// absent. It is kept as a mark for each row, beside the number, and 0 where there is none.
#[derive(Clone, Copy, Debug, PartialEq, Eq)]
pub struct PropEdit<const N: usize> {
    marks: [Mark; N],
    numbers: [i64; N],
}

impl<const N: usize> Model for PropEdit<N> {
    ghost use Rattle.std.specs.Prelude.{map};
    ghost use Rattle.std.specs.Coded.{coded_list, coded_option, coded_ℤ};
    ghost use Rattle.prop_table.specs.Edits.{EditList};
    ghost use Rattle.prop_table.specs.Marks.{marked, mark_of, number_of, AreMarks};

    ghost Value = { EditList };

    ghost coded = { coded_list (coded_option (coded_option coded_ℤ)) };

    ghost view = { λ e. marked e.marks e.numbers };

    ghost invariant = { λ e. AreMarks N e.marks e.numbers };

    ghost inverse = { λ v. record { marks = map mark_of v; numbers = map number_of v } };

    ghost inverse_ok = { λ e h i. record { marks = h.first_back i; numbers = h.second_back i } };
}

/// The mark of what an edit holds for a row.
fn mark(named: Option<Option<i64>>) -> Mark
    ensures { result ≡ mark_of named }
{
    match named {
        None => Mark::Unnamed,
        Some(None) => Mark::Absent,
        Some(Some(_)) => Mark::Given,
    }
}

/// The number of what an edit holds for a row, 0 where there is none.
fn number(named: Option<Option<i64>>) -> i64
    ensures { result ≡ number_of named }
{
    match named {
        Some(Some(number)) => number,
        _ => 0,
    }
}

impl<const N: usize> PropEdit<N> {
    /// An edit that names no row.
    pub fn empty() -> PropEdit<N>
        ensures { result ≡ replicate N None }
    {
        PropEdit {
            marks: [Mark::Unnamed; N],
            numbers: [0; N],
        }
    }

    /// How many rows there are.
    pub fn count(&self) -> usize
        ensures value { result ≡ N }
        ensures count { length self.now ≡ N }
    {
        let marks = &self.marks;
        marks.len()
    }

    /// What the edit holds for a row: `None` where it is unnamed, and else its new number.
    pub fn get(&self, row: usize) -> Option<Option<i64>>
        requires { row < N }
        ensures { result ≡ named_at self.now row }
    {
        match self.marks[row] {
            Mark::Unnamed => None,
            Mark::Absent => Some(None),
            Mark::Given => Some(Some(self.numbers[row])),
        }
    }

    /// Holds that for a row from now on.
    fn put(&mut self, row: usize, named: Option<Option<i64>>)
        requires { row < N }
        ensures value { self.new ≡ slice_set self.old row named }
        ensures count { length self.new ≡ N }
    {
        self.marks[row] = mark(named);
        self.numbers[row] = number(named);
    }
}

impl<const N: usize> Props<N> {
    /// Becomes what an edit holds for a row, and stays as it is where the row is unnamed.
    fn follow(&mut self, row: usize, named: Option<Option<i64>>)
        requires { row < N }
        ensures { self.new ≡ with_edit self.old row named }
    {
        if let Some(value) = named {
            self.put(row, value);
        }
    }
}

impl<const N: usize> PropTable<N> {
    /// The edit that names that row too. `OutOfRange` exactly where `set` gives it.
    pub fn edit(
        &self,
        edit: &PropEdit<N>,
        row: usize,
        value: Option<i64>,
    ) -> Result<PropEdit<N>, OutOfRange>
        requires { row < N }
        ensures value { IfOk result (λ after. after ≡ slice_set edit.now row (Some value)) }
        ensures in_row { IsOk result ↔ IsInRow (rule_at (rules_of self.now) row) value }
        ensures rows { IfOk result (λ after. AreEditsInRows (rules_of self.now) edit.now → AreEditsInRows (rules_of self.now) after) }
    {
        if !self.rows[row].takes(value) {
            return Err(OutOfRange);
        }
        let mut after = *edit;
        after.put(row, Some(value));
        Ok(after)
    }

    /// The rows that the edit names from the edit, and all others from the props.
    pub fn merge(&self, props: &Props<N>, edit: &PropEdit<N>) -> Props<N>
        ensures value { result ≡ merged props.now edit.now }
        ensures rows { AreInRows (rules_of self.now) props.now → AreEditsInRows (rules_of self.now) edit.now → AreInRows (rules_of self.now) result }
    {
        let mut after = *props;
        for row in 0..edit.count() {
            after.follow(row, edit.get(row));
        }
        after
    }
}

/// Version 1 props as a node's: the rows that version 2 adds are at their start.
pub fn widen(props: &Props<16>) -> Props<22>
    ensures value { result ≡ widened props.now }
    ensures rows { AreInRows v1_rules props.now → AreNodeProps result }
{
    let mut wide = node_table().start();
    for row in 0..props.count() {
        wide.put(row, props.get(row));
    }
    wide
}

/// A version 1 edit as an edit of a node's rows: those that version 2 adds stay unnamed.
pub fn widen_edit(edit: &PropEdit<16>) -> PropEdit<22>
    ensures value { result ≡ widened_edit edit.now }
    ensures rows { AreEditsInRows v1_rules edit.now → AreEditsInRows v2_rules result }
{
    let mut wide = PropEdit::empty();
    for row in 0..edit.count() {
        wide.put(row, edit.get(row));
    }
    wide
}
