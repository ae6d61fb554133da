//! How a row is written: a space, its name, "=" and its number.

ghost use Rattle.std.specs.Prelude.{◌≡◌, ◌<◌, ◌≤◌, ◌+◌, ◌++◌, length, take};
ghost use Rattle.prop_table.specs.Props.{value_at};
ghost use Rattle.prop_table.specs.Rules.{rules_of, rule_at};
ghost use Rattle.prop_table.specs.PairText.{named_text, pair_text_of};

use crate::props::Props;
use crate::table::PropTable;
use itoa::Buffer;

/// Writes a piece after the first `at` bytes, and gives where it ends.
fn write_at(buf: &mut [u8; 40], at: usize, piece: &[u8]) -> usize
    requires { (at + length piece.now) ≤ 40 }
    ensures end { result ≡ at + length piece.now }
    ensures text { take result buf.new ≡ take at buf.old ++ piece.now }
{
    let end = at + piece.len();
    buf[at..end].copy_from_slice(piece);
    end
}

/// Writes a space, the name, "=" and the number, and gives their length.
fn write_pair(name: &[u8], value: i64, buf: &mut [u8; 40]) -> usize
    requires { length name.now ≤ 16 }
    ensures text { take result buf.new ≡ named_text name.now value }
    ensures length { result ≡ length (named_text name.now value) }
    ensures room { result ≤ 40 }
{
    let mut digits = Buffer::new();
    let space = write_at(buf, 0, b" ");
    let named = write_at(buf, space, name);
    let equals = write_at(buf, named, b"=");
    write_at(buf, equals, digits.format(value).as_bytes())
}

impl<const N: usize> PropTable<N> {
    /// Writes a row of the props into the first bytes of `buf`: a space, the row's name, "=" and
    /// the number in decimals. Gives their length: 0, with nothing written, exactly where the row
    /// is absent or at its start.
    pub fn pair_text(&self, props: &Props<N>, row: usize, buf: &mut [u8; 40]) -> usize
        requires { row < N }
        ensures text { take result buf.new ≡ pair_text_of (rule_at (rules_of self.now) row) (value_at props.now row) }
        ensures length { result ≡ length (pair_text_of (rule_at (rules_of self.now) row) (value_at props.now row)) }
        ensures room { result ≤ 40 }
        ensures unwritten { result ≡ 0 → buf.new ≡ buf.old }
    {
        let Some(value) = props.get(row) else {
            return 0;
        };
        let row = &self.rows[row];
        if row.start == Some(value) {
            return 0;
        }
        write_pair(row.name.as_bytes(), value, buf)
    }
}
