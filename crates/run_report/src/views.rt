//! The text of a view: what it is, where it stands, and what it shows.

ghost use Rattle.std.specs.Prelude.{◌≡◌, ◌<◌, length};
ghost use Rattle.byte_ports.specs.Sinks.{Writes};
ghost use Rattle.prop_table.specs.Props.{value_at};
ghost use Rattle.prop_table.specs.Rules.{rules_of, rule_at};
ghost use Rattle.prop_table.specs.Table.{v2_rules};
ghost use Rattle.prop_table.specs.PairText.{pair_text_of, pairs_text_of};
ghost use Rattle.run_report.specs.Lines.{Puts};
ghost use Rattle.run_report.specs.Text.{state_text, hex_digit, hex_text, label_text, view_text};
ghost use Rattle.run_report.specs.TextParts.{shape_text, hex_pair, view_line};

use crate::line::{Held, put};
use crate::pieces::{Piece, put_pieces};
use arrayvec::ArrayVec;
use byte_ports::{Failed, Sink, write_whole};
use host_views::HostView;
use native_state::StateCell;
use prop_table::{Label, NodeProps, PropTable, node_table};
use shadow_frame::Rect;
use shadow_kinds::{Kind, word};

/// Puts a kind's word and a frame.
fn put_shape<K: Sink>(sink: &mut K, held: &mut Held, kind: Kind, frame: Rect) -> Result<(), Failed>
    ensures { Puts (K.sink_view sink.old) held.old.items
        (K.sink_view sink.new) held.new.items (shape_text kind frame) result }
{
    put_pieces(
        sink,
        held,
        &[
            Piece::Text(word(kind).as_bytes()),
            Piece::Text(b" frame "),
            Piece::Signed(frame.origin.x),
            Piece::Text(b" "),
            Piece::Signed(frame.origin.y),
            Piece::Text(b" "),
            Piece::Signed(frame.size.width),
            Piece::Text(b" "),
            Piece::Signed(frame.size.height),
        ],
    )
}

/// Puts a state's count and point, where there is a state.
fn put_state<K: Sink>(sink: &mut K, held: &mut Held, state: Option<StateCell>) -> Result<(), Failed>
    ensures { Puts (K.sink_view sink.old) held.old.items
        (K.sink_view sink.new) held.new.items (state_text state) result }
{
    let Some(cell) = state else {
        return Ok(());
    };
    put_pieces(
        sink,
        held,
        &[
            Piece::Text(b" state "),
            Piece::Number(cell.count),
            Piece::Text(b" "),
            Piece::Signed(cell.point.x),
            Piece::Text(b" "),
            Piece::Signed(cell.point.y),
        ],
    )
}

/// Puts a row of the props, where it is not at its start.
fn put_row<K: Sink>(
    sink: &mut K,
    held: &mut Held,
    table: &PropTable<22>,
    props: &NodeProps,
    row: usize,
) -> Result<(), Failed>
    requires { row < 22 }
    ensures { Puts (K.sink_view sink.old) held.old.items
        (K.sink_view sink.new) held.new.items (pair_text_of (rule_at (rules_of table.now) row) (value_at props.now row)) result }
{
    let mut buffer = [0; 40];
    let count = table.pair_text(props, row, &mut buffer);
    put(sink, held, &buffer[..count])
}

/// Puts the rows of the props that are not at their start.
fn put_rows<K: Sink>(
    sink: &mut K,
    held: &mut Held,
    table: &PropTable<22>,
    props: &NodeProps,
) -> Result<(), Failed>
    ensures { Puts (K.sink_view sink.old) held.old.items
        (K.sink_view sink.new) held.new.items (pairs_text_of (rules_of table.now) props.now) result }
{
    for row in 0..22 {
        put_row(sink, held, table, props, row)?;
    }
    Ok(())
}

/// Puts the props of a node that are not at their start.
fn put_props<K: Sink>(sink: &mut K, held: &mut Held, props: &NodeProps) -> Result<(), Failed>
    ensures { Puts (K.sink_view sink.old) held.old.items
        (K.sink_view sink.new) held.new.items (pairs_text_of v2_rules props.now) result }
{
    put_rows(sink, held, &node_table(), props)
}

/// A digit in lower-case hexadecimal.
fn hex_digit(n: u8) -> u8
    requires { n < 16 }
    ensures { result ≡ hex_digit n }
{
    if n < 10 { b'0' + n } else { b'a' - 10 + n }
}

/// Puts a byte in lower-case hexadecimal, two digits.
fn put_byte<K: Sink>(sink: &mut K, held: &mut Held, byte: u8) -> Result<(), Failed>
    ensures { Puts (K.sink_view sink.old) held.old.items
        (K.sink_view sink.new) held.new.items (hex_pair byte) result }
{
    put(sink, held, &[hex_digit(byte / 16), hex_digit(byte % 16)])
}

/// Puts bytes in lower-case hexadecimal.
fn put_hex<K: Sink>(sink: &mut K, held: &mut Held, bytes: &[u8]) -> Result<(), Failed>
    ensures { Puts (K.sink_view sink.old) held.old.items
        (K.sink_view sink.new) held.new.items (hex_text bytes.now) result }
{
    for byte in bytes {
        put_byte(sink, held, *byte)?;
    }
    Ok(())
}

/// Puts a label, where it is not empty.
fn put_label<K: Sink>(sink: &mut K, held: &mut Held, label: &Label) -> Result<(), Failed>
    ensures { Puts (K.sink_view sink.old) held.old.items
        (K.sink_view sink.new) held.new.items (label_text label.now) result }
{
    let bytes = label.bytes();
    if bytes.is_empty() {
        return Ok(());
    }
    put(sink, held, b" label=")?;
    put_hex(sink, held, bytes)
}

/// Puts a view.
fn put_view<K: Sink>(sink: &mut K, held: &mut Held, view: &HostView) -> Result<(), Failed>
    ensures { Puts (K.sink_view sink.old) held.old.items
        (K.sink_view sink.new) held.new.items (view_text view.now) result }
{
    put_shape(sink, held, view.kind, view.frame)?;
    put_state(sink, held, view.state)?;
    put_props(sink, held, &view.props)?;
    put_label(sink, held, &view.label)
}

/// Writes a view, and the end of its line: in one write where the line has at most 256 bytes.
pub(crate) fn write_view_line<K: Sink>(sink: &mut K, view: &HostView) -> Result<(), Failed>
    ensures { Writes (K.sink_view sink.old) (K.sink_view sink.new) (view_line view.now) result }
{
    let mut held = ArrayVec::new();
    put_view(sink, &mut held, view)?;
    put(sink, &mut held, b"\n")?;
    write_whole(sink, held.as_slice())
}
