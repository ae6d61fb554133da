//! Texts of a few pieces, written to a sink without memory.

ghost use Rattle.byte_ports.specs.Sinks.{Writes};
ghost use Rattle.run_report.specs.Lines.{Puts};
ghost use Rattle.run_report.specs.Pieces.{piece_text, text_of};
ghost use Rattle.run_report.specs.Text.{number_line};
ghost use Rattle.run_report.specs.TextParts.{pair_line, triple_line};

use crate::line::{Held, put, put_number};
use arrayvec::ArrayVec;
use byte_ports::{Failed, Sink, write_whole};

/// A part of a line.
#[derive(Clone, Copy)]
pub enum Piece<'a> {
    Text(&'a [u8]),
    /// A number in decimals.
    Number(u64),
    /// A signed number in decimals.
    Signed(i64),
}

/// Puts one piece into a line.
fn put_piece<K: Sink>(sink: &mut K, held: &mut Held, piece: Piece<'_>) -> Result<(), Failed>
    ensures { Puts (K.sink_view sink.old) held.old.items
        (K.sink_view sink.new) held.new.items (piece_text piece.entry) result }
{
    match piece {
        Piece::Text(text) => put(sink, held, text),
        Piece::Number(number) => put_number(sink, held, number),
        Piece::Signed(number) => put_number(sink, held, number),
    }
}

/// Puts the pieces into a line, one after another.
pub(crate) fn put_pieces<K: Sink>(
    sink: &mut K,
    held: &mut Held,
    pieces: &[Piece<'_>],
) -> Result<(), Failed>
    ensures { Puts (K.sink_view sink.old) held.old.items
        (K.sink_view sink.new) held.new.items (text_of pieces.now) result }
{
    for piece in pieces {
        put_piece(sink, held, *piece)?;
    }
    Ok(())
}

/// Writes the pieces, one after another: in one write where they have at most 256 bytes.
///
/// After `Failed` a part of their text is written.
pub fn write_pieces<K: Sink>(sink: &mut K, pieces: &[Piece<'_>]) -> Result<(), Failed>
    ensures { Writes (K.sink_view sink.old) (K.sink_view sink.new) (text_of pieces.now) result }
{
    let mut held = ArrayVec::new();
    put_pieces(sink, &mut held, pieces)?;
    write_whole(sink, held.as_slice())
}

/// Writes a text and a number, to the end of a line.
pub(crate) fn write_number_line<K: Sink>(
    sink: &mut K,
    text: &[u8],
    number: u64,
) -> Result<(), Failed>
    ensures { Writes (K.sink_view sink.old) (K.sink_view sink.new) (number_line text.now number) result }
{
    write_pieces(
        sink,
        &[
            Piece::Text(text),
            Piece::Text(b" "),
            Piece::Number(number),
            Piece::Text(b"\n"),
        ],
    )
}

/// Writes a text and a tag or an id, to the end of a line.
pub fn write_tag_line<K: Sink>(sink: &mut K, text: &[u8], tag: u32) -> Result<(), Failed>
    ensures { Writes (K.sink_view sink.old) (K.sink_view sink.new) (number_line text.now tag) result }
{
    write_number_line(sink, text, tag.into())
}

/// Writes a text and two numbers, to the end of a line.
pub(crate) fn write_pair_line<K: Sink>(
    sink: &mut K,
    text: &[u8],
    numbers: (u64, u64),
) -> Result<(), Failed>
    ensures { Writes (K.sink_view sink.old) (K.sink_view sink.new) (pair_line text.now numbers.0 numbers.1) result }
{
    write_pieces(
        sink,
        &[
            Piece::Text(text),
            Piece::Text(b" "),
            Piece::Number(numbers.0),
            Piece::Text(b" "),
            Piece::Number(numbers.1),
            Piece::Text(b"\n"),
        ],
    )
}

/// Writes a text and three numbers, to the end of a line.
pub(crate) fn write_triple_line<K: Sink>(
    sink: &mut K,
    text: &[u8],
    numbers: (u32, u32, u32),
) -> Result<(), Failed>
    ensures { Writes (K.sink_view sink.old) (K.sink_view sink.new) (triple_line text.now numbers.0 numbers.1 numbers.2) result }
{
    write_pieces(
        sink,
        &[
            Piece::Text(text),
            Piece::Text(b" "),
            Piece::Number(numbers.0.into()),
            Piece::Text(b" "),
            Piece::Number(numbers.1.into()),
            Piece::Text(b" "),
            Piece::Number(numbers.2.into()),
            Piece::Text(b"\n"),
        ],
    )
}
