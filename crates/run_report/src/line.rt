//! A line that is put together before it is written, in a buffer of fixed size.

ghost use Rattle.run_report.specs.Lines.{Puts};

use arrayvec::ArrayVec;
use byte_ports::{Failed, Sink, write_whole};
use itoa::{Buffer, Integer};

/// The bytes of a line that are held back: at most 256, of which most lines have fewer.
pub(crate) type Held = ArrayVec<u8, 256>;

/// Writes what is held back, and then holds back a text, or writes it where it is longer than a line.
///
/// After `Failed` a part of what was held back and of the text is written.
fn put_past<K: Sink>(sink: &mut K, held: &mut Held, text: &[u8]) -> Result<(), Failed>
    ensures { Puts (K.sink_view sink.old) held.old.items
        (K.sink_view sink.new) held.new.items text.now result }
{
    write_whole(sink, held.as_slice())?;
    held.clear();
    match held.try_extend_from_slice(text) {
        Ok(()) => Ok(()),
        Err(_) => write_whole(sink, text),
    }
}

/// Puts a text behind what is held back. Where it does not fit, what is held back is written first.
///
/// After `Failed` a part of what was held back and of the text is written.
pub(crate) fn put<K: Sink>(sink: &mut K, held: &mut Held, text: &[u8]) -> Result<(), Failed>
    ensures { Puts (K.sink_view sink.old) held.old.items
        (K.sink_view sink.new) held.new.items text.now result }
{
    match held.try_extend_from_slice(text) {
        Ok(()) => Ok(()),
        Err(_) => put_past(sink, held, text),
    }
}

/// Puts a number in decimals.
pub(crate) fn put_number<K: Sink, I: Integer>(
    sink: &mut K,
    held: &mut Held,
    number: I,
) -> Result<(), Failed>
    ensures { Puts (K.sink_view sink.old) held.old.items
        (K.sink_view sink.new) held.new.items (I.text number) result }
{
    let mut buffer = Buffer::new();
    put(sink, held, buffer.format(number).as_bytes())
}
