//! Tables of ports that give or take little, that fail, and that are full.
ghost use Rattle.std.specs.Prelude.{◌^◌, ◌<◌, ◌≤◌};

use super::*;
use std::alloc::{AllocError, Global};
use std::io;
use std::io::{Read, Write};
use std::process::Abort;
use std::test::Fail;

/// Bytes of which neighbours differ.
fn numbered(alloc: Global, len: usize) -> Result<Vec<u8>, AllocError> {
    let mut bytes = Vec::new(alloc);
    for i in 0..len {
        bytes.push((i % 251) as u8)?;
    }
    Ok(bytes)
}

/// The list of one number.
fn one(alloc: Global, number: u64) -> Result<Vec<u64>, AllocError> {
    let mut list = Vec::new(alloc);
    list.push(number)?;
    Ok(list)
}

/// Reads `len` bytes, `most` a call, with each limit up to the length and beyond it.
fn reads_around(rt: &impl Abort, alloc: Global, len: usize, most: usize) -> Result<(), AllocError>
    requires some { 1 ≤ most }
    requires not_empty { 1 ≤ len }
    requires small { len < 2 ^ 20 }
{
    let expected = numbered(alloc, len)?;
    for (limit, is_whole) in [(0, false), (len - 1, false), (len, true), (len + 1, true)] {
        let bytes = numbered(alloc, len)?;
        let mut source = MemorySource::start(bytes, Vec::new(alloc)).pieces(most);
        match read_up_to(alloc, &mut source, limit.min(1_048_577)) {
            Ok(Taken::Whole(taken)) => {
                assert!(rt;
                    is_whole && taken.as_slice() == expected.as_slice(),
                    "{limit}"
                );
            }
            Ok(Taken::Beyond) => assert!(rt; !is_whole, "{limit}"),
            Err(_) => assert!(rt; false, "{limit}"),
        }
    }
    Ok(())
}

#[test]
fn reads_up_to_a_limit(rt: HostRuntime) -> Result<(), Fail> {
    reads_around(&rt, rt.alloc(), 20, 1)?;
    reads_around(&rt, rt.alloc(), 21, 2)?;
    reads_around(&rt, rt.alloc(), 2_500, 997)?;
    reads_around(&rt, rt.alloc(), 200_000, 65_536)?;
    reads_around(&rt, rt.alloc(), 200_000, 1_000_000)?;
    let mut empty = MemorySource::start(Vec::new(rt.alloc()), Vec::new(rt.alloc()));
    match read_up_to(rt.alloc(), &mut empty, 0) {
        Ok(Taken::Whole(taken)) => assert!(rt; taken.is_empty()),
        _ => assert!(rt; false, "an empty source"),
    }
    Ok(())
}

#[test]
fn a_failed_read_ends_the_reading(rt: HostRuntime) -> Result<(), Fail> {
    // Five pieces of two bytes, and a sixth call for the end.
    for number in 0..8 {
        let bytes = numbered(rt.alloc(), 10)?;
        let fails = one(rt.alloc(), number)?;
        let mut source = MemorySource::start(bytes, fails).pieces(2);
        let is_failed = match read_up_to(rt.alloc(), &mut source, 100) {
            Ok(_) => false,
            Err(refusal) => {
                assert_eq!(rt; refusal, ReadRefusal::Failed);
                true
            }
        };
        assert_eq!(rt; is_failed, number < 6, "call {number}");
    }
    Ok(())
}

#[test]
fn a_failed_write_leaves_a_part(rt: HostRuntime) -> Result<(), Fail> {
    let text = numbered(rt.alloc(), 10)?;
    for number in 0..6 {
        let fails = one(rt.alloc(), number)?;
        let mut sink = MemorySink::start(rt.alloc(), 100, fails)?.pieces(2);
        let is_whole = write_whole(&mut sink, text.as_slice()).is_ok();
        assert_eq!(rt; is_whole, number == 5, "call {number}");
        assert_eq!(rt; sink.bytes().len() as u64, number * 2, "call {number}");
        assert!(rt; text.as_slice().starts_with(sink.bytes()), "call {number}");
    }
    Ok(())
}

#[test]
fn a_full_sink_keeps_what_it_holds(rt: HostRuntime) -> Result<(), Fail> {
    for (room, is_first_whole, is_second_whole, held) in [
        (0, false, false, "".as_bytes()),
        (3, false, false, "abc".as_bytes()),
        (4, true, false, "abcd".as_bytes()),
        (6, true, false, "abcdef".as_bytes()),
        (8, true, true, "abcdefgh".as_bytes()),
        (9, true, true, "abcdefgh".as_bytes()),
    ] {
        let mut sink = MemorySink::start(rt.alloc(), room, Vec::new(rt.alloc()))?;
        assert_eq!(rt;
            write_whole(&mut sink, b"abcd").is_ok(),
            is_first_whole,
            "{room}"
        );
        assert!(rt; write_whole(&mut sink, b"").is_ok(), "{room}");
        assert_eq!(rt;
            write_whole(&mut sink, b"efgh").is_ok(),
            is_second_whole,
            "{room}"
        );
        assert_eq!(rt; sink.bytes(), held, "{room}");
    }
    Ok(())
}

/// A reader and a writer whose calls fail.
#[derive(Drop)]
struct Broken;

impl Read for Broken {
    fn read(&mut self, _buf: &mut [u8]) -> io::Result<usize> {
        Err(io::Error::other("broken"))
    }
}

impl Write for Broken {
    fn write(&mut self, _buf: &[u8]) -> io::Result<usize> {
        Err(io::Error::other("broken"))
    }

    fn flush(&mut self) -> io::Result<()> {
        Ok(())
    }
}

#[test]
fn ports_over_std(rt: HostRuntime) -> Result<(), Fail> {
    let mut source = StdSource::start("some text".as_bytes());
    match read_up_to(rt.alloc(), &mut source, 9) {
        Ok(Taken::Whole(taken)) => assert_eq!(rt; taken.as_slice(), "some text".as_bytes()),
        _ => assert!(rt; false, "a reader of nine bytes"),
    }
    let refusal = read_up_to(rt.alloc(), &mut StdSource::start(Broken), 9).err();
    assert_eq!(rt; refusal, Some(ReadRefusal::Failed));

    let mut room = [0; 4];
    let mut sink = StdSink::start(room.as_mut_slice());
    assert!(rt; write_whole(&mut sink, b"abcd").is_ok());
    assert!(rt; write_whole(&mut sink, b"e").is_err(), "a write of no byte");
    assert!(rt; write_whole(&mut StdSink::start(Broken), b"a").is_err());
    Ok(())
}

/// Writes the texts through blocks of `room` bytes to the sink, and hands on the last block.
fn gathered(
    alloc: Global,
    room: usize,
    out: &mut MemorySink,
    texts: &[&[u8]],
) -> Result<bool, AllocError>
    requires { 1 ≤ room }
{
    let block = Vec::with_capacity(alloc, room)?;
    let mut blocks = BlockSink::start(block, out);
    let mut written = Ok(());
    for text in texts {
        if written.is_ok() {
            written = write_whole(&mut blocks, text);
        }
    }
    let (_, ended) = blocks.finish(written);
    Ok(ended.is_ok())
}

/// Some texts of which one is empty and one is longer than each block but the last of those tried.
static TEXTS: [&[u8]; 4] = [b"ab", b"", b"cdefghijk", b"l"];

#[test]
fn blocks_hand_on_what_is_written(rt: HostRuntime) -> Result<(), Fail> {
    let alloc = rt.alloc();
    for (room, most) in [(1, 9), (2, 1), (3, 2), (4, 3), (5, 9), (12, 5), (20, 7)] {
        let mut out = MemorySink::start(alloc, 100, Vec::new(alloc))?.pieces(most);
        assert!(rt;
            gathered(alloc, room, &mut out, TEXTS.as_slice())?,
            "{room}"
        );
        assert_eq!(rt; out.bytes(), "abcdefghijkl".as_bytes(), "{room}");
    }
    Ok(())
}

#[test]
fn a_failed_write_below_leaves_a_prefix(rt: HostRuntime) -> Result<(), Fail> {
    let alloc = rt.alloc();
    // Blocks of five bytes, of which two are handed on a call: 2, 2, 1, 2, 2, 1, 2.
    for (call, held) in [
        (0, ""),
        (1, "ab"),
        (2, "abcd"),
        (3, "abcde"),
        (5, "abcdefghi"),
        (6, "abcdefghij"),
        (7, "abcdefghijkl"),
    ] {
        let mut out = MemorySink::start(alloc, 100, one(alloc, call)?)?.pieces(2);
        let is_whole = gathered(alloc, 5, &mut out, TEXTS.as_slice())?;
        assert_eq!(rt; is_whole, call == 7, "call {call}");
        assert_eq!(rt; out.bytes(), held.as_bytes(), "call {call}");
    }
    Ok(())
}
