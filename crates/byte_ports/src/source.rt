//! Sources, and reading one up to a limit.
ghost use Rattle.std.specs.Prelude.{◌≡◌, ℕ, ◌<◌, length, vec_len, IfOk};
ghost use Rattle.byte_ports.specs.Sources.{SourceView, ReadsSome, Took, TookPiece};

use crate::Failed;
use std::alloc::{AllocError, Global};

/// How many bytes one read asks for at most.
const PIECE: usize = 65_536;

/// Gives bytes, some a call.
///
/// A source has a count of faults that never falls and, where it tells them, its bytes left.
pub trait Source {
    ghost source_view: { Self → SourceView };

    /// Takes the first bytes left, puts them at the front of `buf`, which is not empty, and returns
    /// how many: 0 only at the end. After `Failed` nothing is taken and the count of faults rose.
    fn read(&mut self, buf: &mut [u8]) -> Result<usize, Failed>
        requires { 0 < length buf.old }
        ensures { ReadsSome (source_view self.old) (source_view self.new) buf.new result };
}

/// What reading up to a limit gave.
#[derive(Debug, Drop)]
pub enum Taken {
    /// All bytes that were left, at most the limit.
    Whole(Vec<u8>),
    /// More bytes were left than the limit. One more than the limit is taken.
    Beyond,
}

/// Why reading up to a limit ended early.
#[derive(Clone, Copy, Debug, PartialEq, Eq)]
pub enum ReadRefusal {
    /// A read failed, and the source's count of faults rose.
    Failed,
    /// Memory was wanting.
    Memory,
}

/// Reads to the end of the source, or until `limit` + 1 bytes are taken.
///
/// After a refusal some bytes may be taken and lost.
pub fn read_up_to<S: Source>(
    alloc: Global,
    source: &mut S,
    limit: usize,
) -> Result<Taken, ReadRefusal>
    requires { limit < usize.MAX }
    ensures { Took (S.source_view source.old) (S.source_view source.new) limit result }
{
    let mut bytes = Vec::new(alloc);
    let Ok(mut buffer) = zeros(alloc, PIECE) else {
        return Err(ReadRefusal::Memory);
    };
    while bytes.len() <= limit {
        let room = PIECE.min(limit - bytes.len() + 1);
        if read_piece(source, &mut buffer[..room], &mut bytes)? == 0 {
            return Ok(Taken::Whole(bytes));
        }
    }
    Ok(Taken::Beyond)
}

/// A buffer of `len` bytes.
fn zeros(alloc: Global, len: usize) -> Result<Vec<u8>, AllocError>
    ensures { IfOk result (λ buffer. vec_len buffer ≡ len) }
{
    vec![in alloc; 0; len]
}

/// Does one read into `buffer`, and adds its bytes to the end of `bytes`.
fn read_piece<S: Source>(
    source: &mut S,
    buffer: &mut [u8],
    bytes: &mut Vec<u8>,
) -> Result<usize, ReadRefusal>
    requires { 0 < length buffer.old }
    ensures { TookPiece (S.source_view source.old) (S.source_view source.new)
        bytes.old.items bytes.new.items (length buffer.old) result }
{
    let Ok(count) = source.read(buffer) else {
        return Err(ReadRefusal::Failed);
    };
    if bytes.extend_from_slice(&buffer[..count]).is_err() {
        return Err(ReadRefusal::Memory);
    }
    Ok(count)
}
