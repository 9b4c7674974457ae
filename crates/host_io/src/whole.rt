//! A source is read whole, up to a limit.
ghost use Rattle.std.specs.Prelude.{◌≡◌};
ghost use Rattle.host_io.specs.Source.{ReadsWhole};

use crate::Source;
use lufs_base::Bytes;
use std::alloc::Global;

/// How many bytes are taken at a time, at most.
const PIECE: usize = 4096;

/// Why a source wasn't read whole.
#[derive(Clone, Copy, PartialEq, Eq)]
pub enum ReadError {
    /// A take failed.
    Fault,
    /// There are more bytes than may be read.
    TooLong,
    /// Memory ran out.
    Mem,
}

/// All that the source has left, if that is at most `limit` bytes. Else `limit` bytes and one more are taken, and no
/// byte after that. After a fault, or where memory ran out, some of the bytes were taken.
pub fn read_whole<S: Source>(
    alloc: Global,
    source: &mut S,
    limit: usize,
) -> Result<Bytes, ReadError>
    ensures { ReadsWhole limit result (S.told source.old) (S.told source.new) }
{
    let mut bytes = Vec::new(alloc);
    let mut piece = [0u8; PIECE];
    'pieces: loop {
        let room = limit - bytes.len();
        // The byte after the last one that may be read tells that there are too many.
        let most = PIECE.min(room.saturating_add(1));
        let Ok(n) = source.take(&mut piece[..most]) else {
            return Err(ReadError::Fault);
        };
        if n == 0 {
            return Ok(Bytes::from_vec(bytes));
        }
        if room < n {
            return Err(ReadError::TooLong);
        }
        if bytes.extend_from_slice(&piece[..n]).is_err() {
            return Err(ReadError::Mem);
        }
    }
}
