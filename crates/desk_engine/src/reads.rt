//! Reads that are made again if they are interrupted.
ghost use Rattle.std.specs.Prelude.{◌≡◌, ◌<◌, ◌≤◌, length, take, IfOk, OnErr};
ghost use Rattle.std.specs.Io.KnownBytes.{IsAtEnd, Keeps};
ghost use Rattle.desk_engine.specs.Streams.{HasRead};

use std::io;
use std::io::{ErrorKind, Read};

/// Reads some octets into `chunk`, and returns how many. It returns 0 only at the end of the input, or if `chunk` is empty. An interrupted
/// read is made again.
///
/// # Errors
///
/// Returns the error of a read that failed, and fails after 2^64 - 1 interrupted reads. Nothing was taken from the input then.
pub fn read_some<R: Read>(reader: &mut R, chunk: &mut [u8]) -> io::Result<usize>
    ensures bound { IfOk result (λ n. n ≤ length chunk.new) }
    ensures some { IfOk result (λ n. HasRead R.remaining reader.old reader.new (take n chunk.new)) }
    ensures end { IfOk result (λ n. n ≡ 0 → 0 < length chunk.old → IsAtEnd (R.remaining reader.new)) }
    ensures failed { OnErr result (Keeps (R.remaining reader.old) (R.remaining reader.new)) }
{
    for _ in 0..u64::MAX {
        match reader.read(chunk) {
            Ok(count) => return Ok(count),
            Err(e) if e.kind() == ErrorKind::Interrupted => {}
            Err(e) => return Err(e),
        }
    }
    Err(ErrorKind::TimedOut.into())
}
