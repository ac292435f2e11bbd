//! Writes of a whole text.
ghost use Rattle.std.specs.Prelude.{◌++◌, ◌∷◌, [], OnErr, OnOk};
ghost use Rattle.desk_engine.specs.Lines.{line_feed};
ghost use Rattle.desk_engine.specs.Streams.{HasAppended, HasAppendedPart};

use std::io;
use std::io::{ErrorKind, Write};

/// Writes the text, and flushes the writer.
///
/// # Errors
///
/// Returns the error of a write or of the flush. How much was written isn't known then.
pub fn write_whole<W: Write>(writer: &mut W, text: &[u8]) -> io::Result<()>
    ensures { OnOk result (HasAppended W.contents writer.old writer.new text.now) }
{
    writer.write_all(text)?;
    writer.flush()
}

/// Writes a line and then its LF.
pub(crate) fn write_with_line_feed<W: Write>(writer: &mut W, line: &[u8]) -> io::Result<()>
    ensures { OnOk result (HasAppended W.contents writer.old writer.new (line.now ++ line_feed ∷ [])) }
{
    writer.write_all(line)?;
    writer.write_all(b"\n")
}

/// Writes the octets, and doesn't flush. An interrupted write is made again. Unlike `write_all` it promises what was written if it fails.
///
/// # Errors
///
/// Returns the error of a write that failed, and fails after 2^64 - 1 writes. It has written some of the octets, from the first on, or
/// none.
pub fn write_octets<W: Write>(writer: &mut W, octets: &[u8]) -> io::Result<()>
    ensures whole { OnOk result (HasAppended W.contents writer.old writer.new octets.now) }
    ensures part { OnErr result (HasAppendedPart W.contents writer.old writer.new octets.now) }
{
    let mut rest = octets;
    for _ in 0..u64::MAX {
        if rest.is_empty() {
            return Ok(());
        }
        match writer.write(rest) {
            Ok(0) => return Err(ErrorKind::WriteZero.into()),
            Ok(count) => rest = &rest[count..],
            Err(e) if e.kind() == ErrorKind::Interrupted => {}
            Err(e) => return Err(e),
        }
    }
    Err(ErrorKind::TimedOut.into())
}
