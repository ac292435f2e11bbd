//! Reads the body of a request, and nothing after it.
ghost use Rattle.std.specs.Prelude.{◌≡◌, ◌<◌, [], length, IfOk, OnOk, MatchBool};
ghost use Rattle.std.specs.Io.KnownBytes.{Consumes, IsAtEnd};

use crate::heads::ReadFault;
use desk_engine::read_some;
use std::io::Read;

/// Reads `count` octets, and nothing after them. Returns false if the input ends before.
pub(crate) fn read_body<R: Read>(
    reader: &mut R,
    body: &mut Vec<u8>,
    count: usize,
) -> Result<bool, ReadFault>
    requires empty { body.old.items ≡ [] }
    ensures read { OnOk result (Consumes (R.remaining reader.old) (R.remaining reader.new) body.new.items) }
    ensures whole { IfOk result (λ b. MatchBool b (length body.new.items ≡ count)
        ((length body.new.items < count) × IsAtEnd (R.remaining reader.new))) }
{
    let mut chunk = [0u8; 4096];
    while body.len() < count {
        let room = (count - body.len()).min(4096);
        match read_some(reader, &mut chunk[..room]) {
            Ok(0) => return Ok(false),
            Ok(n) => {
                if body.extend_from_slice(&chunk[..n]).is_err() {
                    return Err(ReadFault::Memory);
                }
            }
            Err(_) => return Err(ReadFault::Read),
        }
    }
    Ok(true)
}
