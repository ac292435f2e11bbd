//! A new desk hears the log of a file.
ghost use Rattle.std.specs.Prelude.{OnOk, true};
ghost use Rattle.sqlite.specs.Held.{state};
ghost use Rattle.desk_rows.specs.Calls.{IsReadingCall};
ghost use Rattle.desk_cli.specs.steps.Audit.{HearsSome};

use desk_engine::laws::calls_hear_in_order;
use desk_engine::{Outcome, Progress, deliver};
use desk_rows::texts_at;
use desk_store::{Keeper, StoreFault};
use registry_core::JsonInteger;
use sqlite::{Alter, Connection};
use std::alloc::Global;

/// Delivers the messages of the file's replies to the keeper, from number 1 on. Ends at the first number without a reply, or after a
/// message whose answer isn't the one in the file. The rows of the file may be anything. `progress` shows how many messages are heard.
///
/// # Errors
///
/// Returns the keeper's error, and `Disk` if the file can't be read.
pub(crate) fn hear_log<S: Alter, K: Keeper, P: Progress>(
    alloc: Global,
    conn: &mut Connection<S>,
    keeper: &mut K,
    progress: &P,
) -> Result<(), StoreFault>
    ensures heard { OnOk result (HearsSome K.meaning keeper.old keeper.new) }
    ensures read { OnOk result (IsReadingCall (state S.Store conn.old) (state S.Store conn.new) true) }
{
    calls_hear_in_order::<K>();
    'log: for place in 0..u64::MAX {
        let Some(number) = JsonInteger::new(place + 1) else {
            break;
        };
        if !hear_reply(alloc, conn, keeper, number)? {
            break;
        }
        progress.messages(place + 1);
    }
    Ok(())
}

/// Delivers the message of the reply with this number. Returns `true` if there is such a reply and the answer is the one in the file.
///
/// # Errors
///
/// Returns the keeper's error, and `Disk` if the file can't be read.
fn hear_reply<S: Alter, K: Keeper>(
    alloc: Global,
    conn: &mut Connection<S>,
    keeper: &mut K,
    number: JsonInteger,
) -> Result<bool, StoreFault>
    ensures heard { OnOk result (HearsSome K.meaning keeper.old keeper.new) }
    ensures read { OnOk result (IsReadingCall (state S.Store conn.old) (state S.Store conn.new) true) }
{
    calls_hear_in_order::<K>();
    let texts = match texts_at(conn, number) {
        Ok(Some(texts)) => texts,
        Ok(None) => return Ok(false),
        Err(_) => return Err(StoreFault::Disk),
    };
    match deliver(alloc, keeper, &texts.message) {
        Outcome::Answered(answer) => Ok(answer.as_slice() == texts.answer.as_slice()),
        Outcome::Refused(_, _) => Ok(false),
        Outcome::Unavailable(fault) => Err(fault),
    }
}
