//! Writes the log of a desk: the messages that it has heard, or their answers, one a line.
ghost use Rattle.std.specs.Prelude.{◌≡◌, option_map};
ghost use Rattle.registry_core.specs.Numbered.{item_at};
ghost use Rattle.desk_store.specs.Calls.{ForHeld, IsRead, Tells, fault_in};
ghost use Rattle.desk_engine.specs.InOrder.{ForLog};
ghost use Rattle.desk_engine.specs.Log.{LogEndBy, WritesLog, fault_of_log, message_number};
ghost use Rattle.desk_engine.specs.steps.Logs.{log_line, log_lines};

use crate::writes::write_octets;
use desk_store::{EntryTexts, Keeper, StoreFault};
use desk_wire::decimal_of;
use registry_core::JsonInteger;
use std::io::Write;

/// Which text of each message a log has.
#[derive(Clone, Copy, PartialEq, Eq)]
pub enum LogText {
    /// The message, as `write_message` writes it.
    Message,
    /// Its answer.
    Answer,
}

/// How the writing of a log ended.
#[derive(Clone, Copy, PartialEq, Eq)]
pub enum LogEnd {
    /// All lines were written, this many.
    Done(u64),
    /// A write failed or took nothing. Some lines were written, and possibly the first octets of the next line.
    Write,
    /// The store was unavailable. Some lines were written, each to its end.
    Unavailable(StoreFault),
}

/// Returns the message number that a text writes: one to sixteen decimal digits, 1 to 9,007,199,254,740,991. `None` for any other text.
pub fn message_number(text: &str) -> Option<JsonInteger>
    ensures { result ≡ message_number text.now }
{
    let number = decimal_of(text.as_bytes())?;
    if number == 0 {
        return None;
    }
    JsonInteger::new(number)
}

/// Writes the texts of the messages from number `from` on, at most `most` of them, or of their answers, in the order in which the
/// messages were heard, each followed by one LF (octet 10). The first message has the number 1. Writes nothing if `from` is 0 or
/// above the number of messages heard.
///
/// It loads one message at a time, and doesn't flush the writer. Returns how that ended.
pub fn write_log<K: Keeper, W: Write>(
    keeper: &mut K,
    from: JsonInteger,
    most: JsonInteger,
    which: LogText,
    writer: &mut W,
) -> LogEnd
    ensures read { IsRead K.meaning keeper.old keeper.new (fault_of_log result) }
    ensures written { ForLog K.meaning keeper.old keeper.new
        (WritesLog W.contents writer.old writer.new which from most result) }
{
    write_entries(keeper, from, most, which, writer)
}

/// Writes the log by the entries that the store has.
fn write_entries<K: Keeper, W: Write>(
    keeper: &mut K,
    from: JsonInteger,
    most: JsonInteger,
    which: LogText,
    writer: &mut W,
) -> LogEnd
    ensures read { IsRead K.meaning keeper.old keeper.new (fault_of_log result) }
    ensures written { ForHeld K.meaning keeper.old keeper.new (λ kept.
        LogEndBy (log_lines which from most kept.entries) (W.contents writer.old) (W.contents writer.new) result) }
{
    let first = from.get();
    let most = most.get();
    let mut count: u64 = 0;
    while count < most {
        let line = match line_at(keeper, first + count, which) {
            Ok(Some(line)) => line,
            Ok(None) => return LogEnd::Done(count),
            Err(fault) => return LogEnd::Unavailable(fault),
        };
        if write_octets(writer, &line).is_err() {
            return LogEnd::Write;
        }
        count += 1;
    }
    LogEnd::Done(count)
}

/// Returns the line of the message with this number, from 1, with its LF, if there is one.
fn line_at<K: Keeper>(
    keeper: &mut K,
    number: u64,
    which: LogText,
) -> Result<Option<Vec<u8>>, StoreFault>
    ensures read { IsRead K.meaning keeper.old keeper.new (fault_in result) }
    ensures told { Tells K.meaning keeper.old keeper.new result
        (λ kept line. option_map (λ line. line.items) line ≡ option_map (log_line which) (item_at kept.entries number)) }
{
    let Some(EntryTexts { message, answer }) = keeper.entry(number)? else {
        return Ok(None);
    };
    let mut line = match which {
        LogText::Message => message,
        LogText::Answer => answer,
    };
    line.push(b'\n')?;
    Ok(Some(line))
}
