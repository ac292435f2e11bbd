//! Answers lines over any store, and returns why not all of them were answered.
ghost use Rattle.std.specs.Prelude.{◌≡◌, List};
ghost use Rattle.registry_core.specs.declared.messages.Envelope.{Envelope};
ghost use Rattle.registry_core.specs.Settings.{Settings};
ghost use Rattle.desk_engine.specs.InOrder.{WasInOrder};
ghost use Rattle.desk_engine.specs.Hearing.{StoreKeeps, StoreLeaves};
ghost use Rattle.desk_cli.specs.Answering.{AnswersBy};

use crate::faults::Fault;
use desk_engine::{LinesEnd, run_lines};
use desk_store::Keeper;
use std::alloc::Global;
use std::io::{Read, Write};

/// Delivers the messages of the reader, one a line, writes their answers, and flushes them.
///
/// # Errors
///
/// Returns `File` if a read or a write failed, and `Unavailable` if the store was.
pub(crate) fn answer_lines<K: Keeper, R: Read, W: Write>(
    alloc: Global,
    keeper: &mut K,
    reader: &mut R,
    answers: &mut W,
) -> Result<(), Fault>
    ensures same { K.meaning.configuration keeper.new ≡ K.meaning.configuration keeper.old }
    ensures was_sound { K.meaning.sound keeper.new → K.meaning.sound keeper.old }
    ensures ends { (c : Settings) (heard : List Envelope) → WasInOrder K.meaning c heard keeper.old keeper.new
        → AnswersBy c heard (StoreKeeps K.meaning c heard keeper.old keeper.new) (StoreLeaves K.meaning c heard keeper.old keeper.new)
        (R.remaining reader.old) (R.remaining reader.new) (W.contents answers.old) (W.contents answers.new) result }
{
    match run_lines(alloc, keeper, reader, answers) {
        LinesEnd::Done => match answers.flush() {
            Ok(()) => Ok(()),
            Err(_) => Err(Fault::File),
        },
        LinesEnd::Read => Err(Fault::File),
        LinesEnd::Write => Err(Fault::File),
        LinesEnd::Unavailable(fault) => Err(fault.into()),
    }
}
