//! What a command does with the desk in a file, whatever store opens it.
ghost use Rattle.std.specs.Prelude.{◌≡◌, List};
ghost use Rattle.sqlite.specs.Held.{state};
ghost use Rattle.sqlite.specs.State.{HasCleanDisk};
ghost use Rattle.registry_core.specs.declared.messages.Envelope.{Envelope};
ghost use Rattle.registry_core.specs.Settings.{Settings};
ghost use Rattle.desk_cli.specs.RefusedFiles.{IsNotADesk, RefusesFile};
ghost use Rattle.desk_cli.specs.OnTables.{KeepsHeard, WasOpened};
ghost use Rattle.desk_cli.specs.steps.Jobs.{Done, DoesByStore};
ghost use Rattle.desk_tables.specs.AtRest.{IsAtRest};
ghost use Rattle.desk_cli.specs.Streams.{KeepsBoth, streams};

use crate::faults::Fault;
use crate::opening::opened;
use desk_store::Keeper;
use sqlite::{Alter, Connection};
use std::alloc::Global;
use std::io::{Read, Write};

/// What a command does with a store. It may read and write.
pub(crate) trait Job {
    /// What it has done, by how it ended.
    ghost does: { Self → Done };

    /// Does it.
    ///
    /// # Errors
    ///
    /// Returns why it isn't done.
    fn run<K: Keeper, R: Read, W: Write>(
        &self,
        alloc: Global,
        keeper: &mut K,
        reader: &mut R,
        answers: &mut W,
    ) -> Result<(), Fault>
        ensures same { K.meaning.configuration keeper.new ≡ K.meaning.configuration keeper.old }
        ensures was_sound { K.meaning.sound keeper.new → K.meaning.sound keeper.old }
        ensures does { (c : Settings) (heard : List Envelope) → WasOpened K.meaning keeper.old c heard → K.meaning.sound keeper.new
            → does self.now K K.meaning c heard keeper.old keeper.new (R.remaining reader.old) (R.remaining reader.new)
            (W.contents answers.old) (W.contents answers.new) result };
}

/// Does the job with the desk of the connection's database, and gives the connection back. Nothing is read or written before the desk is
/// open. A database that is not a desk of schema 2 is refused, and stays as it is.
pub(crate) fn run_job<S: Alter, J: Job, R: Read, W: Write>(
    alloc: Global,
    conn: Connection<S>,
    job: &J,
    reader: &mut R,
    answers: &mut W,
) -> (Result<(), Fault>, Connection<S>)
    requires at_rest { IsAtRest conn }
    ensures does { HasCleanDisk (state S.Store result.1) → (c : Settings) (heard : List Envelope) → KeepsHeard S.Store conn c heard
        → DoesByStore S.Store c heard result.1 (J.does job.now) (R.remaining reader.old) (R.remaining reader.new)
        (W.contents answers.old) (W.contents answers.new) result.0 }
    ensures not_a_desk { HasCleanDisk (state S.Store result.1) → IsNotADesk S.Store conn
        → RefusesFile S.Store conn result.1 (KeepsBoth (streams R.Read reader.old reader.new W.Write answers.old answers.new)) result.0 }
    ensures clean { HasCleanDisk (state S.Store result.1) → HasCleanDisk (state S.Store conn) }
{
    match opened(alloc, conn) {
        Ok(tables) => {
            let mut tables = tables;
            let done = job.run(alloc, &mut tables, reader, answers);
            (done, tables.close())
        }
        Err((fault, conn)) => (Err(fault), conn),
    }
}
