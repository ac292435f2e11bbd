//! The headline over tables: a desk is made, answers texts, and its database represents the log.
ghost use Rattle.std.specs.Prelude.{IfOk};
ghost use Rattle.sqlite.specs.Held.{state};
ghost use Rattle.sqlite.specs.Steps.{over_memory};
ghost use Rattle.desk_engine.specs.Outcomes.{AreOutcomes};
ghost use Rattle.desk_engine.specs.Repeats.{RepeatsGetFirstAnswers};
ghost use Rattle.desk_engine.specs.Runs.{AlwaysGoesByRules, HearsTexts, IfRun, IfRunDelivers};
ghost use Rattle.desk_engine.specs.Uplinks.{UplinksStayBooked};
ghost use Rattle.desk_tables.specs.AtRest.{IsAtRest};
ghost use Rattle.desk_cli.specs.Delivered.{AnswersAll, CommitsAll, HasAll, IfRan, IfRanOver, KeepRulesThroughout, KeepUplinks, LeavesAll, RepeatsAreSame, StoresAll, UnlessDisk, UnlessDiskOver};
ghost use Rattle.desk_cli.specs.OnTables.{KeepsRules, LeavesRules};

use desk_engine::{Outcome, run};
use desk_store::{Keeper, StoreFault};
use desk_tables::Tables;
use registry_core::Config;
use registry_core::laws::{nothing_is_heard, rules_are_kept};
use sqlite::{Alter, Connection, MemStore};
use std::alloc::Global;

/// Makes a desk in a database that has nothing, delivers texts in order, and gives the connection back with an outcome for each text.
///
/// The clauses about values are for a disk that has returned what was written to it.
///
/// # Errors
///
/// Returns, with the connection, why there is no desk, or `Memory` if memory for the outcomes ran out.
pub fn run_on_tables<S: Alter>(
    alloc: Global,
    conn: Connection<S>,
    config: Config,
    texts: &[&[u8]],
) -> (Result<Vec<Outcome>, StoreFault>, Connection<S>)
    requires at_rest { IsAtRest conn }
    ensures outcomes { IfRanOver S.Store result (λ conn. AnswersAll config texts.now) }
    ensures repeats { IfRanOver S.Store result (λ conn. RepeatsAreSame config texts.now) }
    ensures rules_before { IfRanOver S.Store result (λ conn. KeepRulesThroughout config texts.now) }
    ensures uplinks { IfRanOver S.Store result (λ conn. KeepUplinks config texts.now) }

    // Unless an outcome is `Disk`, the database represents exactly the log, and all of it is committed.
    ensures tables { UnlessDiskOver S.Store result (λ conn. StoresAll S.Store conn config texts.now) }

    // Whatever the outcomes are, a crash leaves the log, or after a disk error possibly the log with the in-flight message.
    ensures crash { IfRanOver S.Store result (λ conn. LeavesAll S.Store conn config texts.now) }

    // Whatever the database then represents, and whatever a crash leaves, satisfies the registry's rules: no two sessions have one device
    // and one nonce, no two uplinks have one session, one kind and one counter, and no hour of any gateway's band has more booked airtime
    // than its limit. For the database this is stated if no outcome is `Disk`.
    ensures rules { UnlessDiskOver S.Store result (λ conn ran. KeepsRules config (state S.Store conn).now) }
    ensures rules_left { IfRanOver S.Store result (λ conn ran. LeavesRules S.Store conn config) }
{
    nothing_is_heard();
    rules_are_kept();
    match Tables::create(alloc, conn, config) {
        Ok(tables) => {
            let mut tables = tables;
            match deliver_all(alloc, &mut tables, texts) {
                Ok(outcomes) => (Ok(outcomes), tables.close()),
                Err(fault) => (Err(fault), tables.close()),
            }
        }
        Err((fault, conn)) => (Err(fault), conn),
    }
}

/// Does the same in memory, for every configuration and every list of texts, with no condition on the caller or a disk. Returns the
/// outcomes and the connection.
///
/// # Errors
///
/// Returns why there is no desk, or `Memory` if an allocation failed.
pub fn run_in_memory(
    alloc: Global,
    config: Config,
    texts: &[&[u8]],
) -> Result<(Vec<Outcome>, Connection<MemStore>), StoreFault>
    ensures outcomes { IfRan result (λ conn. AnswersAll config texts.now) }
    ensures repeats { IfRan result (λ conn. RepeatsAreSame config texts.now) }
    ensures rules_before { IfRan result (λ conn. KeepRulesThroughout config texts.now) }
    ensures uplinks { IfRan result (λ conn. KeepUplinks config texts.now) }
    ensures tables { UnlessDisk result (λ conn. HasAll over_memory conn config texts.now) }
    ensures committed { IfRan result (λ conn. CommitsAll over_memory conn config texts.now) }
    ensures rules { UnlessDisk result (λ conn ran. KeepsRules config (state over_memory conn).now) }
    ensures rules_left { IfRan result (λ conn ran. LeavesRules over_memory conn config) }
{
    let Ok(conn) = Connection::open_in_memory(alloc) else {
        return Err(StoreFault::Memory);
    };
    let (outcomes, conn) = run_on_tables(alloc, conn, config, texts);
    match outcomes {
        Ok(outcomes) => Ok((outcomes, conn)),
        Err(fault) => Err(fault),
    }
}

/// Delivers texts in order, and returns an outcome for each.
///
/// # Errors
///
/// Returns `Memory` if memory for the outcomes ran out. Nothing was delivered then.
fn deliver_all<K: Keeper>(
    alloc: Global,
    keeper: &mut K,
    texts: &[&[u8]],
) -> Result<Vec<Outcome>, StoreFault>
    ensures store { IfOk result (HearsTexts K.meaning keeper.old keeper.new texts.now) }
    ensures outcomes { IfRun K.meaning keeper.old keeper.new texts.now result AreOutcomes }
    ensures repeats { IfRun K.meaning keeper.old keeper.new texts.now result (λ c _. RepeatsGetFirstAnswers c) }
    ensures rules_before { IfRunDelivers K.meaning keeper.old keeper.new texts.now result AlwaysGoesByRules }
    ensures uplinks { IfRunDelivers K.meaning keeper.old keeper.new texts.now result UplinksStayBooked }
{
    match run(alloc, keeper, texts) {
        Ok(outcomes) => Ok(outcomes),
        Err(_) => Err(StoreFault::Memory),
    }
}
