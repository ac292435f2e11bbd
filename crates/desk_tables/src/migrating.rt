//! Moves the tables of schema 1 to schema 2.
ghost use Rattle.std.specs.Prelude.{◌≡◌, ◌⊎◌, pos, false, Err, IfOk, IfErr, OnOk, OnErr};
ghost use Rattle.registry_core.specs.Settings.{Settings};
ghost use Rattle.sqlite.specs.Held.{state};
ghost use Rattle.sqlite.specs.State.{HasCleanDisk, IsUnchanged};
ghost use Rattle.desk_store.specs.Calls.{IsUnavailability};
ghost use Rattle.desk_store.specs.declared.faults.StoreFault.TheVariants.{Exists, NotADesk, SchemaVersion};
ghost use Rattle.desk_rows.specs.Meta.{TellsMeta};
ghost use Rattle.desk_rows.specs.Schema.{first_schema, first_version};
ghost use Rattle.desk_tables.specs.Adopting.{GivesBack, IsOrUnavailable, IsStoreAt, IsStoreOf, IsUnavailable, OnlyIf};
ghost use Rattle.desk_tables.specs.AtRest.{IsAtRest};
ghost use Rattle.desk_tables.specs.InOrder.{AreOfDesk};
ghost use Rattle.desk_tables.specs.Migrating.{ForFirstDesk, HasTakenName, IfNameTaken, IsNoFirstDesk, IsUnmigrated};
ghost use Rattle.desk_tables.specs.Store.{meaning_of};
ghost use Rattle.desk_tables.specs.steps.Migrating.{MakesSecond, Moves};
ghost use Rattle.desk_rows.specs.Calls.{CommitsNothing, WhenClean};
ghost use Rattle.desk_tables.specs.Opening.{HasDesk, HasNoDesk, HasOtherVersion, IfClean, IfOtherVersion, KeepsAll, WhenOpen};

use crate::counting::counted;
use crate::desk_shape::{is_first_schema, is_limit_taken};
use crate::faults::store_fault;
use crate::making::commit_fault;
use crate::opening::config_at;
use crate::tables::Tables;
use desk_rows::{RowFault, create_limits, raise_version};
use desk_store::StoreFault;
use registry_core::Config;
use sqlite::{Alter, Connection, Transaction};
use std::alloc::Global;

/// Returns the configuration of the desk whose tables of schema 1 the database has. Returns `Exists` if the name of the table that schema 1
/// lacks is taken.
fn first_desk<S: Alter>(conn: &mut Connection<S>) -> Result<Config, StoreFault>
    requires at_rest { IsAtRest conn.old }
    ensures desk { IfClean S.Store conn.new (IfOk result (HasDesk S.Store conn.old first_schema first_version)) }
    ensures in_order { HasCleanDisk (state S.Store conn.new) → conn.old.schema ≡ first_schema → (c : Settings)
        → TellsMeta (state S.Store conn.old).now.trees (pos first_version) c → IfErr result IsUnavailability }
    ensures version { IfClean S.Store conn.new (result ≡ Err SchemaVersion → HasOtherVersion S.Store conn.old first_version) }
    ensures other_version { IfClean S.Store conn.new (IfOtherVersion S.Store conn.old first_version
        (IfErr result (λ fault. (fault ≡ SchemaVersion) ⊎ IsUnavailability fault))) }
    ensures exists { IfClean S.Store conn.new (result ≡ Err Exists → HasTakenName S.Store conn.old) }
    ensures taken { IfClean S.Store conn.new (IfNameTaken S.Store conn.old
        (IfErr result (λ fault. (fault ≡ Exists) ⊎ IsUnavailability fault))) }
    ensures same { WhenClean S.Store conn.old conn.new (λ old new. OnOk result (IsUnchanged old new)) }
    ensures undone { WhenOpen S.Store conn.old conn.new (λ old new. OnErr result (KeepsAll old new)) }
    ensures settled { WhenOpen S.Store conn.old conn.new (λ old new. new.now ≡ new.committed) }
    ensures idle { conn.new.in_transaction ≡ false }
    ensures crash { CommitsNothing S.Store conn.old conn.new }
{
    let config = config_at(conn, 1)?;
    if is_limit_taken(conn.schema()) {
        return Err(StoreFault::Exists);
    }
    if !is_first_schema(conn.schema()) {
        return Err(StoreFault::NotADesk);
    }
    Ok(config)
}

/// Makes the table of limits, and then sets the version.
fn write_second<S: Alter>(tx: &mut Transaction<'_, S>) -> Result<(), RowFault>
    ensures same_reference { tx.new.conn.ghost_name ≡ tx.old.conn.ghost_name }
    ensures makes { MakesSecond (state S.Store tx.old.conn.now) (state S.Store tx.new.conn.now) result }
{
    create_limits(tx)?;
    raise_version(tx)
}

/// Does both in one transaction, or nothing.
fn move_tables<S: Alter>(conn: &mut Connection<S>) -> Result<(), RowFault>
    requires { conn.old.in_transaction ≡ false }
    ensures { Moves (state S.Store conn.old) (state S.Store conn.new) result }
{
    let mut tx = conn.transaction();
    write_second(&mut tx)?;
    match tx.commit() {
        Ok(()) => Ok(()),
        Err(error) => Err(commit_fault(error)),
    }
}

impl<S: Alter> Tables<S> {
    /// Moves a desk from schema 1 to schema 2 in one transaction, and returns its store. The desk represents the same log.
    ///
    /// # Errors
    ///
    /// Returns the error with the connection. If that is still open, the database is as it was. The checks come in this order.
    ///
    /// - `NotADesk` if the row of meta isn't a desk's.
    /// - `SchemaVersion` if that row has another version than 1.
    /// - `Exists` if the name of the table that schema 1 lacks is taken.
    /// - `NotADesk` if the rest of the schema isn't schema 1, or the last number of a table is out of its range.
    /// - `Memory`, `Disk` or `Size` if SQLite failed.
    pub fn migrate(
        alloc: Global,
        conn: Connection<S>,
    ) -> Result<Tables<S>, (StoreFault, Connection<S>)>
        requires at_rest { IsAtRest conn }
        ensures desk { IfOk result (IsStoreAt S.Store conn first_schema first_version) }
        ensures in_order { ForFirstDesk S.Store conn (λ c kept. IfOk result (IsStoreOf S.Store c kept)) }
        ensures unavailable { ForFirstDesk S.Store conn (λ c kept. IfErr result (IsUnavailable S.Store)) }
        ensures not_a_desk { IfErr result (OnlyIf S.Store NotADesk (IsNoFirstDesk S.Store conn)) }
        ensures version { IfErr result (OnlyIf S.Store SchemaVersion (HasOtherVersion S.Store conn first_version)) }
        ensures other_version { IfOtherVersion S.Store conn first_version (IfErr result (IsOrUnavailable S.Store SchemaVersion)) }
        ensures exists { IfErr result (OnlyIf S.Store Exists (HasTakenName S.Store conn)) }
        ensures taken { IfNameTaken S.Store conn (IfErr result (IsOrUnavailable S.Store Exists)) }
        ensures clean { IfOk result (λ t. (meaning_of S.Store).sound t → HasCleanDisk (state S.Store conn)) }
        ensures undone { IfErr result (IsUnmigrated S.Store conn) }
        ensures given_back { ForFirstDesk S.Store conn (λ c kept. IfErr result (GivesBack S.Store conn (AreOfDesk c kept))) }
        ensures refused { IfErr result (λ back. back.0 ≡ NotADesk → GivesBack S.Store conn (λ _. ⊥) back) }
        ensures untouched { HasNoDesk S.Store conn first_schema first_version → IfErr result (GivesBack S.Store conn (λ _. ⊥)) }
    {
        let mut conn = conn;
        let config = match first_desk(&mut conn) {
            Ok(config) => config,
            Err(fault) => return Err((fault, conn)),
        };
        // Counted before they are moved, so that a look-up that fails leaves them as they are.
        let counted = match counted(&mut conn) {
            Ok(counted) => counted,
            Err(fault) => return Err((store_fault(fault), conn)),
        };
        match move_tables(&mut conn) {
            Ok(()) => Ok(Tables::over(alloc, conn, config, counted)),
            Err(fault) => Err((store_fault(fault), conn)),
        }
    }
}
