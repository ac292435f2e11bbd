//! The audit: whether a database is what a desk wrote.

ghost use Rattle.std.specs.Prelude.{◌≡◌, ◌≤◌, false, Err, List, None, IsTrue, IfErr, IfOk, IfSome};
ghost use Rattle.registry_core.specs.declared.messages.Envelope.{Envelope};
ghost use Rattle.registry_core.specs.Settings.{Settings};
ghost use Rattle.sqlite.specs.Held.{state};
ghost use Rattle.sqlite.specs.State.{HasCleanDisk, IsUnchanged};
ghost use Rattle.sqlite.specs.Steps.{IsFresh};
ghost use Rattle.sqlite_trees.specs.View.{IsClean, doubt};
ghost use Rattle.desk_rows.specs.Schema.{desk_schema};
ghost use Rattle.desk_tables.specs.Adopting.{IsGivenBack};
ghost use Rattle.desk_cli.specs.Audit.{IsFinding};
ghost use Rattle.desk_cli.specs.RefusedFiles.{IsNotADesk, IsRefused};
ghost use Rattle.desk_cli.specs.OnTables.{KeepsHeard};
ghost use Rattle.desk_cli.specs.steps.Audit.{BecameStore, IsDeskIf};
ghost use Rattle.desk_tables.specs.AtRest.{IsAtRest};

mod comparing;
mod hearing;
mod scratch;
mod walking;

use crate::faults::Fault;
use comparing::compared_desks;
use desk_engine::Progress;
use desk_engine::laws::as_many_entries_as_messages;
use desk_store::StoreFault;
use desk_tables::{Tables, open_desk};
use hearing::hear_log;
use registry_core::Config;
use registry_core::laws::nothing_is_heard;
use scratch::scratch_in_memory;
use sqlite::{Alter, Connection};
use std::alloc::Global;

/// The tables of a desk's file, in the order of the schema.
#[derive(Clone, Copy, PartialEq, Eq)]
pub enum Table {
    Meta,
    Sender,
    Reply,
    Owner,
    Gateway,
    Device,
    Session,
    Uplink,
    Copy,
    Booking,
    BandLimit,
}

/// The first place at which a database differs from that of a desk: a table, and the row's place in it, from 1.
#[derive(Clone, Copy, PartialEq, Eq)]
pub struct Place {
    pub table: Table,
    pub row: u64,
}

/// What an audit found.
#[derive(Clone, Copy)]
pub enum Finding {
    /// The database is exactly that of a desk which has heard this many messages.
    InOrder(u64),
    /// The database isn't what a desk wrote. This is the first place that differs.
    Differs(Place),
}

/// Reports whether the database is what a desk wrote.
///
/// Makes a new desk in the scratch database, lets it hear the messages of the audited database anew, and compares the rows of both. If all
/// are the same, returns `InOrder` with the number of messages. Otherwise returns `Differs` with the first row that differs. The replies
/// are compared first, then the other tables in the order of the schema.
///
/// The database is only read. Returns its connection too, unless the audit couldn't be completed. With a finding the scratch database is
/// returned as a store.
///
/// # Errors
///
/// Returns `NotADesk`, `Schema` or `Unavailable` if the database isn't a desk of schema 2, and `Unavailable` if an allocation failed or
/// either database can't be read or written.
pub(crate) fn audited_beside<S: Alter + Drop, R: Alter + Drop, P: Progress>(
    alloc: Global,
    conn: Connection<S>,
    scratch: Connection<R>,
    progress: &P,
) -> (Result<(Finding, R), Fault>, Option<Connection<S>>)
    requires at_rest { IsAtRest conn }
    requires scratch_at_rest { IsAtRest scratch }
    ensures passes { IfSome result.1 (λ back. HasCleanDisk (state S.Store back)
        → IfOk result.0 (λ found. IsClean (R.Store.view found.1) → IsFinding S.Store back found.0)) }
    ensures refused { IfSome result.1 (λ back. HasCleanDisk (state S.Store back) → IfErr result.0 (IsRefused S.Store conn back)) }
    ensures never { IfSome result.1 (λ back. HasCleanDisk (state S.Store back) → IfOk result.0 (λ _. ¬ IsNotADesk S.Store conn)) }
    ensures unavailable { IfSome result.1 (λ back. HasCleanDisk (state S.Store back) → (c : Settings) (heard : List Envelope)
        → KeepsHeard S.Store conn c heard → IfErr result.0 (λ fault. fault ≡ Fault.Unavailable)) }
    ensures kept { IfSome result.1 (λ back. IsGivenBack (state S.Store conn) (state S.Store back) (λ _. ⊥)) }
    ensures gone { result.1 ≡ None → result.0 ≡ Err Fault.Unavailable }
{
    let (config, conn) = match desk_of(conn) {
        Ok(found) => found,
        Err((fault, conn)) => return (Err(fault), Some(conn)),
    };
    let Ok((finding, store, scratch)) = heard_anew(alloc, conn, config, scratch, progress) else {
        return (Err(Fault::Unavailable), None);
    };
    match Connection::over(alloc, store) {
        Ok(conn) => (Ok((finding, scratch)), Some(conn)),
        Err(_) => (Err(Fault::Unavailable), None),
    }
}

/// Reads the database's schema and its row of meta, and returns the configuration of its desk. The connection is always returned.
///
/// # Errors
///
/// Returns `NotADesk`, `Schema` or `Unavailable` if the database isn't a desk of schema 2, and `Unavailable` if it can't be read.
fn desk_of<S: Alter>(conn: Connection<S>) -> Result<(Config, Connection<S>), (Fault, Connection<S>)>
    requires at_rest { IsAtRest conn }
    ensures desk { IfOk result (λ found. HasCleanDisk (state S.Store found.1) → (conn.schema ≡ desk_schema) × IsUnchanged (state S.Store conn) (state S.Store found.1)) }
    ensures idle { IfOk result (λ found. found.1.in_transaction ≡ false) }
    ensures never { IfOk result (λ found. HasCleanDisk (state S.Store found.1) → ¬ IsNotADesk S.Store conn) }
    ensures clean { IfOk result (λ found. doubt (S.Store.view conn.store).is_clean ≤ doubt (S.Store.view found.1.store).is_clean) }
    ensures unavailable { IfErr result (λ back. HasCleanDisk (state S.Store back.1) → (c : Settings) (heard : List Envelope)
        → KeepsHeard S.Store conn c heard → back.0 ≡ Fault.Unavailable) }
    ensures refused { IfErr result (λ back. HasCleanDisk (state S.Store back.1) → IsRefused S.Store conn back.1 back.0) }
    ensures given_back { IfErr result (λ back. IsGivenBack (state S.Store conn) (state S.Store back.1) (λ _. ⊥)) }
{
    let mut conn = conn;
    match open_desk(&mut conn) {
        Ok(config) => Ok((config, conn)),
        Err(fault) => Err((fault.into(), conn)),
    }
}

/// Reports whether the database is what a desk wrote, as `audited_beside` does, with a scratch database in memory.
///
/// Returns the connection too, unless the audit couldn't be completed. Then the error is `Unavailable`.
pub(crate) fn audited<S: Alter + Drop, P: Progress>(
    alloc: Global,
    conn: Connection<S>,
    progress: &P,
) -> (Result<Finding, Fault>, Option<Connection<S>>)
    requires at_rest { IsAtRest conn }
    ensures passes { IfSome result.1 (λ back. HasCleanDisk (state S.Store back) → IfOk result.0 (IsFinding S.Store back)) }
    ensures refused { IfSome result.1 (λ back. HasCleanDisk (state S.Store back) → IfErr result.0 (IsRefused S.Store conn back)) }
    ensures never { IfSome result.1 (λ back. HasCleanDisk (state S.Store back) → IfOk result.0 (λ _. ¬ IsNotADesk S.Store conn)) }
    ensures unavailable { IfSome result.1 (λ back. HasCleanDisk (state S.Store back) → (c : Settings) (heard : List Envelope)
        → KeepsHeard S.Store conn c heard → IfErr result.0 (λ fault. fault ≡ Fault.Unavailable)) }
    ensures kept { IfSome result.1 (λ back. IsGivenBack (state S.Store conn) (state S.Store back) (λ _. ⊥)) }
    ensures gone { result.1 ≡ None → result.0 ≡ Err Fault.Unavailable }
{
    match scratch_in_memory(alloc) {
        Ok(scratch) => audited_over(alloc, conn, scratch, progress),
        Err(_) => (Err(Fault::Unavailable), None),
    }
}

/// Reports the same, with a scratch database of a kind whose disk always returns what was written to it.
fn audited_over<S: Alter + Drop, R: Alter + Drop, P: Progress>(
    alloc: Global,
    conn: Connection<S>,
    scratch: Connection<R>,
    progress: &P,
) -> (Result<Finding, Fault>, Option<Connection<S>>)
    requires at_rest { IsAtRest conn }
    requires scratch_at_rest { IsAtRest scratch }
    requires sure { (store : R) → IsClean (R.Store.view store) }
    ensures passes { IfSome result.1 (λ back. HasCleanDisk (state S.Store back) → IfOk result.0 (IsFinding S.Store back)) }
    ensures refused { IfSome result.1 (λ back. HasCleanDisk (state S.Store back) → IfErr result.0 (IsRefused S.Store conn back)) }
    ensures never { IfSome result.1 (λ back. HasCleanDisk (state S.Store back) → IfOk result.0 (λ _. ¬ IsNotADesk S.Store conn)) }
    ensures unavailable { IfSome result.1 (λ back. HasCleanDisk (state S.Store back) → (c : Settings) (heard : List Envelope)
        → KeepsHeard S.Store conn c heard → IfErr result.0 (λ fault. fault ≡ Fault.Unavailable)) }
    ensures kept { IfSome result.1 (λ back. IsGivenBack (state S.Store conn) (state S.Store back) (λ _. ⊥)) }
    ensures gone { result.1 ≡ None → result.0 ≡ Err Fault.Unavailable }
{
    let (found, conn) = audited_beside(alloc, conn, scratch, progress);
    match found {
        Ok((finding, _)) => (Ok(finding), conn),
        Err(fault) => (Err(fault), conn),
    }
}

/// Audits a database whose schema is a desk's and whose row of meta has this configuration. Makes a new desk in the scratch database, lets
/// it hear the messages of the audited one, and compares the rows of both. Returns the finding, and both databases as stores.
///
/// # Errors
///
/// Returns the error of the new desk, and `Disk` if either database can't be read.
fn heard_anew<S: Alter + Drop, R: Alter + Drop, P: Progress>(
    alloc: Global,
    conn: Connection<S>,
    config: Config,
    scratch: Connection<R>,
    progress: &P,
) -> Result<(Finding, S, R), StoreFault>
    requires idle { conn.in_transaction ≡ false }
    requires scratch_at_rest { IsAtRest scratch }
    ensures found { IfOk result (λ ended. IsClean (S.Store.view ended.1) → IsClean (R.Store.view ended.2)
        → IsTrue (state S.Store conn).is_open → conn.schema ≡ desk_schema → IsDeskIf config (state S.Store conn).now ended.0) }
    ensures became { IfOk result (λ ended. IsClean (S.Store.view ended.1)
        → IsTrue (state S.Store conn).is_open → conn.schema ≡ desk_schema → BecameStore S.Store conn ended.1) }
    ensures clean { IfOk result (λ ended. doubt (S.Store.view conn.store).is_clean ≤ doubt (S.Store.view ended.1).is_clean) }
    ensures fresh { IfOk result (λ ended. IsClean (S.Store.view ended.1) → IsFresh (S.Store.view ended.1)) }
{
    nothing_is_heard();
    as_many_entries_as_messages();
    let mut conn = conn;
    let mut tables = match Tables::create(alloc, scratch, config) {
        Ok(tables) => tables,
        Err((fault, _)) => return Err(fault),
    };
    hear_log(alloc, &mut conn, &mut tables, progress)?;
    let other = tables.close();
    if !other.is_autocommit() {
        return Err(StoreFault::Disk);
    }
    match compared_desks(alloc, conn, other) {
        (Ok(finding), store, other) => Ok((finding, store, other)),
        (Err(_), _, _) => Err(StoreFault::Disk),
    }
}
