//! Worked rows: what is delivered to a new desk, and how it is answered. They are checked for each kind of store that tests can make.
ghost use Rattle.std.specs.Prelude.{IfOk};
ghost use Rattle.desk_tables.specs.AtRest.{IsAtRest};

mod audits;
mod csv_reports;
mod data_frames;
mod downlinks;
mod ends;
pub(crate) mod failing;
mod failing_audits;
pub(crate) mod filling;
mod fsk;
pub(crate) mod fuses;
pub(crate) mod holding;
mod hours;
pub(crate) mod importing;
mod joins;
mod keys;
mod limits;
mod lines;
mod lists;
pub(crate) mod log;
mod many;
pub(crate) mod migrating;
mod radio_rules;
mod reports;
pub(crate) mod requests;
pub(crate) mod room;
mod rooms;
pub(crate) mod rows;
mod runs;
pub(crate) mod second_schema;
pub(crate) mod stops;
mod stored_lines;
pub(crate) mod streams;
mod sweeping;
pub(crate) mod switched;
mod texts;

use desk_engine::{Outcome, deliver};
use desk_store::{Keeper, Lists};
use desk_tables::Tables;
use holding::holds_of;
use radio_core::Name;
use registry_core::{Config, Refusal};
use rows::{DEVICE_ADDED, Delivery, Exchange, SETUP, deliveries_of};
use sqlite::{Alter, Connection, MemStore};
use std::alloc::Global;
use std::process::Abort;
use std::test::Fail;
use stops::rows_in;

/// A store that tests can make.
pub(crate) trait Opened: Keeper + Drop + Sized {
    /// Returns one that has heard nothing.
    fn opened(alloc: Global, config: Config) -> Result<Box<Self>, Fail>;
}

impl Opened for Lists {
    fn opened(alloc: Global, config: Config) -> Result<Box<Self>, Fail> {
        Ok(Box::new(alloc, Lists::new(alloc, config)?)?)
    }
}

impl Opened for Tables<MemStore> {
    fn opened(alloc: Global, config: Config) -> Result<Box<Self>, Fail> {
        made(alloc, Connection::open_in_memory(alloc)?, config)
    }
}

/// A store that can be closed and opened again.
pub(crate) trait Reopened: Opened {
    /// Closes the store. Returns its rows as a text, and the store opened again.
    fn reopened(alloc: Global, store: Box<Self>) -> Result<(String, Box<Self>), Fail>;
}

impl Reopened for Tables<MemStore> {
    fn reopened(alloc: Global, store: Box<Self>) -> Result<(String, Box<Self>), Fail> {
        let mut conn = Box::into_inner(store).close();
        let rows = rows_in(alloc, &mut conn)?;
        Ok((rows, found(alloc, conn)?))
    }
}

/// Returns the connection, with no limit of steps and in no transaction.
pub(crate) fn ready<S: Alter + Drop>(conn: Connection<S>) -> Result<Connection<S>, &'static str>
    ensures at_rest { IfOk result IsAtRest }
{
    let mut conn = conn;
    conn.set_step_limit(None);
    if conn.is_autocommit() {
        Ok(conn)
    } else {
        Err("in a transaction")
    }
}

/// Makes a desk on tables, in a database that has nothing.
pub(crate) fn made<S: Alter + Drop>(
    alloc: Global,
    conn: Connection<S>,
    config: Config,
) -> Result<Box<Tables<S>>, Fail> {
    let tables = Tables::create(alloc, ready(conn)?, config).map_err(|_| "not made")?;
    Ok(Box::new(alloc, tables)?)
}

/// Opens the desk on tables that the database has.
pub(crate) fn found<S: Alter + Drop>(
    alloc: Global,
    conn: Connection<S>,
) -> Result<Box<Tables<S>>, Fail> {
    let tables = Tables::open(alloc, ready(conn)?).map_err(|_| "not opened")?;
    Ok(Box::new(alloc, tables)?)
}

pub(crate) fn config(addresses: u32) -> Option<Config> {
    Config::new(
        Name::new(b"desk")?,
        Name::new(b"office")?,
        0x01a0_0000,
        addresses,
    )
}

/// Makes a desk with this many addresses that has heard nothing.
pub(crate) fn opening<K: Opened>(alloc: Global, addresses: u32) -> Result<Box<K>, Fail> {
    K::opened(alloc, config(addresses).ok_or("no configuration")?)
}

/// Makes a desk with a sender, an owner, two gateways and a device.
fn with_device<R: Abort + AllocGlobal, K: Opened>(rt: &R) -> Result<Box<K>, Fail> {
    let mut keeper = opening::<K>(rt.alloc(), 65_536)?;
    deliver_each(rt, &mut *keeper, &SETUP)?;
    deliver_each(rt, &mut *keeper, &DEVICE_ADDED)?;
    Ok(keeper)
}

/// Checks that the outcome of the text in this row has this number and this text.
fn expect(rt: &impl Abort, row: &str, outcome: &Outcome, number: u8, wanted: &str) {
    let (told, came) = match outcome {
        Outcome::Answered(text) => (0, text.as_slice()),
        Outcome::Refused(refusal, text) => (refusal.ordinal(), text.as_slice()),
        Outcome::Unavailable(_) => (Refusal::Unavailable.ordinal(), b"unavailable".as_slice()),
    };
    let is_so = told == number && came == wanted.as_bytes();
    holds_of(rt, is_so, row, wanted, came);
}

/// Checks that the outcome is the delivery's.
fn expect_told(rt: &impl Abort, outcome: &Outcome, delivery: &Delivery) {
    let Delivery {
        text,
        number,
        wanted,
    } = delivery;
    expect(rt, text.as_str(), outcome, *number, wanted.as_str());
}

/// Delivers each, and checks its outcome.
fn hear_each<R: Abort + AllocGlobal, K: Keeper>(rt: &R, keeper: &mut K, deliveries: &[Delivery]) {
    for delivery in deliveries {
        let outcome = deliver(rt.alloc(), keeper, delivery.text.as_bytes());
        expect_told(rt, &outcome, delivery);
    }
}

/// Does the same with a desk on tables. Returns the connection to what it then stores.
pub(crate) fn told_each<R: Abort + AllocGlobal, S: Alter + Drop>(
    rt: &R,
    tables: Box<Tables<S>>,
    deliveries: &[Delivery],
) -> Connection<S> {
    let mut tables = tables;
    hear_each(rt, &mut *tables, deliveries);
    Box::into_inner(tables).close()
}

fn deliver_each<R: Abort + AllocGlobal, K: Keeper>(
    rt: &R,
    keeper: &mut K,
    rows: &[Exchange],
) -> Result<(), Fail> {
    hear_each(rt, keeper, &deliveries_of(rt.alloc(), rows)?);
    Ok(())
}

/// Checks all rows with stores of this kind.
fn rows_hold<R: Abort + AllocGlobal, K: Opened>(rt: &R) -> Result<(), Fail> {
    runs::have_their_outcomes::<R, K>(rt)?;
    runs::hours_have_their_outcomes::<R, K>(rt)?;
    limits::bands_show_limits::<R, K>(rt)?;
    importing::reports_are_heard_in_order::<R, K>(rt)?;
    reports::are_told::<R, K>(rt)?;
    rooms::are_told::<R, K>(rt)?;
    lists::are_told::<R, K>(rt)
}

#[test]
fn rows_over_lists(rt: HostRuntime) -> Result<(), Fail> {
    rows_hold::<HostRuntime, Lists>(&rt)
}

#[test]
fn rows_over_tables(rt: HostRuntime) -> Result<(), Fail> {
    rows_hold::<HostRuntime, Tables<MemStore>>(&rt)
}
