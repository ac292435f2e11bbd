//! A desk of schema 1 is moved to schema 2 with all that it holds; what is none isn't moved, nor opened.
use super::holding::holds;
use super::ready;
use super::stops::{deliveries, expect_found, heard, rows_after};
use desk_store::StoreFault;
use desk_tables::Tables;
use sqlite::{Alter, Connection, MemStore};
use std::alloc::Global;
use std::process::Abort;
use std::test::Fail;

/// What made the tables and indexes of schema 1, letter for letter: files of that time have it.
#[rattlefmt::skip]
static FIRST_SCHEMA: [&str; 14] = [
    "CREATE TABLE meta (id INTEGER PRIMARY KEY, version INTEGER NOT NULL, receiver TEXT NOT NULL, operator TEXT NOT NULL, base INTEGER NOT NULL, addresses INTEGER NOT NULL) STRICT",
    "CREATE TABLE sender (name TEXT PRIMARY KEY, role INTEGER NOT NULL) STRICT",
    "CREATE TABLE reply (seq INTEGER PRIMARY KEY, sender TEXT NOT NULL, number INTEGER NOT NULL, message BLOB NOT NULL, answer BLOB NOT NULL, UNIQUE (sender, number)) STRICT",
    "CREATE TABLE owner (name TEXT PRIMARY KEY) STRICT",
    "CREATE TABLE gateway (name TEXT PRIMARY KEY) STRICT",
    "CREATE TABLE device (eui BLOB PRIMARY KEY, join_eui BLOB NOT NULL, owner TEXT NOT NULL, floor INTEGER) STRICT",
    "CREATE TABLE session (number INTEGER PRIMARY KEY, device BLOB NOT NULL, nonce INTEGER NOT NULL, next_down INTEGER NOT NULL, UNIQUE (device, nonce)) STRICT",
    "CREATE TABLE uplink (number INTEGER PRIMARY KEY, session INTEGER NOT NULL, kind INTEGER NOT NULL, counter INTEGER NOT NULL, octets BLOB NOT NULL, start INTEGER NOT NULL, airtime INTEGER NOT NULL, band INTEGER NOT NULL, UNIQUE (session, kind, counter)) STRICT",
    "CREATE TABLE copy (uplink INTEGER NOT NULL, gateway TEXT NOT NULL, ended INTEGER NOT NULL, freq INTEGER NOT NULL, dr INTEGER NOT NULL, PRIMARY KEY (uplink, gateway)) STRICT",
    "CREATE TABLE booking (number INTEGER PRIMARY KEY, uplink INTEGER NOT NULL, gateway TEXT NOT NULL, session INTEGER NOT NULL, kind INTEGER NOT NULL, band INTEGER NOT NULL, start INTEGER NOT NULL, airtime INTEGER NOT NULL, state INTEGER NOT NULL) STRICT",
    "CREATE INDEX device_owner ON device (owner, eui)",
    "CREATE INDEX uplink_start ON uplink (session, start)",
    "CREATE INDEX booking_start ON booking (gateway, start)",
    "CREATE INDEX booking_uplink ON booking (uplink)",
];

/// How each table is read, and how a row is put into it.
#[rattlefmt::skip]
static COPIES: [(&str, &str); 10] = [
    ("SELECT * FROM meta ORDER BY rowid", "INSERT INTO meta VALUES (?1, ?2, ?3, ?4, ?5, ?6)"),
    ("SELECT * FROM sender ORDER BY rowid", "INSERT INTO sender VALUES (?1, ?2)"),
    ("SELECT * FROM reply ORDER BY rowid", "INSERT INTO reply VALUES (?1, ?2, ?3, ?4, ?5)"),
    ("SELECT * FROM owner ORDER BY rowid", "INSERT INTO owner VALUES (?1)"),
    ("SELECT * FROM gateway ORDER BY rowid", "INSERT INTO gateway VALUES (?1)"),
    ("SELECT * FROM device ORDER BY rowid", "INSERT INTO device VALUES (?1, ?2, ?3, ?4)"),
    ("SELECT * FROM session ORDER BY rowid", "INSERT INTO session VALUES (?1, ?2, ?3, ?4)"),
    ("SELECT * FROM uplink ORDER BY rowid", "INSERT INTO uplink VALUES (?1, ?2, ?3, ?4, ?5, ?6, ?7, ?8)"),
    ("SELECT * FROM copy ORDER BY rowid", "INSERT INTO copy VALUES (?1, ?2, ?3, ?4, ?5)"),
    ("SELECT * FROM booking ORDER BY rowid", "INSERT INTO booking VALUES (?1, ?2, ?3, ?4, ?5, ?6, ?7, ?8, ?9)"),
];

fn copy_rows<S: Alter>(
    alloc: Global,
    from: &mut Connection<MemStore>,
    to: &mut Connection<S>,
) -> Result<(), Fail> {
    for (query, insert) in &COPIES {
        for row in &from.query_all(query, &[])? {
            let mut values = Vec::new(alloc);
            for at in 0..row.column_count() {
                values.push(row.get_ref(at)?)?;
            }
            to.execute(insert, &values)?;
        }
    }
    Ok(())
}

/// The tables and indexes of schema 1 go into a database that has nothing.
pub(super) fn make_first_tables<S: Alter>(conn: &mut Connection<S>) -> Result<(), Fail> {
    for statement in &FIRST_SCHEMA {
        conn.execute_batch(statement)?;
    }
    Ok(())
}

/// The tables of schema 1 go into a database that has nothing, with the rows of a desk that has heard the ten messages.
pub(crate) fn make_first<R: Abort + AllocGlobal, S: Alter>(
    rt: &R,
    conn: &mut Connection<S>,
) -> Result<(), Fail> {
    make_first_tables(conn)?;
    let mut from = heard(rt, &deliveries(rt.alloc())?)?;
    copy_rows(rt.alloc(), &mut from, conn)?;
    conn.execute_batch("UPDATE meta SET version = 1")?;
    Ok(())
}

/// Such a database in memory.
fn first<R: Abort + AllocGlobal>(rt: &R) -> Result<Connection<MemStore>, Fail> {
    let mut conn = Connection::open_in_memory(rt.alloc())?;
    make_first(rt, &mut conn)?;
    Ok(conn)
}

/// Why it isn't moved to schema 2, if it isn't, and the connection.
pub(super) fn moved<S: Alter + Drop>(
    alloc: Global,
    conn: Connection<S>,
) -> Result<(Option<StoreFault>, Connection<S>), Fail> {
    Ok(match Tables::migrate(alloc, ready(conn)?) {
        Ok(tables) => (None, tables.close()),
        Err((fault, conn)) => (Some(fault), conn),
    })
}

#[test]
fn a_desk_is_moved_with_all_it_holds(rt: HostRuntime) -> Result<(), Fail> {
    let deliveries = deliveries(rt.alloc())?;
    let (fault, conn) = moved(rt.alloc(), first(&rt)?)?;
    holds(&rt, fault.is_none(), "that it is moved");
    let (fault, conn) = moved(rt.alloc(), conn)?;
    let is_moved = fault == Some(StoreFault::SchemaVersion);
    holds(&rt, is_moved, "that it isn't moved again");
    drop(expect_found(&rt, conn, &deliveries, &rows_after(&rt, &deliveries)?)?);
    Ok(())
}

/// What is done to a database of schema 1, and why it isn't moved then.
static UNMOVED: [(&str, StoreFault); 5] = [
    (
        "CREATE TABLE Band_Limit (id INTEGER PRIMARY KEY)",
        StoreFault::Exists,
    ),
    (
        "CREATE INDEX band_limit ON owner (name)",
        StoreFault::Exists,
    ),
    (
        "CREATE TABLE note (id INTEGER PRIMARY KEY)",
        StoreFault::NotADesk,
    ),
    ("DELETE FROM meta", StoreFault::NotADesk),
    (
        "UPDATE meta SET version = 3; CREATE TABLE band_limit (id INTEGER PRIMARY KEY)",
        StoreFault::SchemaVersion,
    ),
];

#[test]
fn other_tables_are_not_moved(rt: HostRuntime) -> Result<(), Fail> {
    for (batch, wanted) in &UNMOVED {
        let mut conn = first(&rt)?;
        conn.execute_batch(batch)?;
        let (fault, _) = moved(rt.alloc(), conn)?;
        holds(&rt, fault == Some(*wanted), batch);
    }
    Ok(())
}

/// Why the database isn't opened as a desk's, if it isn't.
fn unopened(alloc: Global, conn: Connection<MemStore>) -> Result<Option<StoreFault>, Fail> {
    Ok(match Tables::open(alloc, ready(conn)?) {
        Ok(_) => None,
        Err((fault, _)) => Some(fault),
    })
}

/// What is done to a desk's database, and why it isn't opened then.
static UNOPENED: [(&str, StoreFault); 3] = [
    ("DELETE FROM meta", StoreFault::NotADesk),
    ("UPDATE meta SET version = 7", StoreFault::SchemaVersion),
    ("DROP INDEX booking_uplink", StoreFault::NotADesk),
];

#[test]
fn other_tables_are_not_opened(rt: HostRuntime) -> Result<(), Fail> {
    let deliveries = deliveries(rt.alloc())?;
    for (batch, wanted) in &UNOPENED {
        let mut conn = heard(&rt, &deliveries)?;
        conn.execute_batch(batch)?;
        let fault = unopened(rt.alloc(), conn)?;
        holds(&rt, fault == Some(*wanted), batch);
    }
    let fault = unopened(rt.alloc(), first(&rt)?)?;
    holds(&rt, fault == Some(StoreFault::SchemaVersion), "schema 1");
    Ok(())
}
