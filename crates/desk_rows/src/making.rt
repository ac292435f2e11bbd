//! Makes the tables of a new desk, and the row of meta with its configuration.
ghost use Rattle.std.specs.Prelude.{◌≡◌, None, IsTrue, IfErr, OnOk};
ghost use Rattle.sqlite.specs.State.{KeepsCommit};
ghost use Rattle.desk_rows.specs.Calls.{CommitsNothing, LeadsTo, WhenClean, WhenInside, WritesInside};
ghost use Rattle.desk_rows.specs.Faults.{IsEven};
ghost use Rattle.desk_rows.specs.Making.{IsBare, MakesAnew, settings_rows};
ghost use Rattle.desk_rows.specs.Rows.{Holds};
ghost use Rattle.desk_rows.specs.Schema.{no_schema};

use crate::faults::{RowFault, fault_of};
use crate::values::{text, word};
use crate::writes::write;
use registry_core::Config;
use sqlite::{Alter, Transaction};

/// Schema 2, as `.schema` of sqlite3 prints it for a desk's file.
const TABLES: &str = "\
CREATE TABLE meta (id INTEGER PRIMARY KEY, version INTEGER NOT NULL, receiver TEXT NOT NULL, \
    operator TEXT NOT NULL, base INTEGER NOT NULL, addresses INTEGER NOT NULL) STRICT; \
CREATE TABLE sender (name TEXT PRIMARY KEY, role INTEGER NOT NULL) STRICT; \
CREATE TABLE reply (seq INTEGER PRIMARY KEY, sender TEXT NOT NULL, number INTEGER NOT NULL, \
    message BLOB NOT NULL, answer BLOB NOT NULL, UNIQUE (sender, number)) STRICT; \
CREATE TABLE owner (name TEXT PRIMARY KEY) STRICT; \
CREATE TABLE gateway (name TEXT PRIMARY KEY) STRICT; \
CREATE TABLE device (eui BLOB PRIMARY KEY, join_eui BLOB NOT NULL, owner TEXT NOT NULL, floor INTEGER) STRICT; \
CREATE TABLE session (number INTEGER PRIMARY KEY, device BLOB NOT NULL, nonce INTEGER NOT NULL, \
    next_down INTEGER NOT NULL, UNIQUE (device, nonce)) STRICT; \
CREATE TABLE uplink (number INTEGER PRIMARY KEY, session INTEGER NOT NULL, kind INTEGER NOT NULL, \
    counter INTEGER NOT NULL, octets BLOB NOT NULL, start INTEGER NOT NULL, airtime INTEGER NOT NULL, \
    band INTEGER NOT NULL, UNIQUE (session, kind, counter)) STRICT; \
CREATE TABLE copy (uplink INTEGER NOT NULL, gateway TEXT NOT NULL, ended INTEGER NOT NULL, freq INTEGER NOT NULL, \
    dr INTEGER NOT NULL, PRIMARY KEY (uplink, gateway)) STRICT; \
CREATE TABLE booking (number INTEGER PRIMARY KEY, uplink INTEGER NOT NULL, gateway TEXT NOT NULL, \
    session INTEGER NOT NULL, kind INTEGER NOT NULL, band INTEGER NOT NULL, start INTEGER NOT NULL, \
    airtime INTEGER NOT NULL, state INTEGER NOT NULL) STRICT; \
CREATE INDEX device_owner ON device (owner, eui); \
CREATE INDEX uplink_start ON uplink (session, start); \
CREATE INDEX booking_start ON booking (gateway, start); \
CREATE INDEX booking_uplink ON booking (uplink); \
CREATE TABLE band_limit (gateway TEXT NOT NULL, band INTEGER NOT NULL, value INTEGER NOT NULL, \
    PRIMARY KEY (gateway, band)) STRICT";

/// Makes the eleven tables with their indexes, in one batch, in a database that has none.
pub fn create_tables<S: Alter>(tx: &mut Transaction<'_, S>) -> Result<(), RowFault>
    ensures same_reference { tx.new.conn.ghost_name ≡ tx.old.conn.ghost_name }
    ensures made { MakesAnew S.Store tx.old tx.new result (λ s. IsBare s.now) }
    ensures open { MakesAnew S.Store tx.old tx.new result (λ s. IsTrue s.is_open) }
    ensures kept { WhenClean S.Store tx.old.conn.now tx.new.conn.now KeepsCommit }
    ensures inside { WhenClean S.Store tx.old.conn.now tx.new.conn.now
        (λ old new. OnOk result (new.in_transaction ≡ old.in_transaction)) }
    ensures survives { CommitsNothing S.Store tx.old.conn.now tx.new.conn.now }
    ensures in_order { WhenInside S.Store tx.old tx.new
        (λ old new. old.now.schema ≡ no_schema → IfErr result IsEven) }
{
    match tx.execute_batch(TABLES) {
        Ok(()) => Ok(()),
        Err(error) => Err(fault_of(error)),
    }
}

/// Adds the one row of meta: version 2 of the schema, and the desk's configuration.
pub fn insert_settings<S: Alter>(
    tx: &mut Transaction<'_, S>,
    config: &Config,
) -> Result<(), RowFault>
    ensures same_reference { tx.new.conn.ghost_name ≡ tx.old.conn.ghost_name }
    ensures write { WritesInside S.Store tx.old tx.new result }
    ensures made { LeadsTo S.Store tx.old tx.new result IsBare (λ db. Holds db (settings_rows config.now)) }
    ensures in_order { WhenInside S.Store tx.old tx.new
        (λ old new. old.step_limit ≡ None → IsBare old.now → IfErr result IsEven) }
{
    write(
        tx,
        "INSERT INTO meta (version, receiver, operator, base, addresses) VALUES (2, ?1, ?2, ?3, ?4)",
        &[
            text(config.receiver()),
            text(config.operator()),
            word(config.base()),
            word(config.addresses()),
        ],
    )
}
