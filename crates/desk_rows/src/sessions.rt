//! The table of sessions.
ghost use Rattle.std.specs.Prelude.{◌≡◌, ℕ, ◌<◌, ◌^◌, [], ◌∷◌, codes};
ghost use Rattle.desk_rows.specs.Calls.{Changes, ReadsFirst, Returns, ReturnsList};
ghost use Rattle.registry_core.specs.declared.facts.Session.{Session};
ghost use Rattle.registry_core.specs.Listing.{sessions_of};
ghost use Rattle.registry_core.specs.Ranges.{IsEui};
ghost use Rattle.desk_rows.specs.Rows.{eui, last_number, number};
ghost use Rattle.desk_rows.specs.order.Facts.{sessions_in};
ghost use Rattle.desk_rows.specs.steps.Latest.{sessions_asked};
ghost use Rattle.desk_rows.specs.steps.Texts.{AsksFor, next_down_asked};
ghost use Rattle.desk_rows.specs.Written.{next_down_changed, session_added};
ghost use Rattle.desk_rows.specs.Found.{last_nonce_of, next_down_found, number_of_session, session_found};

use crate::columns::{eui_at, short_at};
use crate::faults::RowFault;
use crate::queries::{FromRow, find, find_all};
use crate::values::{blob, json_integer, octets_of, short};
use crate::writes::write;
use radio_core::Eui;
use registry_core::{JsonInteger, Session};
use sqlite::{Alter, Connection, Row, Transaction};
use std::alloc::Global;

impl FromRow for Session {
    ghost Seen = { Session };

    ghost seen = { λ session. session };

    ghost shows = { λ session. eui session.device ∷ number session.nonce ∷ [] };

    ghost InRange = { λ session. IsEui session.device × (session.nonce < 2 ^ 16) };

    fn from_row(row: &Row) -> Result<Session, RowFault> {
        let device = eui_at(row, 0)?;
        let nonce = short_at(row, 1)?;
        Ok(Session { device, nonce })
    }
}

/// Returns the session with this number, from 1; `None` if there is none.
pub fn session<S: Alter>(
    conn: &mut Connection<S>,
    number: JsonInteger,
) -> Result<Option<Session>, RowFault>
    ensures { Returns S.Store conn.old conn.new result (session_found number) }
{
    find(
        conn,
        "SELECT device, nonce FROM session WHERE number = ?1 ORDER BY number",
        &[json_integer(number)],
    )
}

/// Returns the SQL text of the look-up of a session's next downlink counter.
#[tactic(auto, unfolding(sqlite::specs::Listing::understood, sqlite_tied::specs::Compute::everything))]
fn next_down_text() -> &'static str
    ensures { AsksFor result.now 1 next_down_asked (codes "next_down" ∷ []) }
{
    "SELECT next_down FROM session WHERE number = ?1 ORDER BY number"
}

/// Returns how many bookings answer the data uplinks of the session with this number, `None` if there is none.
pub fn next_down<S: Alter>(
    conn: &mut Connection<S>,
    number: JsonInteger,
) -> Result<Option<u64>, RowFault>
    ensures { Returns S.Store conn.old conn.new result (next_down_found number) }
{
    find(conn, next_down_text(), &[json_integer(number)])
}

/// Returns the number of the session of the device with this nonce, `None` if there is none.
pub fn session_with_nonce<S: Alter>(
    conn: &mut Connection<S>,
    device: Eui,
    nonce: u16,
) -> Result<Option<u64>, RowFault>
    ensures { Returns S.Store conn.old conn.new result (number_of_session device nonce) }
{
    let octets = octets_of(device);
    find(
        conn,
        "SELECT number FROM session WHERE device = ?1 AND nonce = ?2 ORDER BY number",
        &[blob(&octets), short(nonce)],
    )
}

/// Returns the number of the last session, `None` if there is none.
pub fn last_session<S: Alter>(conn: &mut Connection<S>) -> Result<Option<u64>, RowFault>
    ensures second { Returns S.Store conn.old conn.new result (λ r. last_number r.sessions) }
    ensures first { ReadsFirst S.Store conn.old conn.new result (λ r number. number ≡ last_number r.sessions) }
{
    find(
        conn,
        "SELECT number FROM session ORDER BY number DESC LIMIT 1",
        &[],
    )
}

impl FromRow for u16 {
    ghost Seen = { ℕ };

    ghost seen = { λ n. n };

    ghost shows = { λ n. number n ∷ [] };

    ghost InRange = { λ n. n < 2 ^ 16 };

    fn from_row(row: &Row) -> Result<u16, RowFault> {
        short_at(row, 0)
    }
}

/// Returns the last nonce of a device, `None` if it has no session.
pub fn last_nonce<S: Alter>(conn: &mut Connection<S>, device: Eui) -> Result<Option<u16>, RowFault>
    ensures { Returns S.Store conn.old conn.new result (last_nonce_of device) }
{
    let octets = octets_of(device);
    find(
        conn,
        "SELECT nonce FROM session WHERE device = ?1 ORDER BY nonce DESC, number DESC LIMIT 1",
        &[blob(&octets)],
    )
}

/// Returns the SQL text of the look-up of a device's sessions.
#[tactic(auto, unfolding(sqlite::specs::Listing::understood, sqlite_tied::specs::Compute::everything))]
fn sessions_text() -> &'static str
    ensures { AsksFor result.now 1 sessions_asked (codes "number" ∷ []) }
{
    "SELECT number FROM session WHERE device = ?1 ORDER BY number"
}

/// Returns the numbers of the device's sessions, in the order in which they began.
pub fn sessions_of<S: Alter>(
    alloc: Global,
    conn: &mut Connection<S>,
    device: Eui,
) -> Result<Vec<u64>, RowFault>
    ensures { ReturnsList S.Store conn.old conn.new result (λ r. sessions_of (sessions_in r.sessions) device) }
{
    let octets = octets_of(device);
    find_all(alloc, conn, sessions_text(), &[blob(&octets)])
}

/// Adds a session at the end. No booking answers an uplink of it yet.
pub fn insert_session<S: Alter>(
    tx: &mut Transaction<'_, S>,
    session: Session,
) -> Result<(), RowFault>
    ensures same_reference { tx.new.conn.ghost_name ≡ tx.old.conn.ghost_name }
    ensures changes { Changes S.Store tx.old tx.new result (session_added session) }
{
    let device = octets_of(session.device);
    write(
        tx,
        "INSERT INTO session (device, nonce, next_down) VALUES (?1, ?2, 0)",
        &[blob(&device), short(session.nonce)],
    )
}

/// Sets how many bookings answer the data uplinks of the session with this number.
pub fn set_next_down<S: Alter>(
    tx: &mut Transaction<'_, S>,
    session: JsonInteger,
    next_down: JsonInteger,
) -> Result<(), RowFault>
    ensures same_reference { tx.new.conn.ghost_name ≡ tx.old.conn.ghost_name }
    ensures changes { Changes S.Store tx.old tx.new result (next_down_changed session next_down) }
{
    write(
        tx,
        "UPDATE session SET next_down = ?2 WHERE number = ?1",
        &[json_integer(session), json_integer(next_down)],
    )
}
