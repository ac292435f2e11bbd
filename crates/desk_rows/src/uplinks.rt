//! The table of uplinks.
ghost use Rattle.std.specs.Prelude.{◌≡◌, ◌<◌, ◌^◌, [], ◌∷◌, ℕ, codes};
ghost use Rattle.desk_rows.specs.Calls.{Changes, ReadsFirst, Returns, ReturnsList};
ghost use Rattle.registry_core.specs.declared.facts.Uplink.{Uplink};
ghost use Rattle.registry_core.specs.Derived.{last_counter};
ghost use Rattle.registry_core.specs.Listing.{last_start};
ghost use Rattle.desk_rows.specs.Rows.{IsUplink, last_number, number};
ghost use Rattle.desk_rows.specs.order.Listed.{uplinks_listed};
ghost use Rattle.desk_rows.specs.steps.Latest.{last_start_asked};
ghost use Rattle.desk_rows.specs.steps.Shown.{uplink_shown};
ghost use Rattle.desk_rows.specs.steps.Texts.{AsksFor, uplinks_between_asked};
ghost use Rattle.desk_rows.specs.Written.{uplink_added};
ghost use Rattle.desk_rows.specs.Found.{frame_found, uplink_found};

use crate::columns::{band_at, frame_column, json_integer_at, kind_at, number_at, word_at};
use crate::faults::RowFault;
use crate::queries::{FromRow, find, find_all};
use crate::values::{band, blob, frame, integer, json_integer, kind, octets_of, unsigned, word};
use crate::writes::write;
use radio_core::Eui;
use registry_core::{JsonInteger, Kind, Uplink};
use sqlite::{Alter, Connection, Row, Transaction};
use std::alloc::Global;

impl FromRow for (u64, Uplink) {
    ghost Seen = { ℕ × Uplink };

    ghost seen = { λ found. found };

    ghost shows = { uplink_shown };

    ghost InRange = { λ found. IsUplink found.1 };

    fn from_row(row: &Row) -> Result<(u64, Uplink), RowFault> {
        let number = number_at(row, 0)?;
        let session = number_at(row, 1)?;
        let kind = kind_at(row, 2)?;
        let counter = word_at(row, 3)?;
        let octets = frame_column(row, 4)?;
        let start = json_integer_at(row, 5)?;
        let airtime = word_at(row, 6)?;
        let band = band_at(row, 7)?;
        let uplink = Uplink {
            session,
            kind,
            counter,
            octets,
            start,
            airtime,
            band,
        };
        Ok((number, uplink))
    }
}

/// Returns the number and the uplink with this number, from 1; `None` if there is none.
pub fn uplink<S: Alter>(
    conn: &mut Connection<S>,
    number: JsonInteger,
) -> Result<Option<(u64, Uplink)>, RowFault>
    ensures { Returns S.Store conn.old conn.new result (uplink_found number) }
{
    find(
        conn,
        "SELECT number, session, kind, counter, octets, start, airtime, band FROM uplink WHERE number = ?1 ORDER BY number",
        &[json_integer(number)],
    )
}

/// Returns the uplink of a session of this kind with this counter, and its number; `None` if there is none.
pub fn uplink_with<S: Alter>(
    conn: &mut Connection<S>,
    session: JsonInteger,
    of: Kind,
    counter: u32,
) -> Result<Option<(u64, Uplink)>, RowFault>
    ensures { Returns S.Store conn.old conn.new result (frame_found session of counter) }
{
    find(
        conn,
        "SELECT number, session, kind, counter, octets, start, airtime, band FROM uplink WHERE session = ?1 AND kind = ?2 AND counter = ?3 ORDER BY number",
        &[json_integer(session), kind(of), word(counter)],
    )
}

/// Returns the number of the last uplink, `None` if there is none.
pub fn last_uplink<S: Alter>(conn: &mut Connection<S>) -> Result<Option<u64>, RowFault>
    ensures second { Returns S.Store conn.old conn.new result (λ r. last_number r.uplinks) }
    ensures first { ReadsFirst S.Store conn.old conn.new result (λ r number. number ≡ last_number r.uplinks) }
{
    find(
        conn,
        "SELECT number FROM uplink ORDER BY number DESC LIMIT 1",
        &[],
    )
}

impl FromRow for u32 {
    ghost Seen = { ℕ };

    ghost seen = { λ n. n };

    ghost shows = { λ n. number n ∷ [] };

    ghost InRange = { λ n. n < 2 ^ 32 };

    fn from_row(row: &Row) -> Result<u32, RowFault> {
        word_at(row, 0)
    }
}

/// Returns the last counter of a session's data uplinks, `None` if it has none.
pub fn last_counter<S: Alter>(
    conn: &mut Connection<S>,
    session: JsonInteger,
) -> Result<Option<u32>, RowFault>
    ensures { Returns S.Store conn.old conn.new result (λ r. last_counter r.uplinks session) }
{
    find(
        conn,
        "SELECT counter FROM uplink WHERE session = ?1 AND kind = 1 ORDER BY counter DESC, number DESC LIMIT 1",
        &[json_integer(session)],
    )
}

/// Returns the SQL text of the look-up of the last start of a session.
#[tactic(auto, unfolding(sqlite::specs::Listing::understood, sqlite_tied::specs::Compute::everything))]
fn last_start_text() -> &'static str
    ensures { AsksFor result.now 1 last_start_asked (codes "start" ∷ []) }
{
    "SELECT start FROM uplink WHERE session = ?1 ORDER BY start DESC, number DESC LIMIT 1"
}

/// Returns the greatest start of a session's uplinks, joins and data, in microseconds since 1970 UTC; `None` if it has none.
pub fn last_start<S: Alter>(
    conn: &mut Connection<S>,
    session: JsonInteger,
) -> Result<Option<u64>, RowFault>
    ensures { Returns S.Store conn.old conn.new result (λ r. last_start r.uplinks session) }
{
    find(conn, last_start_text(), &[json_integer(session)])
}

/// Returns the SQL text of the look-up of the numbers of a device's uplinks in a range of starts.
#[tactic(auto, unfolding(sqlite::specs::Listing::understood, sqlite_tied::specs::Compute::everything))]
fn between_text() -> &'static str
    ensures { AsksFor result.now 3 uplinks_between_asked (codes "number" ∷ []) }
{
    "SELECT uplink.number FROM session JOIN uplink ON uplink.session = session.number WHERE session.device = ?1 AND uplink.start >= ?2 AND uplink.start < ?3 ORDER BY uplink.start, uplink.number"
}

/// Returns the numbers of the device's uplinks that start at `from` or later and before `to`, in microseconds since 1970 UTC. They are
/// ordered by start, and those that start together by number.
pub fn uplinks_between<S: Alter>(
    alloc: Global,
    conn: &mut Connection<S>,
    device: Eui,
    from: i64,
    to: i64,
) -> Result<Vec<u64>, RowFault>
    ensures { ReturnsList S.Store conn.old conn.new result (uplinks_listed device from to) }
{
    let eui = octets_of(device);
    find_all(
        alloc,
        conn,
        between_text(),
        &[blob(&eui), integer(from), integer(to)],
    )
}

/// Adds an uplink at the end.
pub fn insert_uplink<S: Alter>(tx: &mut Transaction<'_, S>, uplink: &Uplink) -> Result<(), RowFault>
    ensures same_reference { tx.new.conn.ghost_name ≡ tx.old.conn.ghost_name }
    ensures changes { Changes S.Store tx.old tx.new result (uplink_added uplink.now) }
{
    write(
        tx,
        "INSERT INTO uplink (session, kind, counter, octets, start, airtime, band) VALUES (?1, ?2, ?3, ?4, ?5, ?6, ?7)",
        &[
            unsigned(uplink.session),
            kind(uplink.kind),
            word(uplink.counter),
            frame(&uplink.octets),
            json_integer(uplink.start),
            word(uplink.airtime),
            band(uplink.band),
        ],
    )
}
