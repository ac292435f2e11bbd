//! Counts the rows of each table, by its last number.
ghost use Rattle.std.specs.Prelude.{◌≡◌, unwrap_or};
ghost use Rattle.sqlite.specs.Held.{state};
ghost use Rattle.desk_tables.specs.steps.Calls.{Asks, AsksFirst};
ghost use Rattle.desk_tables.specs.steps.Counting.{AreRowsCounted};

use desk_rows::{RowFault, last_booking, last_reply, last_session, last_uplink};
use desk_store::Counts;
use sqlite::{Alter, Connection};

/// Returns the number, or 0 if there is none. A row's number is the number of rows up to it, since none is ever removed.
pub(crate) fn or_none(last: Option<u64>) -> u64
    ensures { result ≡ unwrap_or last 0 }
{
    last.unwrap_or(0)
}

/// Returns the number of messages that were heard, and the numbers of sessions, uplinks and bookings, in tables of either schema.
pub(crate) fn counted<S: Alter>(conn: &mut Connection<S>) -> Result<(u64, Counts), RowFault>
    ensures second { Asks (state S.Store conn.old) (state S.Store conn.new) result (λ r. Unit {0}) (λ r. Unit {0}) AreRowsCounted }
    ensures first { AsksFirst (state S.Store conn.old) (state S.Store conn.new) result (λ r. Unit {0}) (λ r. Unit {0}) AreRowsCounted }
{
    let replies = last_reply(conn)?;
    let sessions = last_session(conn)?;
    let uplinks = last_uplink(conn)?;
    let bookings = last_booking(conn)?;
    let counts = Counts {
        sessions: or_none(sessions),
        uplinks: or_none(uplinks),
        bookings: or_none(bookings),
    };
    Ok((or_none(replies), counts))
}
