//! The table of bookings of downlinks.
ghost use Rattle.std.specs.Prelude.{◌≡◌, ◌<◌, ◌^◌, [], ◌∷◌, codes, if◌then◌else◌};
ghost use Rattle.duty_core.specs.Range.{IsStart};
ghost use Rattle.registry_core.specs.declared.facts.Booking.{Booking};
ghost use Rattle.registry_core.specs.declared.facts.Standing.TheVariants.{Dropped, Sent};
ghost use Rattle.registry_core.specs.Ranges.{IsName};
ghost use Rattle.desk_rows.specs.steps.Shown.{booking_shown};
ghost use Rattle.desk_rows.specs.steps.Texts.{AsksFor, answer_asked, bookings_between_asked};
ghost use Rattle.desk_rows.specs.Rows.{last_number};
ghost use Rattle.desk_rows.specs.order.Listed.{bookings_listed};
ghost use Rattle.desk_rows.specs.Calls.{Changes, ReadsFirst, Returns, ReturnsList};
ghost use Rattle.desk_rows.specs.Written.{booking_added, booking_ended};
ghost use Rattle.desk_rows.specs.Found.{booking_found, has_answer};

use crate::columns::{band_at, name_at, number_at, span_at, standing_at};
use crate::faults::RowFault;
use crate::queries::{FromRow, find, find_all, is_found};
use crate::values::{band, integer, json_integer, kind, len, standing, start, text, unsigned};
use crate::writes::write;
use radio_core::Name;
use registry_core::{Booking, JsonInteger, Kind, Standing};
use sqlite::{Alter, Connection, Row, Transaction};
use std::alloc::Global;

impl FromRow for Booking {
    ghost Seen = { Booking };

    ghost seen = { λ booking. booking };

    ghost shows = { booking_shown };

    ghost InRange = { λ booking. IsName booking.gateway × IsStart booking.span.start × (booking.span.len < 2 ^ 32) };

    fn from_row(row: &Row) -> Result<Booking, RowFault> {
        let uplink = number_at(row, 0)?;
        let gateway = name_at(row, 1)?;
        let band = band_at(row, 2)?;
        let span = span_at(row, 3)?;
        let standing = standing_at(row, 5)?;
        Ok(Booking {
            uplink,
            gateway,
            band,
            span,
            standing,
        })
    }
}

/// Returns the booking with this number, from 1; `None` if there is none.
pub fn booking<S: Alter>(
    conn: &mut Connection<S>,
    number: JsonInteger,
) -> Result<Option<Booking>, RowFault>
    ensures { Returns S.Store conn.old conn.new result (booking_found number) }
{
    find(
        conn,
        "SELECT uplink, gateway, band, start, airtime, state FROM booking WHERE number = ?1 ORDER BY number",
        &[json_integer(number)],
    )
}

/// Returns the SQL text of the look-up of an uplink's answer.
#[tactic(auto, unfolding(sqlite::specs::Listing::understood, sqlite_tied::specs::Compute::everything))]
fn answer_text() -> &'static str
    ensures { AsksFor result.now 1 answer_asked (codes "1" ∷ []) }
{
    "SELECT 1 FROM booking WHERE uplink = ?1 AND state <> 2 ORDER BY number"
}

/// Returns whether a booking that isn't dropped answers the uplink.
pub fn is_answered<S: Alter>(
    conn: &mut Connection<S>,
    uplink: JsonInteger,
) -> Result<bool, RowFault>
    ensures { Returns S.Store conn.old conn.new result (has_answer uplink) }
{
    is_found(conn, answer_text(), &[json_integer(uplink)])
}

/// Returns the number of the last booking, `None` if there is none.
pub fn last_booking<S: Alter>(conn: &mut Connection<S>) -> Result<Option<u64>, RowFault>
    ensures second { Returns S.Store conn.old conn.new result (λ r. last_number r.bookings) }
    ensures first { ReadsFirst S.Store conn.old conn.new result (λ r number. number ≡ last_number r.bookings) }
{
    find(
        conn,
        "SELECT number FROM booking ORDER BY number DESC LIMIT 1",
        &[],
    )
}

/// Returns the SQL text of the look-up of the numbers of a gateway's bookings in a range of starts.
#[tactic(auto, unfolding(sqlite::specs::Listing::understood, sqlite_tied::specs::Compute::everything))]
fn between_text() -> &'static str
    ensures { AsksFor result.now 3 bookings_between_asked (codes "number" ∷ []) }
{
    "SELECT number FROM booking WHERE gateway = ?1 AND start >= ?2 AND start < ?3 ORDER BY start, number"
}

/// Returns the numbers of the gateway's bookings that start at `from` or later and before `to`, in microseconds since 1970 UTC, dropped
/// ones too. They are ordered by start, and those that start together by number.
pub fn bookings_between<S: Alter>(
    alloc: Global,
    conn: &mut Connection<S>,
    gateway: &Name,
    from: i64,
    to: i64,
) -> Result<Vec<u64>, RowFault>
    ensures { ReturnsList S.Store conn.old conn.new result (bookings_listed gateway.now from to) }
{
    find_all(
        alloc,
        conn,
        between_text(),
        &[text(gateway), integer(from), integer(to)],
    )
}

/// Adds a booking at the end, with the session and the kind of the uplink that it answers.
pub fn insert_booking<S: Alter>(
    tx: &mut Transaction<'_, S>,
    booking: &Booking,
    session: u64,
    answers: Kind,
) -> Result<(), RowFault>
    ensures same_reference { tx.new.conn.ghost_name ≡ tx.old.conn.ghost_name }
    ensures changes { Changes S.Store tx.old tx.new result (booking_added booking.now session answers) }
{
    write(
        tx,
        "INSERT INTO booking (uplink, gateway, session, kind, band, start, airtime, state) VALUES (?1, ?2, ?3, ?4, ?5, ?6, ?7, ?8)",
        &[
            unsigned(booking.uplink),
            text(&booking.gateway),
            unsigned(session),
            kind(answers),
            band(booking.band),
            start(booking.span),
            len(booking.span),
            standing(booking.standing),
        ],
    )
}

/// Returns the state of a booking that has ended: `Sent` or `Dropped`.
fn ended(sent: bool) -> Standing
    ensures { result ≡ (if sent then Sent else Dropped) }
{
    if sent {
        Standing::Sent
    } else {
        Standing::Dropped
    }
}

/// Ends the booking with this number: marks it as sent, or else as dropped.
pub fn end_booking<S: Alter>(
    tx: &mut Transaction<'_, S>,
    number: JsonInteger,
    sent: bool,
) -> Result<(), RowFault>
    ensures same_reference { tx.new.conn.ghost_name ≡ tx.old.conn.ghost_name }
    ensures changes { Changes S.Store tx.old tx.new result (booking_ended number sent) }
{
    write(
        tx,
        "UPDATE booking SET state = ?2 WHERE number = ?1",
        &[json_integer(number), standing(ended(sent))],
    )
}
