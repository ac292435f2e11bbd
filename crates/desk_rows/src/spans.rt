//! Look-ups of the times on air of uplinks and downlinks.
ghost use Rattle.std.specs.Prelude.{◌<◌, ◌^◌, [], ◌∷◌, codes, pos};
ghost use Rattle.duty_core.specs.Range.{IsStart};
ghost use Rattle.duty_core.specs.Use.{Interval};
ghost use Rattle.registry_core.specs.declared.views.NearBooking.{NearBooking};
ghost use Rattle.desk_rows.specs.Calls.{ReturnsList};
ghost use Rattle.desk_rows.specs.steps.Shown.{near_booking_shown, span_shown};
ghost use Rattle.desk_rows.specs.steps.Texts.{AsksFor, bookings_asked, near_asked};
ghost use Rattle.desk_rows.specs.Found.{booking_spans, near_found, uplink_spans};

use crate::columns::{band_at, span_at};
use crate::faults::RowFault;
use crate::queries::{FromRow, find_all};
use crate::values::{band, blob, integer, octets_of, text};
use duty_core::{Span, near_range};
use radio_core::{Band, Eui, Name};
use registry_core::NearBooking;
use sqlite::{Alter, Connection, Row};
use std::alloc::Global;

impl FromRow for Span {
    ghost Seen = { Interval };

    ghost seen = { λ span. span };

    ghost shows = { span_shown };

    ghost InRange = { λ span. IsStart span.start × (span.len < 2 ^ 32) };

    fn from_row(row: &Row) -> Result<Span, RowFault> {
        span_at(row, 0)
    }
}

impl FromRow for NearBooking {
    ghost Seen = { NearBooking };

    ghost seen = { λ near. near };

    ghost shows = { near_booking_shown };

    ghost InRange = { λ near. IsStart near.span.start × (near.span.len < 2 ^ 32) };

    fn from_row(row: &Row) -> Result<NearBooking, RowFault> {
        let span = span_at(row, 0)?;
        let band = band_at(row, 2)?;
        Ok(NearBooking { band, span })
    }
}

/// Returns the SQL text of the look-up of a gateway's bookings in a band.
#[tactic(auto, unfolding(sqlite::specs::Listing::understood, sqlite_tied::specs::Compute::everything))]
fn bookings_text() -> &'static str
    ensures { AsksFor result.now 2 bookings_asked (codes "start" ∷ codes "airtime" ∷ []) }
{
    "SELECT start, airtime FROM booking WHERE gateway = ?1 AND band = ?2 AND state <> 2 ORDER BY start, number"
}

/// Returns the times on air of the gateway's bookings in the band that aren't dropped, ordered by start, and those that start together by
/// number.
pub fn bookings_of<S: Alter>(
    alloc: Global,
    conn: &mut Connection<S>,
    gateway: &Name,
    of: Band,
) -> Result<Vec<Span>, RowFault>
    ensures { ReturnsList S.Store conn.old conn.new result (booking_spans gateway.now of) }
{
    find_all(alloc, conn, bookings_text(), &[text(gateway), band(of)])
}

/// Returns the SQL text of the look-up of a gateway's bookings between two starts.
#[tactic(auto, unfolding(sqlite::specs::Listing::understood, sqlite_tied::specs::Compute::everything))]
fn near_text() -> &'static str
    ensures { AsksFor result.now 3 near_asked (codes "start" ∷ codes "airtime" ∷ codes "band" ∷ []) }
{
    "SELECT start, airtime, band FROM booking WHERE gateway = ?1 AND start > ?2 AND start < ?3 AND state <> 2 ORDER BY start, number"
}

/// Returns the gateway's bookings that aren't dropped and start near `start`, in microseconds since 1970 UTC: less than an hour and 3
/// seconds from it. They are ordered by start, and those that start together by number.
pub fn near<S: Alter>(
    alloc: Global,
    conn: &mut Connection<S>,
    gateway: &Name,
    start: u64,
) -> Result<Vec<NearBooking>, RowFault>
    ensures { ReturnsList S.Store conn.old conn.new result (near_found gateway.now (pos start)) }
{
    let range = near_range(i128::from(start));
    find_all(
        alloc,
        conn,
        near_text(),
        &[text(gateway), integer(range.after), integer(range.before)],
    )
}

/// Returns the times on air of the device's uplinks in the band that start at `from` or later and before `to`, in microseconds since 1970
/// UTC. They are ordered by start, and those that start together by number.
pub fn uplinks_of<S: Alter>(
    alloc: Global,
    conn: &mut Connection<S>,
    device: Eui,
    of: Band,
    from: i64,
    to: i64,
) -> Result<Vec<Span>, RowFault>
    ensures { ReturnsList S.Store conn.old conn.new result (uplink_spans device of from to) }
{
    let eui = octets_of(device);
    find_all(
        alloc,
        conn,
        "SELECT uplink.start, uplink.airtime FROM session JOIN uplink ON uplink.session = session.number WHERE session.device = ?1 AND uplink.start >= ?2 AND uplink.start < ?3 AND uplink.band = ?4 ORDER BY uplink.start, uplink.number",
        &[blob(&eui), integer(from), integer(to), band(of)],
    )
}
