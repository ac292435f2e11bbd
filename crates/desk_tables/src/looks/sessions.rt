//! Look-ups of a session. No session has a number of 2^53 or more.
ghost use Rattle.std.specs.Prelude.{◌≡◌, IfSome, option_and_then};
ghost use Rattle.registry_core.specs.Bookings.{next_down};
ghost use Rattle.registry_core.specs.Derived.{data_with, is_below, is_below_floor, last_counter};
ghost use Rattle.registry_core.specs.Listing.{last_start};
ghost use Rattle.registry_core.specs.Numbered.{item_at};
ghost use Rattle.desk_rows.specs.Calls.{Reads};
ghost use Rattle.desk_tables.specs.Seen.{IsCounterOf, IsFloorOf, IsSessionAt};
ghost use Rattle.desk_tables.specs.steps.LookUps.{OfKept};

use desk_rows::order::look_ups_tell;
use desk_rows::{RowFault, floor_of, uplink_with};
use radio_core::Eui;
use registry_core::{JsonInteger, Kind, Session, Uplink};
use sqlite::{Alter, Connection};

pub(crate) fn session<S: Alter>(
    conn: &mut Connection<S>,
    number: u64,
) -> Result<Option<Session>, RowFault>
    ensures kept { Reads S.Store conn.old conn.new result (OfKept (λ kept session. session ≡ item_at kept.facts.sessions number)) }
    ensures shows { Reads S.Store conn.old conn.new result (λ r session. IfSome session (IsSessionAt r number)) }
{
    look_ups_tell();
    match JsonInteger::new(number) {
        Some(number) => desk_rows::session(conn, number),
        None => Ok(None),
    }
}

pub(crate) fn last_counter<S: Alter>(
    conn: &mut Connection<S>,
    session: u64,
) -> Result<Option<u32>, RowFault>
    ensures kept { Reads S.Store conn.old conn.new result (OfKept (λ kept counter. counter ≡ last_counter kept.facts.uplinks session)) }
    ensures shows { Reads S.Store conn.old conn.new result (λ r counter. IfSome counter (IsCounterOf r session)) }
{
    match JsonInteger::new(session) {
        Some(session) => desk_rows::last_counter(conn, session),
        None => Ok(None),
    }
}

pub(crate) fn last_start<S: Alter>(
    conn: &mut Connection<S>,
    session: u64,
) -> Result<Option<u64>, RowFault>
    ensures { Reads S.Store conn.old conn.new result (OfKept (λ kept start. start ≡ last_start kept.facts.uplinks session)) }
{
    match JsonInteger::new(session) {
        Some(session) => desk_rows::last_start(conn, session),
        None => Ok(None),
    }
}

pub(crate) fn data_with<S: Alter>(
    conn: &mut Connection<S>,
    session: u64,
    counter: u32,
) -> Result<Option<(u64, Uplink)>, RowFault>
    ensures { Reads S.Store conn.old conn.new result (OfKept (λ kept found. found ≡ data_with kept.facts.uplinks session counter)) }
{
    look_ups_tell();
    match JsonInteger::new(session) {
        Some(session) => uplink_with(conn, session, Kind::Data, counter),
        None => Ok(None),
    }
}

pub(crate) fn next_down<S: Alter>(conn: &mut Connection<S>, session: u64) -> Result<u64, RowFault>
    ensures { Reads S.Store conn.old conn.new result
        (OfKept (λ kept counter. counter ≡ next_down kept.facts.bookings kept.facts.uplinks session)) }
{
    look_ups_tell();
    match JsonInteger::new(session) {
        Some(session) => Ok(desk_rows::next_down(conn, session)?.unwrap_or(0)),
        None => Ok(0),
    }
}

/// Returns whether the number is below the floor, if the device has one.
fn is_session_below(number: u64, floor: Option<Option<u64>>) -> bool
    ensures { result ≡ is_below number (option_and_then (λ floor. floor) floor) }
{
    match floor {
        Some(Some(floor)) => number < floor,
        _ => false,
    }
}

/// Returns whether the session is below the device's floor, and the floor, if there is such a device.
pub(crate) fn is_below_floor<S: Alter>(
    conn: &mut Connection<S>,
    device: Eui,
    session: u64,
) -> Result<(bool, Option<Option<u64>>), RowFault>
    ensures kept { Reads S.Store conn.old conn.new result
        (OfKept (λ kept found. found.0 ≡ is_below_floor kept.facts.uplinks kept.facts.sessions device session)) }
    ensures shows { Reads S.Store conn.old conn.new result (λ r found. IfSome found.1 (IsFloorOf r device)) }
{
    look_ups_tell();
    let floor = floor_of(conn, device)?;
    Ok((is_session_below(session, floor), floor))
}
