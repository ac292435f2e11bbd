//! Look-ups of an uplink. No uplink has a number of 2^53 or more.
ghost use Rattle.std.specs.Prelude.{◌≡◌, option_and_then, option_map};
ghost use Rattle.sqlite.specs.Held.{state};
ghost use Rattle.registry_core.specs.declared.facts.Kind.TheVariants.{Join};
ghost use Rattle.registry_core.specs.Bookings.{is_answered};
ghost use Rattle.registry_core.specs.Derived.{join_with};
ghost use Rattle.registry_core.specs.Listing.{AreNames, has_reception};
ghost use Rattle.registry_core.specs.Numbered.{first_that, item_at};
ghost use Rattle.desk_rows.specs.Calls.{Reads};
ghost use Rattle.desk_rows.specs.Rows.{is_uplink};
ghost use Rattle.desk_tables.specs.steps.Calls.{Asks};
ghost use Rattle.desk_tables.specs.steps.LookUps.{OfKept};

use desk_rows::order::{listed_rows_tell, look_ups_tell};
use desk_rows::{RowFault, session_with_nonce, uplink_with};
use radio_core::{Eui, Name};
use registry_core::{Booking, JsonInteger, Kind, Reception, Uplink};
use sqlite::{Alter, Connection};
use std::alloc::Global;

/// Returns the number of the session that has the join uplink of the device with this nonce.
fn session_joined<S: Alter>(
    conn: &mut Connection<S>,
    device: Eui,
    nonce: u16,
) -> Result<Option<u64>, RowFault>
    ensures { Reads S.Store conn.old conn.new result
        (OfKept (λ kept session. join_with kept.facts.uplinks kept.facts.sessions device nonce
        ≡ option_and_then (λ n. first_that (is_uplink n Join nonce) kept.facts.uplinks) session)) }
{
    look_ups_tell();
    session_with_nonce(conn, device, nonce)
}

/// Returns the join uplink of the session with this nonce.
fn join_of<S: Alter>(
    conn: &mut Connection<S>,
    session: u64,
    nonce: u16,
) -> Result<Option<(u64, Uplink)>, RowFault>
    ensures { Reads S.Store conn.old conn.new result
        (OfKept (λ kept found. found ≡ first_that (is_uplink session Join nonce) kept.facts.uplinks)) }
{
    match JsonInteger::new(session) {
        Some(session) => uplink_with(conn, session, Kind::Join, u32::from(nonce)),
        None => Ok(None),
    }
}

pub(crate) fn join_with<S: Alter>(
    conn: &mut Connection<S>,
    device: Eui,
    nonce: u16,
) -> Result<Option<(u64, Uplink)>, RowFault>
    ensures { Asks (state S.Store conn.old) (state S.Store conn.new) result (λ r. Unit {0}) (λ r. Unit {0})
        (OfKept (λ kept found. found ≡ join_with kept.facts.uplinks kept.facts.sessions device nonce)) }
{
    match session_joined(conn, device, nonce)? {
        Some(session) => join_of(conn, session, nonce),
        None => Ok(None),
    }
}

fn unnumbered(found: Option<(u64, Uplink)>) -> Option<Uplink>
    ensures { result ≡ option_map (λ found. found.1) found }
{
    let (_, uplink) = found?;
    Some(uplink)
}

pub(crate) fn uplink<S: Alter>(
    conn: &mut Connection<S>,
    number: u64,
) -> Result<Option<Uplink>, RowFault>
    ensures { Reads S.Store conn.old conn.new result (OfKept (λ kept uplink. uplink ≡ item_at kept.facts.uplinks number)) }
{
    match JsonInteger::new(number) {
        Some(number) => Ok(unnumbered(desk_rows::uplink(conn, number)?)),
        None => Ok(None),
    }
}

pub(crate) fn reception_at<S: Alter>(
    conn: &mut Connection<S>,
    uplink: u64,
    gateway: &Name,
) -> Result<Option<Reception>, RowFault>
    ensures { Reads S.Store conn.old conn.new result (OfKept (λ kept reception. reception ≡ kept.facts.receptions uplink gateway.now)) }
{
    match JsonInteger::new(uplink) {
        Some(uplink) => desk_rows::reception_at(conn, uplink, gateway),
        None => Ok(None),
    }
}

/// Returns the names of the gateways that reported a reception of the uplink, ordered by their octets.
pub(crate) fn gateways_of<S: Alter>(
    alloc: Global,
    conn: &mut Connection<S>,
    uplink: u64,
) -> Result<Vec<Name>, RowFault>
    ensures { Reads S.Store conn.old conn.new result
        (OfKept (λ kept names. AreNames (has_reception kept.facts uplink) names.items)) }
{
    listed_rows_tell();
    match JsonInteger::new(uplink) {
        Some(uplink) => desk_rows::gateways_of(alloc, conn, uplink),
        None => Ok(Vec::new(alloc)),
    }
}

pub(crate) fn is_answered<S: Alter>(conn: &mut Connection<S>, uplink: u64) -> Result<bool, RowFault>
    ensures { Reads S.Store conn.old conn.new result (OfKept (λ kept answered. answered ≡ is_answered kept.facts.bookings uplink)) }
{
    look_ups_tell();
    match JsonInteger::new(uplink) {
        Some(uplink) => desk_rows::is_answered(conn, uplink),
        None => Ok(false),
    }
}

pub(crate) fn booking<S: Alter>(
    conn: &mut Connection<S>,
    number: u64,
) -> Result<Option<Booking>, RowFault>
    ensures { Reads S.Store conn.old conn.new result (OfKept (λ kept booking. booking ≡ item_at kept.facts.bookings number)) }
{
    look_ups_tell();
    match JsonInteger::new(number) {
        Some(number) => desk_rows::booking(conn, number),
        None => Ok(None),
    }
}
