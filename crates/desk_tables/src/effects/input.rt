//! What an effect's rows need of the rows that are there before it.
ghost use Rattle.std.specs.Prelude.{◌≡◌, ◌+◌, find, length, option_map, MatchOption, MatchResult};
ghost use Rattle.registry_core.specs.declared.facts.Uplink.{Uplink};
ghost use Rattle.registry_core.specs.Derived.{is_above};
ghost use Rattle.registry_core.specs.Numbered.{item_at};
ghost use Rattle.registry_core.specs.JsonIntegers.{IsJsonInteger};
ghost use Rattle.sqlite.specs.Held.{state};
ghost use Rattle.desk_rows.specs.Rows.{SessionRow, is_device};
ghost use Rattle.desk_rows.specs.order.Keys.{CountsOne, HasOnly, RaisesOne};
ghost use Rattle.desk_tables.specs.Seen.{IsFloorOf, IsSeen, IsSessionAt};
ghost use Rattle.desk_tables.specs.declared.effects.input.EffectInput.TheVariants as input;
ghost use Rattle.desk_tables.specs.steps.Calls.{Asks};
ghost use Rattle.desk_tables.specs.steps.Effects.{AreJsonIntegers, HasSession, IsInput, IsInputOfBooking, IsInputOfLimit, IsInputOfUplink, IsKnown, IsNextDown, IsRaised, IsThereAndKnown};

use crate::seen::Seen;
use desk_rows::{RowFault, floor_of, limit_at, next_down, session, uplink};
use radio_core::{Eui, Name};
use registry_core::{BandLimit, Booking, Effect, JsonInteger, Kind, Session, Uplink};
use sqlite::{Alter, Connection};

/// What a store knows of its rows without a look-up: the number of uplinks, and what is cached.
#[derive(Clone, Copy)]
pub(crate) struct Known {
    pub(crate) uplinks: u64,
    pub(crate) seen: Seen,
}

/// What an effect's rows need besides the effect.
#[derive(Clone, Copy)]
pub(crate) enum EffectInput {
    Nothing,
    /// The number of the session's join uplink.
    Session {
        number: JsonInteger,
    },
    /// The number of the uplink, and the device whose floor rises, if one does.
    Uplink {
        number: JsonInteger,
        raises: Option<Eui>,
    },
    /// The session and the kind of the uplink that is answered, and the session's next downlink counter, if it counts one more.
    Booking {
        session: JsonInteger,
        kind: Kind,
        counter: Option<JsonInteger>,
    },
    /// Whether the gateway's band has a row.
    Limit {
        is_set: bool,
    },
}

/// Returns the number as an integer below 2^53.
pub(crate) fn as_json_integer(number: u64) -> Result<JsonInteger, RowFault>
    ensures { MatchResult result (λ n. (n ≡ number) × IsJsonInteger number) (λ fault. ¬ IsJsonInteger number) }
{
    JsonInteger::new(number).ok_or(RowFault::Row)
}

/// Returns the number of the next uplink, if it is below 2^53.
fn next_uplink(uplinks: u64) -> Result<JsonInteger, RowFault>
    ensures { MatchResult result (λ number. number ≡ uplinks + 1) (λ fault. ¬ IsJsonInteger (uplinks + 1)) }
{
    as_json_integer(uplinks.saturating_add(1))
}

// ---- floors

fn session_numbered<S: Alter>(conn: &mut Connection<S>, number: u64) -> Result<Session, RowFault>
    ensures { Asks (state S.Store conn.old) (state S.Store conn.new) result (λ r. Unit {0}) (λ r. IsJsonInteger number × HasSession number r)
        (λ r found. option_map (λ row. row.session) (item_at r.sessions number) ≡ Some found) }
{
    let number = as_json_integer(number)?;
    session(conn, number)?.ok_or(RowFault::Row)
}

fn floor_at<S: Alter>(conn: &mut Connection<S>, dev_eui: Eui) -> Result<Option<u64>, RowFault>
    ensures { Asks (state S.Store conn.old) (state S.Store conn.new) result (λ r. Unit {0}) (λ r. HasOnly (is_device dev_eui) r.devices)
        (λ r floor. option_map (λ row. row.floor) (find (is_device dev_eui) r.devices) ≡ Some floor) }
{
    match floor_of(conn, dev_eui)? {
        Some(floor) => Ok(floor),
        None => Err(RowFault::Row),
    }
}

/// Returns the session with this number, from the cache or by a look-up.
fn session_known<S: Alter>(
    conn: &mut Connection<S>,
    seen: &Seen,
    number: u64,
) -> Result<Session, RowFault>
    ensures { Asks (state S.Store conn.old) (state S.Store conn.new) result (λ r. IsSeen r seen.now) (λ r. IsJsonInteger number × HasSession number r)
        (λ r. IsSessionAt r number) }
{
    match seen.session_seen(number) {
        Some(session) => Ok(session),
        None => session_numbered(conn, number),
    }
}

/// Returns the floor of the device, from the cache or by a look-up.
fn floor_known<S: Alter>(
    conn: &mut Connection<S>,
    seen: &Seen,
    dev_eui: Eui,
) -> Result<Option<u64>, RowFault>
    ensures { Asks (state S.Store conn.old) (state S.Store conn.new) result (λ r. IsSeen r seen.now) (λ r. HasOnly (is_device dev_eui) r.devices)
        (λ r. IsFloorOf r dev_eui) }
{
    match seen.floor_seen(dev_eui) {
        Some(seen) => Ok(seen),
        None => floor_at(conn, dev_eui),
    }
}

fn is_above(number: u64, floor: Option<u64>) -> bool
    ensures { result ≡ is_above number floor }
{
    match floor {
        Some(floor) => number > floor,
        None => true,
    }
}

/// Returns the device whose floor rises to the uplink's session, if one does.
fn raised_by<S: Alter>(
    conn: &mut Connection<S>,
    seen: &Seen,
    uplink: &Uplink,
) -> Result<Option<Eui>, RowFault>
    ensures { Asks (state S.Store conn.old) (state S.Store conn.new) result (λ r. RaisesOne uplink.now r × IsSeen r seen.now) (λ r. IsJsonInteger uplink.now.session)
        (λ r raises. IsRaised uplink.now.session r raises) }
{
    let device = session_known(conn, seen, uplink.session)?.device;
    let floor = floor_known(conn, seen, device)?;
    if is_above(uplink.session, floor) {
        Ok(Some(device))
    } else {
        Ok(None)
    }
}

// ---- downlink counters

fn uplink_at<S: Alter>(conn: &mut Connection<S>, number: u64) -> Result<Uplink, RowFault>
    ensures { Asks (state S.Store conn.old) (state S.Store conn.new) result (λ r. Unit {0})
        (λ r. IsJsonInteger number × ((found : Uplink) × (item_at r.uplinks number ≡ Some found)))
        (λ r found. item_at r.uplinks number ≡ Some found) }
{
    let number = as_json_integer(number)?;
    let (_, found) = uplink(conn, number)?.ok_or(RowFault::Row)?;
    Ok(found)
}

/// Returns the next downlink counter of a session, with one more downlink.
fn next_counter<S: Alter>(
    conn: &mut Connection<S>,
    number: JsonInteger,
) -> Result<JsonInteger, RowFault>
    ensures { Asks (state S.Store conn.old) (state S.Store conn.new) result (λ r. Unit {0})
        (λ r. HasSession number r × ((row : SessionRow) → item_at r.sessions number ≡ Some row → IsJsonInteger (row.next_down + 1)))
        (λ r counter. IsNextDown number r counter) }
{
    let counter = next_down(conn, number)?.ok_or(RowFault::Row)?;
    as_json_integer(counter.saturating_add(1))
}

/// Returns the same if an uplink of this kind counts its answers.
fn counter_for<S: Alter>(
    conn: &mut Connection<S>,
    number: JsonInteger,
    kind: Kind,
) -> Result<Option<JsonInteger>, RowFault>
    ensures { Asks (state S.Store conn.old) (state S.Store conn.new) result (λ r. Unit {0})
        (λ r. HasSession number r × ((row : SessionRow) → item_at r.sessions number ≡ Some row → IsJsonInteger (row.next_down + 1)))
        (λ r counter. MatchOption counter (kind ≡ Kind.Join) (λ n. (kind ≡ Kind.Data) × IsNextDown number r n)) }
{
    match kind {
        Kind::Join => Ok(None),
        Kind::Data => Ok(Some(next_counter(conn, number)?)),
    }
}

fn input_of_booking<S: Alter>(
    conn: &mut Connection<S>,
    booking: &Booking,
) -> Result<EffectInput, RowFault>
    ensures { Asks (state S.Store conn.old) (state S.Store conn.new) result (CountsOne booking.now) (AreJsonIntegers (Effect.AddsBooking booking.now))
        (IsInputOfBooking booking.now) }
{
    let found = uplink_at(conn, booking.uplink)?;
    let session = as_json_integer(found.session)?;
    let counter = counter_for(conn, session, found.kind)?;
    Ok(EffectInput::Booking {
        session,
        kind: found.kind,
        counter,
    })
}

/// Returns the number of the new session's join uplink.
fn input_of_session(known: &Known) -> Result<EffectInput, RowFault>
    ensures { MatchResult result (λ made. made ≡ input.Session (known.now.uplinks + 1)) (λ fault. ¬ IsJsonInteger (known.now.uplinks + 1)) }
{
    Ok(EffectInput::Session {
        number: next_uplink(known.uplinks)?,
    })
}

/// Returns the number of the new uplink, with the device whose floor rises.
fn numbered(uplinks: u64, raises: Option<Eui>) -> Result<EffectInput, RowFault>
    ensures { MatchResult result (λ made. made ≡ input.Uplink (uplinks + 1) raises) (λ fault. ¬ IsJsonInteger (uplinks + 1)) }
{
    Ok(EffectInput::Uplink {
        number: next_uplink(uplinks)?,
        raises,
    })
}

fn input_of_uplink<S: Alter>(
    conn: &mut Connection<S>,
    known: &Known,
    uplink: &Uplink,
) -> Result<EffectInput, RowFault>
    ensures { Asks (state S.Store conn.old) (state S.Store conn.new) result (λ r. RaisesOne uplink.now r × IsKnown r known.now)
        (λ r. IsJsonInteger uplink.now.session × IsJsonInteger (length r.uplinks + 1))
        (IsInputOfUplink uplink.now) }
{
    let raises = raised_by(conn, &known.seen, uplink)?;
    numbered(known.uplinks, raises)
}

fn input_of_limit<S: Alter>(
    conn: &mut Connection<S>,
    gateway: &Name,
    limit: BandLimit,
) -> Result<EffectInput, RowFault>
    ensures { Asks (state S.Store conn.old) (state S.Store conn.new) result (λ r. Unit {0}) (λ r. Unit {0}) (IsInputOfLimit gateway.now limit) }
{
    let set = limit_at(conn, gateway, limit.band())?;
    Ok(EffectInput::Limit {
        is_set: set.is_some(),
    })
}

/// Returns what the effect's rows need.
pub(crate) fn input_of<S: Alter>(
    conn: &mut Connection<S>,
    known: &Known,
    effect: &Effect,
) -> Result<EffectInput, RowFault>
    ensures { Asks (state S.Store conn.old) (state S.Store conn.new) result (IsThereAndKnown effect.now known.now) (AreJsonIntegers effect.now) (IsInput effect.now) }
{
    match effect {
        Effect::AddsSession { .. } => input_of_session(known),
        Effect::AddsUplink { uplink, .. } => input_of_uplink(conn, known, uplink),
        Effect::AddsBooking { booking } => input_of_booking(conn, booking),
        Effect::SetsLimit { gateway, limit } => input_of_limit(conn, gateway, *limit),
        _ => Ok(EffectInput::Nothing),
    }
}
