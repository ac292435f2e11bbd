//! Writes a new booking, with its session's downlink counter, and a booking that ends.
ghost use Rattle.std.specs.Prelude.{◌≡◌};
ghost use Rattle.sqlite.specs.Held.{state};
ghost use Rattle.desk_rows.specs.order.Changes.{kind_at, session_of_uplink, sessions_counted};
ghost use Rattle.desk_tables.specs.steps.Calls.{Makes};
ghost use Rattle.desk_tables.specs.steps.Effects.{CountsInSession, WritesEffect};

use crate::effects::input::{EffectInput, as_json_integer};
use desk_rows::{RowFault, end_booking, insert_booking, set_next_down};
use registry_core::{Booking, Effect, JsonInteger};
use sqlite::{Alter, Transaction};

/// Sets the session's next downlink counter, if there is one to set.
fn count_down<S: Alter>(
    tx: &mut Transaction<'_, S>,
    booking: &Booking,
    session: JsonInteger,
    counter: Option<JsonInteger>,
) -> Result<(), RowFault>
    ensures same_reference { tx.new.conn.ghost_name ≡ tx.old.conn.ghost_name }
    ensures makes { Makes (state S.Store tx.old.conn.now) (state S.Store tx.new.conn.now) result
        (λ r. CountsInSession booking.now r session counter) (λ r. Unit {0})
        (λ r. record r { sessions = sessions_counted (kind_at r.uplinks booking.now.uplink) (session_of_uplink r.uplinks booking.now.uplink) r.sessions }) }
{
    match counter {
        Some(next_down) => set_next_down(tx, session, next_down),
        None => Ok(()),
    }
}

/// Writes the booking, and the downlink counter that it raises.
pub(crate) fn add_booking<S: Alter>(
    tx: &mut Transaction<'_, S>,
    booking: &Booking,
    input: EffectInput,
) -> Result<(), RowFault>
    ensures same_reference { tx.new.conn.ghost_name ≡ tx.old.conn.ghost_name }
    ensures writes { WritesEffect (state S.Store tx.old.conn.now) (state S.Store tx.new.conn.now) result (Effect.AddsBooking booking.now) input }
{
    let EffectInput::Booking {
        session,
        kind,
        counter,
    } = input
    else {
        return Err(RowFault::Row);
    };
    as_json_integer(booking.uplink)?;
    count_down(tx, booking, session, counter)?;
    insert_booking(tx, booking, session.get(), kind)
}

/// Writes that the booking with this number was sent, or that it is dropped.
pub(crate) fn end<S: Alter>(
    tx: &mut Transaction<'_, S>,
    number: u64,
    sent: bool,
    input: EffectInput,
) -> Result<(), RowFault>
    ensures same_reference { tx.new.conn.ghost_name ≡ tx.old.conn.ghost_name }
    ensures writes { WritesEffect (state S.Store tx.old.conn.now) (state S.Store tx.new.conn.now) result (Effect.EndsBooking number sent) input }
{
    end_booking(tx, as_json_integer(number)?, sent)
}
