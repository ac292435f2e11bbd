//! Writes the rows of any effect.
ghost use Rattle.std.specs.Prelude.{◌≡◌};
ghost use Rattle.sqlite.specs.Held.{state};
ghost use Rattle.desk_tables.specs.steps.Effects.{WritesEffect};

use crate::effects::bookings::{add_booking, end};
use crate::effects::input::EffectInput;
use crate::effects::limits::set_limit;
use crate::effects::receptions::add_reception;
use crate::effects::sessions::add_session;
use crate::effects::uplinks::add_uplink;
use desk_rows::{
    RowFault, insert_device, insert_gateway, insert_owner, insert_sender, move_device,
};
use registry_core::Effect;
use sqlite::{Alter, Transaction};

/// Writes the rows of the effect, with what was read for it.
pub(crate) fn write_effect<S: Alter>(
    tx: &mut Transaction<'_, S>,
    effect: &Effect,
    input: EffectInput,
) -> Result<(), RowFault>
    ensures same_reference { tx.new.conn.ghost_name ≡ tx.old.conn.ghost_name }
    ensures writes { WritesEffect (state S.Store tx.old.conn.now) (state S.Store tx.new.conn.now) result effect.now input }
{
    match effect {
        Effect::Nothing => Ok(()),
        Effect::AddsSender { name, role } => insert_sender(tx, name, *role),
        Effect::AddsOwner { name } => insert_owner(tx, name),
        Effect::AddsGateway { name } => insert_gateway(tx, name),
        Effect::AddsDevice { dev_eui, device } => insert_device(tx, *dev_eui, device),
        Effect::MovesDevice { dev_eui, owner } => move_device(tx, *dev_eui, owner),
        Effect::AddsSession {
            session,
            uplink,
            gateway,
            reception,
        } => add_session(tx, *session, uplink, gateway, reception, input),
        Effect::AddsUplink {
            uplink,
            gateway,
            reception,
        } => add_uplink(tx, uplink, gateway, reception, input),
        Effect::AddsReception {
            uplink,
            gateway,
            reception,
        } => add_reception(tx, *uplink, gateway, reception, input),
        Effect::AddsBooking { booking } => add_booking(tx, booking, input),
        Effect::EndsBooking { booking, sent } => end(tx, *booking, *sent, input),
        Effect::SetsLimit { gateway, limit } => set_limit(tx, gateway, *limit, input),
    }
}
