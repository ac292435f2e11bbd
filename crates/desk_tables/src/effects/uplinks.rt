//! Writes a new uplink, with its reception and its device's floor.
ghost use Rattle.std.specs.Prelude.{◌≡◌, ◌+◌, length};
ghost use Rattle.registry_core.specs.JsonIntegers.{IsJsonInteger};
ghost use Rattle.sqlite.specs.Held.{state};
ghost use Rattle.desk_rows.specs.Rows.{is_reception, is_uplink};
ghost use Rattle.desk_rows.specs.order.Changes.{devices_raised, with_uplink_row};
ghost use Rattle.desk_rows.specs.order.Keys.{IsFree};
ghost use Rattle.desk_tables.specs.steps.Calls.{Makes};
ghost use Rattle.desk_tables.specs.steps.Effects.{IsRaised, WritesEffect};

use crate::effects::input::{EffectInput, as_json_integer};
use desk_rows::{RowFault, insert_reception, insert_uplink, set_floor};
use radio_core::{Eui, Name};
use registry_core::{Effect, JsonInteger, Reception, Uplink};
use sqlite::{Alter, Transaction};

/// Writes the uplink with this number, and its reception.
pub(crate) fn add_with_reception<S: Alter>(
    tx: &mut Transaction<'_, S>,
    uplink: &Uplink,
    number: JsonInteger,
    gateway: &Name,
    reception: &Reception,
) -> Result<(), RowFault>
    ensures same_reference { tx.new.conn.ghost_name ≡ tx.old.conn.ghost_name }
    ensures makes { Makes (state S.Store tx.old.conn.now) (state S.Store tx.new.conn.now) result
        (λ r. (number ≡ length r.uplinks + 1) × IsJsonInteger uplink.now.session)
        (λ r. IsFree (is_uplink uplink.now.session uplink.now.kind uplink.now.counter) r.uplinks × IsFree (is_reception number gateway.now) r.receptions)
        (with_uplink_row uplink.now gateway.now reception.now) }
{
    insert_uplink(tx, uplink)?;
    insert_reception(tx, number.get(), gateway, reception)
}

/// Sets the floor of the device, if there is one to set.
fn raise_floor<S: Alter>(
    tx: &mut Transaction<'_, S>,
    raises: Option<Eui>,
    session: JsonInteger,
) -> Result<(), RowFault>
    ensures same_reference { tx.new.conn.ghost_name ≡ tx.old.conn.ghost_name }
    ensures makes { Makes (state S.Store tx.old.conn.now) (state S.Store tx.new.conn.now) result
        (λ r. IsRaised session r raises) (λ r. IsJsonInteger (length r.devices)) (λ r. record r { devices = devices_raised r.sessions session r.devices }) }
{
    match raises {
        Some(dev_eui) => set_floor(tx, dev_eui, session),
        None => Ok(()),
    }
}

/// Writes the data uplink and its reception, and the floor that it raises.
pub(crate) fn add_uplink<S: Alter>(
    tx: &mut Transaction<'_, S>,
    uplink: &Uplink,
    gateway: &Name,
    reception: &Reception,
    input: EffectInput,
) -> Result<(), RowFault>
    ensures same_reference { tx.new.conn.ghost_name ≡ tx.old.conn.ghost_name }
    ensures writes { WritesEffect (state S.Store tx.old.conn.now) (state S.Store tx.new.conn.now) result
        (Effect.AddsUplink uplink.now gateway.now reception.now) input }
{
    let EffectInput::Uplink { number, raises } = input else {
        return Err(RowFault::Row);
    };
    raise_floor(tx, raises, as_json_integer(uplink.session)?)?;
    add_with_reception(tx, uplink, number, gateway, reception)
}
