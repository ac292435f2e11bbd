//! Writes one more reception of an uplink.
ghost use Rattle.std.specs.Prelude.{◌≡◌};
ghost use Rattle.sqlite.specs.Held.{state};
ghost use Rattle.desk_tables.specs.steps.Effects.{WritesEffect};

use crate::effects::input::{EffectInput, as_json_integer};
use desk_rows::{RowFault, insert_reception};
use radio_core::Name;
use registry_core::{Effect, Reception};
use sqlite::{Alter, Transaction};

/// Writes the reception of the uplink with this number.
pub(crate) fn add_reception<S: Alter>(
    tx: &mut Transaction<'_, S>,
    uplink: u64,
    gateway: &Name,
    reception: &Reception,
    input: EffectInput,
) -> Result<(), RowFault>
    ensures same_reference { tx.new.conn.ghost_name ≡ tx.old.conn.ghost_name }
    ensures writes { WritesEffect (state S.Store tx.old.conn.now) (state S.Store tx.new.conn.now) result
        (Effect.AddsReception uplink gateway.now reception.now) input }
{
    as_json_integer(uplink)?;
    insert_reception(tx, uplink, gateway, reception)
}
