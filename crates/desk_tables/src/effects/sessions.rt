//! Writes a new session, with its join uplink.
ghost use Rattle.std.specs.Prelude.{◌≡◌};
ghost use Rattle.sqlite.specs.Held.{state};
ghost use Rattle.desk_tables.specs.steps.Effects.{WritesEffect};

use crate::effects::input::{EffectInput, as_json_integer};
use crate::effects::uplinks::add_with_reception;
use desk_rows::{RowFault, insert_session};
use radio_core::Name;
use registry_core::{Effect, Reception, Session, Uplink};
use sqlite::{Alter, Transaction};

/// Writes the session, its join uplink and that uplink's reception.
pub(crate) fn add_session<S: Alter>(
    tx: &mut Transaction<'_, S>,
    session: Session,
    uplink: &Uplink,
    gateway: &Name,
    reception: &Reception,
    input: EffectInput,
) -> Result<(), RowFault>
    ensures same_reference { tx.new.conn.ghost_name ≡ tx.old.conn.ghost_name }
    ensures writes { WritesEffect (state S.Store tx.old.conn.now) (state S.Store tx.new.conn.now) result
        (Effect.AddsSession session uplink.now gateway.now reception.now) input }
{
    let EffectInput::Session { number } = input else {
        return Err(RowFault::Row);
    };
    as_json_integer(uplink.session)?;
    insert_session(tx, session)?;
    add_with_reception(tx, uplink, number, gateway, reception)
}
