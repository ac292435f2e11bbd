//! Writes a limit of a gateway's band.
ghost use Rattle.std.specs.Prelude.{◌≡◌};
ghost use Rattle.sqlite.specs.Held.{state};
ghost use Rattle.desk_tables.specs.steps.Effects.{WritesEffect};

use crate::effects::input::EffectInput;
use desk_rows::{RowFault, change_limit, insert_limit};
use radio_core::Name;
use registry_core::{BandLimit, Effect};
use sqlite::{Alter, Transaction};

/// Writes the limit into the band's row if there is one, and else adds that row.
pub(crate) fn set_limit<S: Alter>(
    tx: &mut Transaction<'_, S>,
    gateway: &Name,
    limit: BandLimit,
    input: EffectInput,
) -> Result<(), RowFault>
    ensures same_reference { tx.new.conn.ghost_name ≡ tx.old.conn.ghost_name }
    ensures writes { WritesEffect (state S.Store tx.old.conn.now) (state S.Store tx.new.conn.now) result (Effect.SetsLimit gateway.now limit) input }
{
    let EffectInput::Limit { is_set } = input else {
        return Err(RowFault::Row);
    };
    if is_set {
        change_limit(tx, gateway, limit)
    } else {
        insert_limit(tx, gateway, limit)
    }
}
