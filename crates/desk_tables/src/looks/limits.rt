//! Look-ups of a gateway's limits.
ghost use Rattle.std.specs.Prelude.{◌≡◌};
ghost use Rattle.registry_core.specs.Bookings.{limit_standing};
ghost use Rattle.desk_rows.specs.Calls.{Reads};
ghost use Rattle.desk_tables.specs.steps.LookUps.{OfKept};

use desk_rows::order::look_ups_tell;
use desk_rows::{RowFault, limit_at};
use radio_core::{Band, Name, limit};
use sqlite::{Alter, Connection};

/// Returns the limit that was set for the gateway's band, and else the band's own.
pub(crate) fn limit_of<S: Alter>(
    conn: &mut Connection<S>,
    gateway: &Name,
    band: Band,
) -> Result<u64, RowFault>
    ensures { Reads S.Store conn.old conn.new result (OfKept (λ kept most. most ≡ limit_standing kept.facts gateway.now band)) }
{
    look_ups_tell();
    let set = limit_at(conn, gateway, band)?;
    Ok(set.unwrap_or(limit(band)))
}
