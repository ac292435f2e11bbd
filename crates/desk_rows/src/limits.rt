//! The table of the limits that operators set for gateways' bands.
ghost use Rattle.std.specs.Prelude.{◌≡◌, [], ◌∷◌};
ghost use Rattle.radio_core.specs.Bands.{band_number};
ghost use Rattle.desk_rows.specs.Calls.{Changes, Returns};
ghost use Rattle.desk_rows.specs.Rows.{last_number};
ghost use Rattle.desk_rows.specs.order.Facts.{facts_in};
ghost use Rattle.desk_rows.specs.steps.Texts.{UpdatesRows, is};
ghost use Rattle.sqlite_sql.specs.Term.{col};
ghost use Rattle.desk_rows.specs.Written.{limit_added, limit_changed};

use crate::faults::RowFault;
use crate::queries::find;
use crate::values::{band, text, unsigned};
use crate::writes::write;
use radio_core::{Band, Name};
use registry_core::BandLimit;
use sqlite::{Alter, Connection, Transaction};

/// Returns the limit that was set last for the gateway's band, in microseconds within any hour; `None` if none was set.
pub fn limit_at<S: Alter>(
    conn: &mut Connection<S>,
    gateway: &Name,
    of: Band,
) -> Result<Option<u64>, RowFault>
    ensures { Returns S.Store conn.old conn.new result (λ r. (facts_in r).limits gateway.now (band_number of)) }
{
    find(
        conn,
        "SELECT value FROM band_limit WHERE gateway = ?1 AND band = ?2 ORDER BY rowid",
        &[text(gateway), band(of)],
    )
}

/// Returns the number of the last limit, `None` if there is none. It is the number of limits.
pub fn last_limit<S: Alter>(conn: &mut Connection<S>) -> Result<Option<u64>, RowFault>
    ensures { Returns S.Store conn.old conn.new result (λ r. last_number r.limits) }
{
    find(
        conn,
        "SELECT rowid FROM band_limit ORDER BY rowid DESC LIMIT 1",
        &[],
    )
}

/// Adds the limit of a gateway's band that has none.
pub fn insert_limit<S: Alter>(
    tx: &mut Transaction<'_, S>,
    gateway: &Name,
    limit: BandLimit,
) -> Result<(), RowFault>
    ensures same_reference { tx.new.conn.ghost_name ≡ tx.old.conn.ghost_name }
    ensures changes { Changes S.Store tx.old tx.new result (limit_added gateway.now limit) }
{
    write(
        tx,
        "INSERT INTO band_limit (gateway, band, value) VALUES (?1, ?2, ?3)",
        &[text(gateway), band(limit.band()), unsigned(limit.most())],
    )
}

/// The text of the statement that changes a limit.
#[tactic(auto, unfolding(sqlite::specs::Listing::understood, sqlite_tied::specs::Compute::everything))]
fn limit_text() -> &'static str
    ensures { UpdatesRows result.now 3 10 22 (is 1 0 ∷ is 2 1 ∷ []) (col 1 0 ∷ col 1 1 ∷ col 1 2 ∷ col 0 2 ∷ []) }
{
    "UPDATE band_limit SET value = ?3 WHERE gateway = ?1 AND band = ?2"
}

/// Changes the limit of a gateway's band that has one.
pub fn change_limit<S: Alter>(
    tx: &mut Transaction<'_, S>,
    gateway: &Name,
    limit: BandLimit,
) -> Result<(), RowFault>
    ensures same_reference { tx.new.conn.ghost_name ≡ tx.old.conn.ghost_name }
    ensures changes { Changes S.Store tx.old tx.new result (limit_changed gateway.now limit) }
{
    write(
        tx,
        limit_text(),
        &[text(gateway), band(limit.band()), unsigned(limit.most())],
    )
}
