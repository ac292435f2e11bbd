//! The row of meta: the version of the schema, and the desk's configuration.
ghost use Rattle.std.specs.Prelude.{◌≡◌, ◌∷◌, [], ℤ, None, true, false, IfOk, IfErr, OnOk, OnErr};
ghost use Rattle.registry_core.specs.Settings.{Settings};
ghost use Rattle.sqlite.specs.State.{IsUnchanged};
ghost use Rattle.desk_rows.specs.Faults.{is_odd};
ghost use Rattle.desk_rows.specs.Meta.{HasMeta, HasNoRow, IsMetaOf, WithMeta};
ghost use Rattle.desk_rows.specs.steps.Meta.{TellsRow};
ghost use Rattle.desk_rows.specs.Calls.{CommitsNothing, StaysOrRollsBack};

use crate::columns::{integer_at, name_at, word_at};
use crate::faults::{RowFault, fault_of};
use registry_core::Config;
use sqlite::{Alter, Connection, Row};

/// Returns the version and the configuration in a row of the query, if the row is in form.
fn settings_in(row: &Row) -> Result<(i64, Config), RowFault>
    ensures tells { IfOk result (λ told. TellsRow row.now told.0 told.1) }
    ensures untold { OnErr result ((version : ℤ) (c : Settings) → ¬ TellsRow row.now version c) }
{
    if integer_at(row, 0)? != 1 {
        return Err(RowFault::Row);
    }
    let version = integer_at(row, 1)?;
    let receiver = name_at(row, 2)?;
    let operator = name_at(row, 3)?;
    let base = word_at(row, 4)?;
    let addresses = word_at(row, 5)?;
    let config = Config::new(receiver, operator, base, addresses).ok_or(RowFault::Row)?;
    Ok((version, config))
}

/// Returns the version and the configuration in the only row that the query returned.
fn settings_of(rows: &[Row]) -> Result<(i64, Config), RowFault>
    ensures tells { IfOk result (λ told. (row : _) × (rows.now ≡ row ∷ []) × TellsRow row told.0 told.1) }
    ensures untold { OnErr result ((row : _) → rows.now ≡ row ∷ [] → (version : ℤ) (c : Settings) → ¬ TellsRow row version c) }
{
    if rows.len() != 1 {
        return Err(RowFault::Row);
    }
    settings_in(&rows[0])
}

/// Returns the version and the configuration in the row of meta, whatever other tables there are. Returns `Row` if there is no row, or more
/// than one, or one that isn't in form.
pub fn read_settings<S: Alter>(conn: &mut Connection<S>) -> Result<(i64, Config), RowFault>
    ensures told { WithMeta S.Store conn.old conn.new (λ old new. IfOk result (IsMetaOf old)) }
    ensures untold { WithMeta S.Store conn.old conn.new
        (λ old new. old.step_limit ≡ None → IfErr result (λ fault. is_odd fault ≡ true → HasNoRow old)) }
    ensures same { WithMeta S.Store conn.old conn.new (λ old new. OnOk result (IsUnchanged old new)) }
    ensures left { WithMeta S.Store conn.old conn.new (λ old new. OnErr result (StaysOrRollsBack false old new)) }
    ensures mode { conn.old.in_transaction ≡ false → conn.new.in_transaction ≡ false }
    ensures survives { HasMeta conn.old.schema → CommitsNothing S.Store conn.old conn.new }
{
    match conn.query_all(
        "SELECT id, version, receiver, operator, base, addresses FROM meta",
        &[],
    ) {
        Ok(rows) => settings_of(rows.as_slice()),
        Err(error) => Err(fault_of(error)),
    }
}
