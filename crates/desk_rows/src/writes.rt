//! Runs one statement that writes.
ghost use Rattle.std.specs.Prelude.{◌≡◌};
ghost use Rattle.sqlite.specs.Held.{state};
ghost use Rattle.sqlite.specs.Values.{bound};
ghost use Rattle.desk_rows.specs.steps.Statements.{HasWritten};

use crate::faults::{RowFault, fault_of};
use sqlite::{Alter, Transaction};
use sqlite_value::value::ValueRef;

/// Runs the statement inside the transaction.
pub(crate) fn write<S: Alter>(
    tx: &mut Transaction<'_, S>,
    sql: &str,
    params: &[ValueRef<'_>],
) -> Result<(), RowFault>
    ensures same_reference { tx.new.conn.ghost_name ≡ tx.old.conn.ghost_name }
    ensures written { HasWritten sql.now (bound params.now) (state S.Store tx.old.conn.now) (state S.Store tx.new.conn.now) result }
{
    match tx.execute(sql, params) {
        Ok(_) => Ok(()),
        Err(error) => Err(fault_of(error)),
    }
}
