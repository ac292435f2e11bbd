//! Opens the file of a desk for a command.
ghost use Rattle.std.specs.Prelude.{◌≡◌, None, List, IfOk, IfErr};
ghost use Rattle.sqlite.specs.Held.{state};
ghost use Rattle.sqlite.specs.State.{HasCleanDisk};
ghost use Rattle.registry_core.specs.declared.messages.Envelope.{Envelope};
ghost use Rattle.registry_core.specs.Settings.{Settings};
ghost use Rattle.desk_tables.specs.Store.{meaning_of};
ghost use Rattle.desk_cli.specs.RefusedFiles.{IsNotADesk, IsRefused};
ghost use Rattle.desk_cli.specs.OnTables.{IsLeft, KeepsHeard, WasOpened};
ghost use Rattle.desk_tables.specs.AtRest.{IsAtRest};

use crate::faults::Fault;
use desk_tables::Tables;
use sqlite::{Alter, Connection};
use std::alloc::Global;

/// Opens the desk of the connection's database.
///
/// # Errors
///
/// Returns the error with the connection: `Unavailable`, `NotADesk` or `Schema`.
pub(crate) fn opened<S: Alter>(
    alloc: Global,
    conn: Connection<S>,
) -> Result<Tables<S>, (Fault, Connection<S>)>
    requires at_rest { IsAtRest conn }
    ensures desk { IfOk result (λ t. (meaning_of S.Store).sound t → (c : Settings) (heard : List Envelope)
        → KeepsHeard S.Store conn c heard → WasOpened (meaning_of S.Store) t c heard) }
    ensures unavailable { IfErr result (λ back. HasCleanDisk (state S.Store back.1) → (c : Settings) (heard : List Envelope)
        → KeepsHeard S.Store conn c heard → (back.0 ≡ Fault.Unavailable) × IsLeft S.Store back.1 c heard None) }
    ensures refused { IfErr result (λ back. HasCleanDisk (state S.Store back.1) → IsRefused S.Store conn back.1 back.0) }
    ensures never { IfOk result (λ t. (meaning_of S.Store).sound t → ¬ IsNotADesk S.Store conn) }
    ensures clean { IfOk result (λ t. (meaning_of S.Store).sound t → HasCleanDisk (state S.Store conn)) }
{
    match Tables::open(alloc, conn) {
        Ok(tables) => Ok(tables),
        Err((fault, conn)) => Err((fault.into(), conn)),
    }
}
