//! The list of senders.
ghost use Rattle.std.specs.Prelude.{◌≡◌, IfOk};
ghost use Rattle.std.specs.String.{string_bytes};
ghost use Rattle.desk_store.specs.Calls.{IsRead, Tells, fault_in};
ghost use Rattle.desk_store.specs.Looks.{last_transaction};
ghost use Rattle.desk_wire.specs.Roles.{role_name};
ghost use Rattle.desk_engine.specs.Listing.{IsSenderList, or_empty, sender_line};

use crate::columns::number_or_empty;
use crate::tables::{TextOf, table};
use desk_store::{Keeper, StoreFault};
use desk_wire::role_name;
use radio_core::Name;
use registry_core::Role;
use std::alloc::{AllocError, Global};

/// The names of the columns.
const HEADER: &str = "sender,role,last_transaction\n";

/// Returns the header, and a line for each sender, ordered by the octets of their names.
pub(crate) fn senders_text<K: Keeper>(alloc: Global, keeper: &mut K) -> Result<String, StoreFault>
    ensures read { IsRead K.meaning keeper.old keeper.new (fault_in result) }
    ensures told { Tells K.meaning keeper.old keeper.new result
        (λ kept text. IsSenderList kept.facts (last_transaction kept.entries) (string_bytes text)) }
{
    let names = keeper.senders()?;
    table(alloc, keeper, HEADER, &names, &SenderLine)
}

/// The line of a sender.
struct SenderLine;

impl TextOf<Name> for SenderLine {
    ghost written = { λ _ _ kept name. sender_line name (kept.facts.senders name) (last_transaction kept.entries name) };

    fn text<K: Keeper>(
        &self,
        alloc: Global,
        keeper: &mut K,
        name: &Name,
    ) -> Result<String, StoreFault> {
        let role = keeper.role_of(name)?;
        let last = keeper.last_transaction(name)?;
        Ok(line_of(alloc, name, role, last)?)
    }
}

/// Returns the line of a sender, by its columns.
#[tactic(auto, unfolding(crate::specs::Listing::sender_line))]
fn line_of(
    alloc: Global,
    name: &Name,
    role: Option<Role>,
    last: Option<u64>,
) -> Result<String, AllocError>
    ensures { IfOk result (λ text. string_bytes text ≡ sender_line name.now role last) }
{
    let last = number_or_empty(alloc, last)?;
    let (name, role, last) = (name.as_str(), role_or_empty(role), last.as_str());
    format!(in alloc; "{name},{role},{last}\n")
}

/// Returns the name of a role, nothing if there is none.
fn role_or_empty(role: Option<Role>) -> &'static str
    ensures { result.now ≡ or_empty role_name role }
{
    match role {
        Some(role) => role_name(role),
        None => "",
    }
}
