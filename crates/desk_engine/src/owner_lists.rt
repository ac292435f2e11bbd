//! The list of owners.
ghost use Rattle.std.specs.Prelude.{◌≡◌, ◌++◌, IfOk, bytes_eq, count_by};
ghost use Rattle.std.specs.String.{string_bytes};
ghost use Rattle.desk_store.specs.Calls.{IsRead, Tells, fault_in};
ghost use Rattle.desk_engine.specs.Listing.{IsOwnerList, owner_line};
ghost use Rattle.desk_engine.specs.steps.Listing.{owner_in, owners_in};

use crate::tables::{TextOf, table};
use desk_store::{Keeper, StoreFault};
use radio_core::{Eui, Name};
use std::alloc::{AllocError, Global};

/// The names of the columns.
const HEADER: &str = "owner,devices\n";

/// Returns the header, and a line for each owner, ordered by the octets of their names.
pub(crate) fn owners_text<K: Keeper>(alloc: Global, keeper: &mut K) -> Result<String, StoreFault>
    ensures read { IsRead K.meaning keeper.old keeper.new (fault_in result) }
    ensures told { Tells K.meaning keeper.old keeper.new result (λ kept text. IsOwnerList kept.facts (string_bytes text)) }
{
    let names = keeper.owners()?;
    let devices = keeper.devices()?;
    let owners = owners_of(alloc, keeper, &devices)?;
    table(alloc, keeper, HEADER, &names, &OwnerLine { owners })
}

/// Returns the owner of each device.
fn owners_of<K: Keeper>(
    alloc: Global,
    keeper: &mut K,
    devices: &[Eui],
) -> Result<Vec<Name>, StoreFault>
    ensures read { IsRead K.meaning keeper.old keeper.new (fault_in result) }
    ensures told { Tells K.meaning keeper.old keeper.new result
        (λ kept owners. owners.items ≡ owners_in kept.facts devices.now) }
{
    let mut owners = Vec::new(alloc);
    for dev_eui in devices {
        put_owner(keeper, *dev_eui, &mut owners)?;
    }
    Ok(owners)
}

/// Adds the owner of the device with this DevEUI, if there is one.
fn put_owner<K: Keeper>(
    keeper: &mut K,
    dev_eui: Eui,
    owners: &mut Vec<Name>,
) -> Result<(), StoreFault>
    ensures read { IsRead K.meaning keeper.old keeper.new (fault_in result) }
    ensures told { Tells K.meaning keeper.old keeper.new result
        (λ kept _. owners.new.items ≡ owners.old.items ++ owner_in (kept.facts.devices dev_eui)) }
{
    let Some(device) = keeper.device(dev_eui)? else {
        return Ok(());
    };
    owners.push(device.owner)?;
    Ok(())
}

/// The line of an owner, by the owner of each device.
#[derive(Drop)]
struct OwnerLine {
    owners: Vec<Name>,
}

impl TextOf<Name> for OwnerLine {
    ghost written = { λ line _ _ name. owner_line name (count_by (λ other. bytes_eq other name) line.owners.items) };

    fn text<K: Keeper>(
        &self,
        alloc: Global,
        _keeper: &mut K,
        name: &Name,
    ) -> Result<String, StoreFault> {
        Ok(line_of(alloc, name, count_of(&self.owners, name))?)
    }
}

/// Returns how many of the names are this one.
fn count_of(names: &[Name], name: &Name) -> usize
    ensures { result ≡ count_by (λ other. bytes_eq other name.now) names.now }
{
    names.iter().filter(|other| *other == name).count()
}

/// Returns the line of an owner, by its columns.
#[tactic(auto, unfolding(crate::specs::Listing::owner_line))]
fn line_of(alloc: Global, name: &Name, count: usize) -> Result<String, AllocError>
    ensures { IfOk result (λ text. string_bytes text ≡ owner_line name.now count) }
{
    let name = name.as_str();
    format!(in alloc; "{name},{count}\n")
}
