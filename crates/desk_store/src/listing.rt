//! Look-ups for lists in the store in memory: the names and DevEUIs in order, a device's sessions and uplinks, an uplink's gateways, a
//! session's last start and a sender's last transaction number. Each goes through all items.
ghost use Rattle.std.specs.Prelude.{◌≡◌, ◌+◌, IfOk, bytes_eq, filter, is_some, length, map, max, nat_eq};
ghost use Rattle.std.specs.Cmp.Lexicographic.{slice_cmp};
ghost use Rattle.std.specs.List.{IsDistinct, filter_map, list_any, range_with_len, reduce};
ghost use Rattle.std.specs.Ordering.{nat_cmp};
ghost use Rattle.indexmap.specs.IndexMap.{IsUnique, get, keys};
ghost use Rattle.indexmap.specs.IndexSet.{contains};
ghost use Rattle.registry_core.specs.Derived.{is_of_device};
ghost use Rattle.registry_core.specs.Listing.{AreDevices, AreNames, AreNumbersByStart, is_of_session, last_start, sessions_of, uplink_start};
ghost use Rattle.registry_core.specs.Reports.{is_uplink_from};
ghost use Rattle.desk_store.specs.Devices.{devices_of};
ghost use Rattle.desk_store.specs.Facts.{receptions_of, same_key};
ghost use Rattle.desk_store.specs.Lists.{entries_shown};
ghost use Rattle.desk_store.specs.Looks.{last_transaction};
ghost use Rattle.desk_store.specs.steps.Listing.{is_key_of, is_reception_of};
ghost use Rattle.desk_store.specs.steps.StartIndex.{place_at};

use crate::looks::EntryTexts;
use crate::reports::Period;
use crate::sessions::Sessions;
use crate::start_index::{Place, numbers_at};
use crate::uplinks::{Uplinks, place_of};
use indexmap::{IndexMap, IndexSet};
use radio_core::{Eui, Name};
use registry_core::{Device, Reception, Role, Uplink};
use std::alloc::{AllocError, Global};
use std::cmp::Ordering;

/// Returns the names, ordered by their octets.
pub(crate) fn names_in(alloc: Global, names: &IndexSet<Name>) -> Result<Vec<Name>, AllocError>
    ensures { IfOk result (λ sorted. AreNames (contains bytes_eq names.now) sorted.items) }
{
    let mut sorted: Vec<Name> = names.iter().copied().collect(alloc)?;
    sort_names(&mut sorted);
    Ok(sorted)
}

/// Returns the names of the senders, ordered by their octets.
pub(crate) fn senders_in(
    alloc: Global,
    senders: &IndexMap<Name, Role>,
) -> Result<Vec<Name>, AllocError>
    ensures { IfOk result (λ sorted. AreNames (λ name. is_some (get bytes_eq senders.now name)) sorted.items) }
{
    let mut sorted: Vec<Name> = senders.keys().copied().collect(alloc)?;
    sort_names(&mut sorted);
    Ok(sorted)
}

/// Sorts the names by their octets.
fn sort_names(names: &mut Vec<Name>)
    ensures { IsDistinct bytes_eq names.old.items → AreNames (λ name. list_any (bytes_eq name) names.old.items) names.new.items }
{
    names.sort_unstable_by(|a, b| by_octets(a, b));
}

/// Compares two names by their octets.
fn by_octets(a: &Name, b: &Name) -> Ordering
    ensures { result ≡ slice_cmp nat_cmp a.now b.now }
{
    a.as_str().cmp(b.as_str())
}

/// Returns the DevEUIs of the devices, in order.
pub(crate) fn devices_in(
    alloc: Global,
    devices: &IndexMap<Eui, Device>,
) -> Result<Vec<Eui>, AllocError>
    ensures { IfOk result (λ sorted. AreDevices (λ dev_eui. is_some (devices_of devices.now.entries dev_eui)) sorted.items) }
{
    let mut sorted: Vec<Eui> = devices.keys().copied().collect(alloc)?;
    sorted.sort_unstable();
    Ok(sorted)
}

/// Returns the numbers of the device's sessions, in the order in which they began.
#[tactic(auto, using(crate::proofs::Listed::numbered_by))]
pub(crate) fn sessions_of(
    alloc: Global,
    sessions: &Sessions,
    device: Eui,
) -> Result<Vec<u64>, AllocError>
    ensures { IfOk result (λ numbers. numbers.items ≡ sessions_of sessions.now.items device) }
{
    numbers_of(alloc, sessions, device)
}

/// Returns the numbers at which there is a session of the device, in order.
fn numbers_of(alloc: Global, sessions: &Sessions, device: Eui) -> Result<Vec<u64>, AllocError>
    ensures { IfOk result (λ numbers. numbers.items
        ≡ filter (is_of_device sessions.now.items device) (range_with_len 1 (length sessions.now.items))) }
{
    (1..sessions.len() as u64 + 1)
        .filter(|number| is_of_device(sessions, device, *number))
        .collect(alloc)
}

/// Returns whether the session with this number, from 1, is one of the device.
fn is_of_device(sessions: &Sessions, device: Eui, number: u64) -> bool
    ensures { result ≡ is_of_device sessions.now.items device number }
{
    match sessions.at(number) {
        Some(session) => session.device == device,
        None => false,
    }
}

/// Returns the numbers of the device's uplinks that start in the period. They are ordered by start, and those that start together by
/// number.
pub(crate) fn uplinks_between(
    alloc: Global,
    uplinks: &Uplinks,
    sessions: &Sessions,
    device: Eui,
    period: &Period,
) -> Result<Vec<u64>, AllocError>
    ensures { IfOk result (λ numbers. AreNumbersByStart uplink_start
        (is_uplink_from sessions.now.items device period.now.from period.now.to) uplinks.now numbers.items) }
{
    let mut places = places_from(alloc, uplinks, sessions, device, period)?;
    places.sort_unstable();
    numbers_at(alloc, &places)
}

/// Returns the places of those uplinks, ordered by number.
fn places_from(
    alloc: Global,
    uplinks: &Uplinks,
    sessions: &Sessions,
    device: Eui,
    period: &Period,
) -> Result<Vec<Place>, AllocError>
    ensures { IfOk result (λ places. places.items
        ≡ filter_map (place_at uplink_start (is_uplink_from sessions.now.items device period.now.from period.now.to) uplinks.now)
        (range_with_len 1 (length uplinks.now))) }
{
    (1..uplinks.len() as u64 + 1)
        .filter_map(|number| place_from(uplinks, sessions, device, period, number))
        .collect(alloc)
}

/// Returns the place of the uplink with this number, if it is one of them.
fn place_from(
    uplinks: &Uplinks,
    sessions: &Sessions,
    device: Eui,
    period: &Period,
    number: u64,
) -> Option<Place>
    ensures { result ≡ place_at uplink_start (is_uplink_from sessions.now.items device period.now.from period.now.to) uplinks.now number }
{
    let uplink = uplinks.at(number)?;
    is_uplink_from(sessions, device, period, &uplink).then_some(place_of(&uplink, number))
}

/// Returns whether the uplink is one of the device and starts in the period.
fn is_uplink_from(sessions: &Sessions, device: Eui, period: &Period, uplink: &Uplink) -> bool
    ensures { result ≡ is_uplink_from sessions.now.items device period.now.from period.now.to uplink.now }
{
    let start = uplink.start.get() as i64;
    is_of_device(sessions, device, uplink.session) && period.from <= start && start < period.to
}

/// Returns the names of the gateways that reported a reception of the uplink with this number, ordered by their octets.
pub(crate) fn gateways_of(
    alloc: Global,
    receptions: &IndexMap<(u64, Name), Reception>,
    uplink: u64,
) -> Result<Vec<Name>, AllocError>
    ensures { IfOk result (λ sorted. AreNames (λ gateway. is_some (receptions_of receptions.now uplink gateway)) sorted.items) }
{
    let mut names = names_of(alloc, receptions, uplink)?;
    sort_names(&mut names);
    Ok(names)
}

/// Returns those names in the order in which they are stored.
fn names_of(
    alloc: Global,
    receptions: &IndexMap<(u64, Name), Reception>,
    uplink: u64,
) -> Result<Vec<Name>, AllocError>
    ensures names { IfOk result (λ names. names.items ≡ map (λ key. key.1) (filter (is_reception_of uplink) (keys receptions.now))) }
    ensures distinct { IsUnique same_key receptions.now }
{
    receptions
        .keys()
        .filter(|key| key.0 == uplink)
        .map(|key| key.1)
        .collect(alloc)
}

/// Returns the greatest start of the session's uplinks, in microseconds since 1970 UTC.
#[tactic(auto, using(crate::proofs::Listed::greatest_reduced))]
pub(crate) fn last_start(uplinks: &[Uplink], session: u64) -> Option<u64>
    ensures { result ≡ last_start uplinks.now session }
{
    last_start_of(uplinks, session)
}

/// Returns the greatest start of the session's uplinks.
fn last_start_of(uplinks: &[Uplink], session: u64) -> Option<u64>
    ensures { result ≡ reduce max (map (λ uplink. uplink.start) (filter (is_of_session session) uplinks.now)) }
{
    uplinks
        .iter()
        .filter(|uplink| uplink.session == session)
        .map(|uplink| uplink.start.get())
        .max()
}

/// Returns the greatest transaction number with which a message of the sender was heard.
#[tactic(auto, using(crate::proofs::Listed::last_heard))]
pub(crate) fn last_transaction(
    entries: &IndexMap<(u32, Name), EntryTexts>,
    sender: &Name,
) -> Option<u32>
    ensures { result ≡ last_transaction (entries_shown entries.now) sender.now }
{
    last_transaction_of(entries, sender)
}

/// Returns the greatest transaction number under the sender's name.
fn last_transaction_of(entries: &IndexMap<(u32, Name), EntryTexts>, sender: &Name) -> Option<u32>
    ensures { result ≡ reduce max (map (λ key. key.0) (filter (is_key_of sender.now) (keys entries.now))) }
{
    entries
        .keys()
        .filter(|key| key.1 == *sender)
        .map(|key| key.0)
        .max()
}
