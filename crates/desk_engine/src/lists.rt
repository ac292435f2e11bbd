//! Lists of what a desk has: its senders, owners, gateways and devices; and one of its devices.
ghost use Rattle.std.specs.Prelude.{◌≡◌, IfOk, IfErr};
ghost use Rattle.std.specs.String.{string_bytes};
ghost use Rattle.desk_store.specs.Calls.{ForHeld, IsRead, Tells, fault_in};
ghost use Rattle.desk_engine.specs.InOrder.{ForLog};
ghost use Rattle.desk_engine.specs.Listing.{IfList, IsListFault, device_text};
ghost use Rattle.desk_engine.specs.Reporting.{ForFacts, ForState, IfDeviceReport, IfNoDeviceReport, OnlyIfDevice, store_fault_in};
ghost use Rattle.desk_engine.specs.steps.Listing.{IsListOf};

use crate::device_lists::{device_with_header, devices_text};
use crate::gateway_lists::gateways_text;
use crate::owner_lists::owners_text;
use crate::report_faults::ReportFault;
use crate::sender_lists::senders_text;
use desk_store::{Keeper, StoreFault};
use desk_wire::eui_of_digits;
use std::alloc::Global;

/// What a list is of.
#[derive(Clone, Copy, PartialEq, Eq)]
pub enum ListOf {
    Senders,
    Owners,
    Gateways,
    Devices,
}

/// Returns a list as CSV: a header, and a line for each sender, owner or gateway, ordered by the octets of their names, or for each device,
/// ordered by DevEUI. What isn't there is an empty field.
///
/// | List | Fields |
/// |---|---|
/// | senders | name, role, and the greatest TransactionID with which a message of the sender was heard |
/// | owners | name, and how many devices are the owner's now |
/// | gateways | name, and the limit of each band, B1 to B6, in microseconds within any hour |
/// | devices | DevEUI, JoinEUI, owner, how many sessions it has, the address of its latest session, its last DevNonce, and of the latest session the last frame counter, the next downlink counter, and the greatest start of its uplinks, in microseconds since 1970 UTC |
///
/// # Errors
///
/// Returns `Unavailable` with the store's error if the store fails, and with `Memory` if an allocation fails.
pub fn list<K: Keeper>(alloc: Global, keeper: &mut K, of: ListOf) -> Result<Vec<u8>, ReportFault>
    ensures read { IsRead K.meaning keeper.old keeper.new (store_fault_in result) }
    ensures text { ForLog K.meaning keeper.old keeper.new (IfList of result) }
    ensures fault { ForLog K.meaning keeper.old keeper.new (λ _ _. IfErr result IsListFault) }
{
    Ok(text_of(alloc, keeper, of)?.into_bytes())
}

/// Returns the list by what the store represents.
fn text_of<K: Keeper>(alloc: Global, keeper: &mut K, of: ListOf) -> Result<String, StoreFault>
    ensures read { IsRead K.meaning keeper.old keeper.new (fault_in result) }
    ensures told { Tells K.meaning keeper.old keeper.new result
        (λ kept text. IsListOf of (K.meaning.configuration keeper.old) kept (string_bytes text)) }
{
    match of {
        ListOf::Senders => senders_text(alloc, keeper),
        ListOf::Owners => owners_text(alloc, keeper),
        ListOf::Gateways => gateways_text(alloc, keeper),
        ListOf::Devices => devices_text(alloc, keeper),
    }
}

/// Returns one device as CSV: the header of the list of devices, and the device's line.
///
/// # Errors
///
/// Returns `Device` if there is no device with this DevEUI, also if the text isn't 16 hexadecimal digits. Returns `Unavailable` with the
/// store's error if the store fails, and with `Memory` if an allocation fails.
pub fn device_report<K: Keeper>(
    alloc: Global,
    keeper: &mut K,
    dev_eui: &str,
) -> Result<Vec<u8>, ReportFault>
    ensures read { IsRead K.meaning keeper.old keeper.new (store_fault_in result) }
    ensures known { ForState K.meaning keeper.old keeper.new (OnlyIfDevice dev_eui.now result) }
    ensures report { ForLog K.meaning keeper.old keeper.new (IfDeviceReport dev_eui.now result) }
    ensures fault { ForState K.meaning keeper.old keeper.new (IfNoDeviceReport dev_eui.now result) }
{
    report_of(alloc, keeper, dev_eui)
}

/// Returns the report on the device by what the store represents.
fn report_of<K: Keeper>(
    alloc: Global,
    keeper: &mut K,
    dev_eui: &str,
) -> Result<Vec<u8>, ReportFault>
    ensures read { IsRead K.meaning keeper.old keeper.new (store_fault_in result) }
    ensures known { ForFacts K.meaning keeper.old keeper.new (OnlyIfDevice dev_eui.now result) }
    ensures report { ForHeld K.meaning keeper.old keeper.new (λ kept.
        IfOk result (λ text. text.items ≡ device_text (K.meaning.configuration keeper.old) kept.facts dev_eui.now)) }
    ensures fault { ForFacts K.meaning keeper.old keeper.new (IfNoDeviceReport dev_eui.now result) }
{
    let Some(number) = eui_of_digits(dev_eui) else {
        return Err(ReportFault::Device);
    };
    let Some(device) = keeper.device(number)? else {
        return Err(ReportFault::Device);
    };
    Ok(device_with_header(alloc, keeper, number, &device)?.into_bytes())
}
