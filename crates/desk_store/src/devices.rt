//! The devices by DevEUI. An index finds those of one owner, ordered by DevEUI, without a search of the others.
ghost use Rattle.std.specs.Prelude.{◌≡◌, [], IfOk, OnOk, OnErr, Some, None, bytes_eq, if◌then◌else◌, is_some};
ghost use Rattle.std.specs.Cmp.{partial_order_from_own_ties};
ghost use Rattle.std.specs.Cmp.Rules.{comparing};
ghost use Rattle.std.specs.Ordering.{as_partial_cmp};
ghost use Rattle.std.proofs.Common.{rules};
ghost use Rattle.registry_core.specs.Listing.{AreDevices};
ghost use Rattle.registry_core.specs.Reports.{IsNextDevice};
ghost use Rattle.registry_core.specs.State.{State, at_number, devices_with_move};
ghost use Rattle.desk_store.specs.Devices.{devices_of};
ghost use Rattle.desk_store.specs.steps.Devices.{bound_above, owned_cmp};

use crate::listing::devices_in;
use indexmap::IndexMap;
use radio_core::{Eui, Name};
use registry_core::Device;
use std::alloc::{AllocError, Global};
use std::cmp::Ordering;
use std::collections::BTreeSet;
use std::marker::Model;
use std::ops::Bound;

/// A device with its owner.
#[derive(Clone, Copy, PartialEq, Eq)]
pub(crate) struct Owned {
    pub(crate) owner: Name,
    pub(crate) dev_eui: Eui,
}

/// Ordered by owner, and those of one owner by DevEUI.
impl PartialOrd for Owned {
    ghost partial_cmp = { as_partial_cmp owned_cmp };

    ghost laws = { partial_order_from_own_ties (Prim.search (comparing, rules)) (Prim.search (comparing, rules)) };

    fn partial_cmp(&self, other: &Owned) -> Option<Ordering> {
        Some(self.cmp(other))
    }
}

impl Ord for Owned {
    ghost cmp = { owned_cmp };

    ghost total = { Prim.search (comparing, rules) };

    ghost matches_partial_cmp = { Prim.search (comparing, rules) };

    ghost matches_eq = { Prim.search (comparing, rules) };

    fn cmp(&self, other: &Owned) -> Ordering {
        self.owner
            .as_str()
            .cmp(other.owner.as_str())
            .then(self.dev_eui.cmp(&other.dev_eui))
    }
}

/// The devices by DevEUI, and the ordered set of their owners' pairs. Contracts see the devices.
#[derive(Drop)]
pub(crate) struct Devices {
    devices: IndexMap<Eui, Device>,
    owned: BTreeSet<Owned>,
}

impl Model for Devices {
    ghost use Rattle.std.specs.Prelude.{ℕ, List};
    ghost use Rattle.registry_core.specs.declared.facts.Device.{Device as DeviceValue};
    ghost use Rattle.desk_store.specs.steps.Devices.{AreOwned};

    ghost Value = { List (ℕ × DeviceValue) };

    ghost view = { λ d. d.devices.entries };

    ghost invariant = { λ d. AreOwned d.devices.entries d.owned };
}

impl Devices {
    pub(crate) fn new(alloc: Global) -> Devices
        ensures { result ≡ [] }
    {
        Devices {
            devices: IndexMap::new(alloc),
            owned: BTreeSet::new(alloc),
        }
    }

    pub(crate) fn get(&self, dev_eui: Eui) -> Option<Device>
        ensures { result ≡ devices_of self.now dev_eui }
    {
        self.devices.get(&dev_eui).copied()
    }

    /// Stores the device under the DevEUI, or changes nothing.
    pub(crate) fn put(&mut self, dev_eui: Eui, device: Device) -> Result<(), AllocError>
        ensures ok { OnOk result (devices_of self.new ≡ at_number (devices_of self.old) dev_eui (Some device)) }
        ensures err { OnErr result (devices_of self.new ≡ devices_of self.old) }
    {
        let owner = device.owner;
        self.devices.reserve(1)?;
        self.owned.insert(Owned { owner, dev_eui })?;
        match self.devices.insert(dev_eui, device)? {
            Some(before) if before.owner != owner => {
                self.owned.remove(&Owned {
                    owner: before.owner,
                    dev_eui,
                });
            }
            _ => {}
        }
        Ok(())
    }

    /// Makes this name the device's owner, or changes nothing.
    pub(crate) fn move_to(&mut self, dev_eui: Eui, owner: Name) -> Result<(), AllocError>
        ensures ok { OnOk result (devices_of self.new ≡ devices_with_move (devices_of self.old) dev_eui owner) }
        ensures err { OnErr result (devices_of self.new ≡ devices_of self.old) }
    {
        match self.get(dev_eui) {
            Some(device) => self.put(dev_eui, Device { owner, ..device }),
            None => Ok(()),
        }
    }

    /// Returns the least DevEUI of the owner's devices, of those above `after` if that is given.
    pub(crate) fn next_of(&self, owner: &Name, after: Option<Eui>) -> Option<Eui>
        ensures { (s : State) → s.devices ≡ devices_of self.now → IsNextDevice s owner.now after result }
    {
        let next = self
            .owned
            .range((bound_above(owner, after), Bound::Unbounded))
            .next()?;
        its_device(next, owner)
    }

    /// Returns the DevEUIs, in order.
    pub(crate) fn in_order(&self, alloc: Global) -> Result<Vec<Eui>, AllocError>
        ensures { IfOk result (λ sorted. AreDevices (λ dev_eui. is_some (devices_of self.now dev_eui)) sorted.items) }
    {
        devices_in(alloc, &self.devices)
    }
}

/// Returns the device if it is the owner's.
fn its_device(owned: &Owned, owner: &Name) -> Option<Eui>
    ensures { result ≡ (if bytes_eq owned.now.owner owner.now then Some owned.now.dev_eui else None) }
{
    match owned.owner == *owner {
        true => Some(owned.dev_eui),
        false => None,
    }
}

/// Returns the bound at which the owner's devices above `after` begin, or all of them if `after` isn't given.
fn bound_above(owner: &Name, after: Option<Eui>) -> Bound<Owned>
    ensures { result ≡ bound_above owner.now after }
{
    let owner = *owner;
    match after {
        Some(dev_eui) => Bound::Excluded(Owned { owner, dev_eui }),
        None => Bound::Included(Owned {
            owner,
            dev_eui: Eui::new(0),
        }),
    }
}
