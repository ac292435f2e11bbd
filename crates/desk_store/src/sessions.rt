//! The sessions by number. Those of one device are found without a search of the others.
ghost use Rattle.std.specs.Prelude.{◌≡◌, ◌≤◌, ◌<◌, ◌^◌, [], ◌∷◌, ◌++◌, length, max, IsOk, OnOk, OnErr};
ghost use Rattle.std.specs.Option.{option_map_or};
ghost use Rattle.registry_core.specs.Derived.{last_nonce};
ghost use Rattle.registry_core.specs.Numbered.{item_at};

use crate::lookups::item_at;
use indexmap::IndexMap;
use radio_core::Eui;
use registry_core::Session;
use std::alloc::{AllocError, Global};
use std::marker::Model;

/// A session, and the number of the session before it of the same device, 0 if there is none.
#[derive(Clone, Copy)]
pub(crate) struct Link {
    pub(crate) session: Session,
    pub(crate) before: u64,
}

/// The sessions by number, and each device's latest session and last nonce, by the DevEUI. Contracts see the list, and how many more
/// sessions need no allocation.
#[derive(Drop)]
pub(crate) struct Sessions {
    links: Vec<Link>,
    latest: IndexMap<u64, u64>,
    nonces: IndexMap<u64, u16>,
}

impl Model for Sessions {
    ghost use Rattle.registry_core.specs.declared.facts.Session.{Session as SessionValue};
    ghost use Rattle.desk_store.specs.steps.Growing.{Growing};

    ghost Value = { Growing SessionValue };

    ghost use Rattle.std.specs.Prelude.{◌-◌, min, nat_eq};
    ghost use Rattle.std.specs.Vec.{vec_len, vec_capacity};
    ghost use Rattle.indexmap.specs.IndexMap.{get, spare};
    ghost use Rattle.desk_store.specs.steps.Sessions.{sessions_of};
    ghost use Rattle.desk_store.specs.steps.Sessions.{AreLinked};

    ghost view = { λ s. record { items = sessions_of s.links.items; room = min (vec_capacity s.links - vec_len s.links) (min (spare s.latest) (spare s.nonces)) } };

    ghost invariant = { λ s. AreLinked s.links.items (get nat_eq s.latest) (get nat_eq s.nonces) };
}

impl Sessions {
    ghost use Rattle.desk_store.specs.steps.Sessions.{latest_of, same_before};

    pub(crate) fn new(alloc: Global) -> Sessions
        ensures { result.items ≡ [] }
    {
        Sessions {
            links: Vec::new(alloc),
            latest: IndexMap::new(alloc),
            nonces: IndexMap::new(alloc),
        }
    }

    pub(crate) fn len(&self) -> usize
        ensures count { result ≡ length self.now.items }
        ensures small { result < 2 ^ 63 }
    {
        self.links.len()
    }

    /// Returns the session with this number, from 1.
    pub(crate) fn at(&self, number: u64) -> Option<Session>
        ensures { result ≡ item_at self.now.items number }
    {
        Some(item_at(&self.links, number)?.session)
    }

    /// Reserves memory for one more session.
    pub(crate) fn make_room(&mut self) -> Result<(), AllocError>
        ensures same { self.new.items ≡ self.old.items }
        ensures room { OnOk result (1 ≤ self.new.room) }
        ensures succeeds { 1 ≤ self.old.room → IsOk result }
    {
        self.links.reserve(1)?;
        self.latest.reserve(1)?;
        self.nonces.reserve(1)
    }

    /// Adds the session at the end, or changes nothing.
    pub(crate) fn push(&mut self, session: Session) -> Result<(), AllocError>
        ensures ok { OnOk result (self.new.items ≡ self.old.items ++ session ∷ []) }
        ensures err { OnErr result (self.new.items ≡ self.old.items) }
        ensures succeeds { 1 ≤ self.old.room → IsOk result }
    {
        self.make_room()?;
        let before = self.latest(session.device);
        let nonce = self.nonce_with(&session);
        let device = session.device.get();
        self.latest.insert(device, self.links.len() as u64 + 1)?;
        self.nonces.insert(device, nonce)?;
        self.links.push(Link { session, before })?;
        Ok(())
    }

    /// Returns the last nonce of the session's device once the session is added.
    fn nonce_with(&self, session: &Session) -> u16
        ensures { result ≡ option_map_or (max session.now.nonce) (last_nonce self.now.items session.now.device) session.now.nonce }
    {
        greater_of(session.nonce, self.last_nonce(session.device))
    }

    /// Returns the device's last nonce.
    pub(crate) fn last_nonce(&self, device: Eui) -> Option<u16>
        ensures { result ≡ last_nonce self.now.items device }
    {
        self.nonces.get(&device.get()).copied()
    }

    /// Returns the number of the device's latest session, 0 if there is none.
    pub(crate) fn latest(&self, device: Eui) -> u64
        ensures { result ≡ latest_of self.now.items device }
    {
        self.latest.get(&device.get()).copied().unwrap_or(0)
    }

    /// Returns the number of the session before the one with this number, of the same device, 0 if there is none.
    pub(crate) fn before(&self, number: u64) -> u64
        ensures { result ≡ same_before self.now.items number }
    {
        item_at(&self.links, number).map_or(0, |link| link.before)
    }
}

/// Returns the greater of the nonce and the last one.
fn greater_of(nonce: u16, last: Option<u16>) -> u16
    ensures { result ≡ option_map_or (max nonce) last nonce }
{
    last.map_or(nonce, |last| nonce.max(last))
}
