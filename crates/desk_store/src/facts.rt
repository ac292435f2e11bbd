//! The registry's facts in memory: what has a key in maps and sets, and what is numbered in lists.
ghost use Rattle.std.specs.Prelude.{◌≡◌, ◌+◌, [], ◌∷◌, ◌++◌, bytes_eq, length, None, Some, IfOk, OnOk, OnErr};
ghost use Rattle.indexmap.specs.IndexMap.{get};
ghost use Rattle.registry_core.specs.State.{at_name, opening, receptions_with, state_with};
ghost use Rattle.registry_core.specs.declared.messages.Role.TheVariants.{Operator};
ghost use Rattle.registry_core.specs.declared.effects.Effect.TheVariants.{AddsReception, AddsSession, AddsUplink, SetsLimit};
ghost use Rattle.desk_store.specs.Facts.{facts_of, receptions_of};

use crate::devices::Devices;
use crate::sessions::Sessions;
use crate::traffic::Traffic;
use indexmap::{IndexMap, IndexSet};
use radio_core::Name;
use registry_core::{BandLimit, Config, Effect, Reception, Role, Session, Uplink};
use std::alloc::{AllocError, Global};

/// The registry's facts. Contracts see them as the state `facts_of`.
#[derive(Drop)]
pub(crate) struct Facts {
    pub(crate) senders: IndexMap<Name, Role>,
    pub(crate) owners: IndexSet<Name>,
    pub(crate) gateways: IndexSet<Name>,
    pub(crate) devices: Devices,
    pub(crate) sessions: Sessions,
    pub(crate) traffic: Traffic,
    /// By the uplink's number and the gateway.
    pub(crate) receptions: IndexMap<(u64, Name), Reception>,
    /// By the band's number and the gateway. Only limits that were set.
    pub(crate) limits: IndexMap<(u8, Name), u64>,
}

/// Returns the senders of the opening state: the configured operator alone.
#[tactic(auto, using(crate::proofs::Keyed::one_name))]
fn operator_alone(alloc: Global, config: &Config) -> Result<IndexMap<Name, Role>, AllocError>
    ensures { IfOk result (λ senders. get bytes_eq senders ≡ at_name (λ _. None) config.now.operator (Some Operator)) }
{
    let mut senders = IndexMap::new(alloc);
    senders.insert(*config.operator(), Role::Operator)?;
    Ok(senders)
}

impl Facts {
    /// Returns the opening state: the configured operator is the only sender, and there is nothing else.
    pub(crate) fn opening(alloc: Global, config: &Config) -> Result<Facts, AllocError>
        ensures { IfOk result (λ facts. facts_of facts ≡ opening config.now) }
    {
        Ok(Facts {
            senders: operator_alone(alloc, config)?,
            owners: IndexSet::new(alloc),
            gateways: IndexSet::new(alloc),
            devices: Devices::new(alloc),
            sessions: Sessions::new(alloc),
            traffic: Traffic::new(alloc),
            receptions: IndexMap::new(alloc),
            limits: IndexMap::new(alloc),
        })
    }

    /// Applies the effect, or changes nothing.
    pub(crate) fn add(&mut self, effect: &Effect) -> Result<(), AllocError>
        ensures ok { OnOk result (facts_of self.new ≡ state_with (facts_of self.old) effect.now) }
        ensures err { OnErr result (facts_of self.new ≡ facts_of self.old) }
    {
        match *effect {
            Effect::Nothing => Ok(()),
            Effect::AddsSender { name, role } => {
                self.senders.insert(name, role)?;
                Ok(())
            }
            Effect::AddsOwner { name } => {
                self.owners.insert(name)?;
                Ok(())
            }
            Effect::AddsGateway { name } => {
                self.gateways.insert(name)?;
                Ok(())
            }
            Effect::AddsDevice { dev_eui, device } => self.devices.put(dev_eui, device),
            Effect::MovesDevice { dev_eui, owner } => self.devices.move_to(dev_eui, owner),
            Effect::AddsSession {
                session,
                uplink,
                gateway,
                reception,
            } => self.add_session(session, uplink, gateway, reception),
            Effect::AddsUplink {
                uplink,
                gateway,
                reception,
            } => self.add_uplink(uplink, gateway, reception),
            Effect::AddsReception {
                uplink,
                gateway,
                reception,
            } => self.add_reception(uplink, gateway, reception),
            Effect::AddsBooking { booking } => self.traffic.push_booking(booking),
            Effect::EndsBooking { booking, sent } => self.traffic.end_booking(booking, sent),
            Effect::SetsLimit { gateway, limit } => self.set_limit(gateway, limit),
        }
    }

    /// Adds the session, its join uplink and that uplink's reception, or nothing.
    fn add_session(
        &mut self,
        session: Session,
        uplink: Uplink,
        gateway: Name,
        reception: Reception,
    ) -> Result<(), AllocError>
        ensures ok { OnOk result (facts_of self.new ≡ state_with (facts_of self.old) (AddsSession session uplink gateway reception)) }
        ensures err { OnErr result (facts_of self.new ≡ facts_of self.old) }
    {
        self.sessions.make_room()?;
        self.add_uplink(uplink, gateway, reception)?;
        self.sessions.push(session)
    }

    /// Adds the uplink and its reception, or nothing.
    fn add_uplink(
        &mut self,
        uplink: Uplink,
        gateway: Name,
        reception: Reception,
    ) -> Result<(), AllocError>
        ensures ok { OnOk result (facts_of self.new ≡ state_with (facts_of self.old) (AddsUplink uplink gateway reception)) }
        ensures err { OnErr result (facts_of self.new ≡ facts_of self.old) }
        ensures sessions { self.new.sessions ≡ self.old.sessions }
    {
        put_uplink(
            &mut self.traffic,
            &mut self.receptions,
            uplink,
            gateway,
            reception,
        )
    }

    /// Adds the reception, or nothing.
    fn add_reception(
        &mut self,
        uplink: u64,
        gateway: Name,
        reception: Reception,
    ) -> Result<(), AllocError>
        ensures ok { OnOk result (facts_of self.new ≡ state_with (facts_of self.old) (AddsReception uplink gateway reception)) }
        ensures err { OnErr result (facts_of self.new ≡ facts_of self.old) }
    {
        self.receptions.insert((uplink, gateway), reception)?;
        Ok(())
    }

    /// Sets the limit of the gateway's band, or changes nothing.
    fn set_limit(&mut self, gateway: Name, limit: BandLimit) -> Result<(), AllocError>
        ensures ok { OnOk result (facts_of self.new ≡ state_with (facts_of self.old) (SetsLimit gateway limit)) }
        ensures err { OnErr result (facts_of self.new ≡ facts_of self.old) }
    {
        self.limits
            .insert((limit.band().get(), gateway), limit.most())?;
        Ok(())
    }
}

/// Adds the uplink at the end, and its reception under the uplink's number; or adds neither.
fn put_uplink(
    traffic: &mut Traffic,
    receptions: &mut IndexMap<(u64, Name), Reception>,
    uplink: Uplink,
    gateway: Name,
    reception: Reception,
) -> Result<(), AllocError>
    ensures uplinks { OnOk result (traffic.new.uplinks ≡ traffic.old.uplinks ++ uplink ∷ []) }
    ensures receptions { OnOk result (receptions_of receptions.new
        ≡ receptions_with (receptions_of receptions.old) (length traffic.old.uplinks + 1) gateway reception) }
    ensures err { OnErr result ((traffic.new.uplinks ≡ traffic.old.uplinks)
        × (receptions_of receptions.new ≡ receptions_of receptions.old)) }
    ensures bookings { traffic.new.bookings ≡ traffic.old.bookings }
{
    let number = traffic.uplinks().len() as u64 + 1;
    receptions.reserve(1)?;
    traffic.push_uplink(uplink)?;
    receptions.insert((number, gateway), reception)?;
    Ok(())
}
