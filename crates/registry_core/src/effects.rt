//! The changes that messages make in the registry.
use crate::facts::{Booking, Device, Reception, Session, Uplink};
use crate::limits::BandLimit;
use crate::messages::Role;
use radio_core::{Eui, Name};

/// The one change that a message makes. What is numbered is added at the end of its list.
#[derive(Clone, Copy)]
pub enum Effect {
    /// Nothing changes.
    Nothing,
    /// Adds a sender with this name and role.
    AddsSender {
        name: Name,
        role: Role,
    },
    /// Adds an owner with this name.
    AddsOwner {
        name: Name,
    },
    /// Adds a gateway with this name.
    AddsGateway {
        name: Name,
    },
    /// Adds a device with this DevEUI.
    AddsDevice {
        dev_eui: Eui,
        device: Device,
    },
    /// Gives the device this owner. Nothing else of it changes.
    MovesDevice {
        dev_eui: Eui,
        owner: Name,
    },
    /// Adds the session, its join uplink, and the reception of that at the gateway.
    AddsSession {
        session: Session,
        uplink: Uplink,
        gateway: Name,
        reception: Reception,
    },
    /// Adds the data uplink, and its reception at the gateway.
    AddsUplink {
        uplink: Uplink,
        gateway: Name,
        reception: Reception,
    },
    /// Adds the reception at the gateway of the uplink with this number.
    AddsReception {
        uplink: u64,
        gateway: Name,
        reception: Reception,
    },
    /// Adds the downlink, to be sent.
    AddsBooking {
        booking: Booking,
    },
    /// Marks the booking with this number as sent, or else as dropped.
    EndsBooking {
        booking: u64,
        sent: bool,
    },
    /// Sets the limit of the gateway's band, in place of the one that it had.
    SetsLimit {
        gateway: Name,
        limit: BandLimit,
    },
}
