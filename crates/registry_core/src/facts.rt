//! The registry's facts: a device, a session, an uplink with its receptions, and a booking.
use crate::json_integers::JsonInteger;
use duty_core::Span;
use radio_core::{Band, Eui, Name, Octets, Rate};

/// A device, which is found by its DevEUI.
#[derive(Clone, Copy)]
pub struct Device {
    pub join_eui: Eui,
    pub owner: Name,
}

/// An accepted join: its device, by the DevEUI, and its DevNonce.
#[derive(Clone, Copy)]
pub struct Session {
    pub device: Eui,
    pub nonce: u16,
}

/// The kind of an uplink.
#[derive(Clone, Copy, PartialEq, Eq)]
pub enum Kind {
    /// A join request.
    Join,
    /// A confirmed or unconfirmed data frame.
    Data,
}

/// A frame that a device sent, booked once: the number of its session, from 1, and its counter, which for a join is its DevNonce. `start`
/// is in microseconds since 1970 UTC, `airtime` in microseconds.
#[derive(Clone, Copy)]
pub struct Uplink {
    pub session: u64,
    pub kind: Kind,
    pub counter: u32,
    pub octets: Octets,
    pub start: JsonInteger,
    pub airtime: u32,
    pub band: Band,
}

/// The reception of an uplink at one gateway: when its last symbol ended, in microseconds since 1970 UTC, and its frequency and data rate.
#[derive(Clone, Copy)]
pub struct Reception {
    pub end: JsonInteger,
    pub rate: Rate,
}

/// The state of a booking.
#[derive(Clone, Copy, PartialEq, Eq)]
pub enum Standing {
    /// The downlink is to be sent.
    Booked,
    /// It was sent.
    Sent,
    /// It wasn't sent: its time on air is free again, and so is its uplink.
    Dropped,
}

/// A downlink that a gateway is to send: the number of the uplink that it answers, and its time on air, in microseconds since 1970 UTC.
#[derive(Clone, Copy)]
pub struct Booking {
    pub uplink: u64,
    pub gateway: Name,
    pub band: Band,
    pub span: Span,
    pub standing: Standing,
}
