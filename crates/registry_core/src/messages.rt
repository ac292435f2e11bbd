//! Messages, as values.
use crate::json_integers::JsonInteger;
use crate::limits::BandLimit;
use crate::windows::Window;
use radio_core::{Eui, Name, Octets, Rate};

/// What a sender may send.
#[derive(Clone, Copy, PartialEq, Eq)]
pub enum Role {
    /// Every message.
    Operator,
    /// JoinHeard, FrameHeard, DownBook and DownDone.
    Radio,
}

/// The security module's verdict on a join request's integrity code.
#[derive(Clone, Copy, PartialEq, Eq)]
pub enum JoinVerdict {
    /// The code is right.
    Good,
    /// The code is wrong.
    Bad,
}

/// A gateway's report of a frame: when its last symbol ended, in microseconds since 1970 UTC, its frequency and data rate, and its octets.
#[derive(Clone, Copy)]
pub struct Report {
    pub gateway: Name,
    pub time: JsonInteger,
    pub rate: Rate,
    pub octets: Octets,
}

/// A message.
#[derive(Clone, Copy)]
pub enum Message {
    /// Adds a sender with this name and role.
    SenderAdd {
        sender: Name,
        role: Role,
    },
    /// Adds an owner.
    OwnerAdd {
        owner: Name,
    },
    /// Adds a gateway.
    GatewayAdd {
        gateway: Name,
    },
    /// Adds a device of this owner.
    DeviceAdd {
        dev_eui: Eui,
        join_eui: Eui,
        owner: Name,
    },
    /// Moves the device to this owner.
    DeviceMove {
        dev_eui: Eui,
        owner: Name,
    },
    /// A gateway received a join request.
    JoinHeard {
        report: Report,
        verdict: JoinVerdict,
    },
    /// A gateway received a data frame. The verdict is the counter at which the security module found the integrity code right, if there is
    /// one.
    FrameHeard {
        report: Report,
        verdict: Option<u32>,
    },
    /// Asks the gateway to answer the uplink with this number in the window.
    DownBook {
        uplink: JsonInteger,
        gateway: Name,
        window: Window,
        octets: Octets,
    },
    /// The downlink of the booking with this number was sent, or it wasn't.
    DownDone {
        booking: JsonInteger,
        sent: bool,
    },
    /// Sets the limit of the gateway's band.
    LimitSet {
        gateway: Name,
        limit: BandLimit,
    },
}

/// The greatest number of messages that a desk hears (this project's limit).
pub const MOST_HEARD: usize = 9_007_199_254_740_991;

/// A message with its sender and the sender's transaction number.
#[derive(Clone, Copy)]
pub struct Envelope {
    pub sender: Name,
    pub transaction: u32,
    pub message: Message,
}
