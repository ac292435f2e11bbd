//! Answers and refusals.
use radio_core::{Band, DevAddr, Eui};
use thiserror::Error;

/// Why something isn't done. The first has number 1, and the last 34 (this project's numbers).
///
/// 1 to 5, 7 and 8 answer texts, before a message is decided. 6 and 9 to 31 are answers of a step, and are stored. 32 to 34 have no text.
#[derive(Clone, Copy, PartialEq, Eq, Debug, Error)]
pub enum Refusal {
    /// The text isn't a JSON object in UTF-8, or a member that every message has is missing or not in its form.
    #[error("the text isn't a message")]
    Malformed = 1,
    /// ProtocolVersion isn't `1.0`.
    #[error("ProtocolVersion isn't 1.0")]
    InvalidProtocolVersion = 2,
    /// ReceiverID isn't the desk's.
    #[error("ReceiverID isn't the desk's")]
    UnknownReceiver = 3,
    /// No sender has the name.
    #[error("no sender has the name")]
    UnknownSender = 4,
    /// The sender's transaction number was heard with another message.
    #[error("the transaction number was heard with another message")]
    TransactionReused = 5,
    /// The sender is no operator.
    #[error("the sender is no operator")]
    WrongRole = 6,
    /// A member of the message's type is missing, or not in its form.
    #[error("a member of the message's type is missing or not in its form")]
    BadBody = 7,
    /// The MessageType is unknown.
    #[error("the MessageType is unknown")]
    UnknownType = 8,
    /// A sender, an owner or a gateway has the name, or a device the DevEUI.
    #[error("the name or DevEUI is taken")]
    Exists = 9,
    /// No owner has the name.
    #[error("no owner has the name")]
    UnknownOwner = 10,
    /// No gateway has the name.
    #[error("no gateway has the name")]
    UnknownGateway = 11,
    /// No device has the DevEUI.
    #[error("no device has the DevEUI")]
    UnknownDevEui = 12,
    /// No session has the DevAddr; or the downlink's DevAddr isn't that of the uplink's session.
    #[error("no session has the DevAddr")]
    UnknownDevAddr = 13,
    /// The octets are no such frame, or more than the data rate can carry.
    #[error("the octets are no such frame")]
    BadFrame = 14,
    /// No sub-band contains the whole bandwidth of the transmission.
    #[error("no sub-band contains the transmission")]
    OutOfBand = 15,
    /// The security module found the integrity code wrong.
    #[error("the integrity code is wrong")]
    MicFailed = 16,
    /// The JoinEUI isn't the one that the device was added with.
    #[error("the JoinEUI isn't the device's")]
    JoinEui = 17,
    /// The DevNonce isn't above those of the device's sessions.
    #[error("the DevNonce isn't above those of the device's sessions")]
    Nonce = 18,
    /// There are as many sessions as addresses.
    #[error("no address is free")]
    Addresses = 19,
    /// The session has an uplink with this counter, and other octets.
    #[error("the counter was used with other octets")]
    Replayed = 20,
    /// The counter is below the session's last.
    #[error("the counter is below the session's last")]
    Late = 21,
    /// The counter isn't the one that FCnt gives after the session's last.
    #[error("the counter doesn't follow the session's last")]
    Gap = 22,
    /// A later session of the device has a data uplink.
    #[error("a later session of the device has a data uplink")]
    SessionEnded = 23,
    /// No uplink has the number and a reception at the gateway.
    #[error("no uplink has the number and a reception at the gateway")]
    NoUplink = 24,
    /// FCnt isn't that of the session's next downlink counter.
    #[error("FCnt isn't that of the next downlink")]
    DownCounter = 25,
    /// The gateway is on the air at the time, in this or another band.
    #[error("the gateway is on the air at the time")]
    Collision = 26,
    /// The time on air in some sliding hour of the band would be above the limit.
    #[error("the band's limit would be exceeded")]
    Duty = 27,
    /// A booking that isn't dropped answers the uplink.
    #[error("the uplink is answered already")]
    Answered = 28,
    /// No booking has the number.
    #[error("no booking has the number")]
    NoBooking = 29,
    /// The booking was sent or dropped already.
    #[error("the booking was sent or dropped already")]
    Done = 30,
    /// The time is before 2000 or after the beginning of 2100; of a report, the text is not a month or not a time.
    #[error("the time is out of range")]
    Time = 31,
    /// Memory ran out, the disk failed, or the store is out of space. Nothing is heard.
    #[error("memory, disk or space is unavailable")]
    Unavailable = 32,
    /// What is stored is not a desk.
    #[error("what is stored is not a desk")]
    NotADesk = 33,
    /// What is stored is a desk of another schema version.
    #[error("the desk has another schema version")]
    SchemaVersion = 34,
}

impl Refusal {
    ghost use Rattle.std.specs.Prelude.{◌≡◌};
    ghost use Rattle.registry_core.specs.Refusals.{refusal_number};

    /// Returns the refusal's number, 1 to 34.
    pub fn ordinal(self) -> u8
        ensures { result ≡ refusal_number self }
    {
        self as u8
    }
}

/// The answer of a message that was decided: success, or why not.
#[derive(Clone, Copy)]
pub enum Answer {
    /// Done, with no further members.
    Success,
    /// A join: its time on air in microseconds and its band, whether it is a copy, the session's address, and the number of its uplink.
    JoinSuccess {
        airtime: u32,
        band: Band,
        copy: bool,
        addr: DevAddr,
        uplink: u64,
    },
    /// A data frame: its time on air in microseconds and its band, whether it is a copy, its counter, its device, and the number of its
    /// uplink.
    FrameSuccess {
        airtime: u32,
        band: Band,
        copy: bool,
        counter: u32,
        dev_eui: Eui,
        uplink: u64,
    },
    /// A downlink: its time on air in microseconds and its band, the number of its booking, and when it begins, in microseconds since 1970
    /// UTC.
    DownSuccess {
        airtime: u32,
        band: Band,
        booking: u64,
        start: u64,
    },
    /// Not done. Nothing is changed.
    Refused(Refusal),
}
