//! The view: the part of the registry's state that one message needs.
use crate::facts::{Device, Reception, Standing, Uplink};
use crate::messages::Role;
use duty_core::Span;
use radio_core::{Band, Eui};

/// The part of the registry's state that one message needs. The sender's role, the block and the three counts are set for each message.
/// What the message doesn't need of the rest is false, 0, absent or empty.
///
/// | Message | What it reads besides the role |
/// |---|---|
/// | SenderAdd | `sender_known` |
/// | OwnerAdd | `owner_known` |
/// | GatewayAdd | `gateway_known` |
/// | DeviceAdd, DeviceMove | `owner_known`, `device` |
/// | LimitSet | `gateway_known`, `in_band` at any time |
/// | JoinHeard | `gateway_known`, `device`, `last_nonce`, `uplink`, the block, `sessions`, `uplinks` |
/// | FrameHeard | `gateway_known`, `session`, `uplink`, `uplinks` |
/// | DownBook | `gateway_known`, `uplink`, `base`, `answered`, `next_down`, `near`, `in_band` near it, `limit`, `bookings` |
/// | DownDone | `booking` |
#[derive(Drop)]
pub struct View {
    /// The sender's role.
    pub role: Role,
    /// The first address of the block.
    pub base: u32,
    /// The number of addresses in the block.
    pub addresses: u32,
    /// The number of sessions.
    pub sessions: u64,
    /// The number of uplinks.
    pub uplinks: u64,
    /// The number of bookings.
    pub bookings: u64,
    /// Whether there is the sender that the message names.
    pub sender_known: bool,
    /// Whether there is the owner that the message names.
    pub owner_known: bool,
    /// Whether there is the gateway that the message names.
    pub gateway_known: bool,
    /// The device that the message names or whose join request it reports.
    pub device: Option<Device>,
    /// The greatest nonce among the sessions of the device whose join request the message reports.
    pub last_nonce: Option<u16>,
    /// The session whose data frame the message reports.
    pub session: Option<SessionView>,
    /// The uplink that the message names or that its frame may copy.
    pub uplink: Option<UplinkView>,
    /// Whether a booking that isn't dropped answers the uplink of a downlink.
    pub answered: bool,
    /// The number of bookings that answer data uplinks of that uplink's session, dropped ones too.
    pub next_down: u64,
    /// The state of the booking that the message names.
    pub booking: Option<Standing>,
    /// The limit of the gateway's band for a new downlink, in microseconds on the air within an hour.
    pub limit: u64,
    /// When the gateway is on the air near a new downlink, in all bands, without dropped bookings.
    pub near: Vec<Span>,
    /// When it is on the air in the band, without dropped bookings: near a new downlink, or at any time if the message sets the band's
    /// limit.
    pub in_band: Vec<Span>,
}

/// What one message needs of a session.
#[derive(Clone, Copy)]
pub struct SessionView {
    /// Its number, from 1.
    pub number: u64,
    pub device: Eui,
    /// The greatest counter among its data uplinks.
    pub last_counter: Option<u32>,
    /// Whether a later session of its device has a data uplink.
    pub below_floor: bool,
}

/// What one message needs of an uplink.
#[derive(Clone, Copy)]
pub struct UplinkView {
    /// Its number, from 1.
    pub number: u64,
    pub uplink: Uplink,
    /// Its reception at the gateway that the message names.
    pub at_gateway: Option<Reception>,
}

/// A downlink of a gateway: its band, and when it is on the air.
#[derive(Clone, Copy)]
pub struct NearBooking {
    pub band: Band,
    pub span: Span,
}
