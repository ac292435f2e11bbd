//! The fields of frames that the registry uses.
ghost use Rattle.std.specs.Prelude.{◌≡◌, Some};
ghost use Rattle.radio_core.specs.Frames.{frame_of};
ghost use Rattle.registry_core.specs.Frames.{data_up, downlink_to, join_request, frame_at_rate};

use crate::facts::Kind;
use radio_core::{DataRate, DevAddr, Eui, Octets, Phy, max_phy, read_phy};

/// The fields of a join request (LoRaWAN L2 1.0.4, section 6.2).
#[derive(Clone, Copy)]
pub struct JoinRequest {
    pub join_eui: Eui,
    pub dev_eui: Eui,
    pub nonce: u16,
}

/// The address and the counter of a data frame (LoRaWAN L2 1.0.4, section 4.3).
#[derive(Clone, Copy)]
pub struct DataFrame {
    pub addr: DevAddr,
    pub fcnt: u16,
}

/// A frame for a device: the answer of a join request, or of a data frame.
#[derive(Clone, Copy)]
pub(crate) enum Downlink {
    Accept,
    Data(DataFrame),
}

impl Downlink {
    ghost use Rattle.std.specs.Prelude.{◌≡◌};
    ghost use Rattle.registry_core.specs.Frames.{goes_to, counts_as};

    /// Returns whether the frame has this address. A join accept has none, and passes.
    pub(crate) fn goes_to(&self, addr: DevAddr) -> bool
        ensures { result ≡ goes_to addr self.now }
    {
        match self {
            Downlink::Accept => true,
            Downlink::Data(frame) => frame.addr == addr,
        }
    }

    /// Returns whether FCnt has the low 16 bits of the counter, and the counter has 32 bits. A join accept has no FCnt, and passes.
    pub(crate) fn counts_as(&self, counter: u64) -> bool
        ensures { result ≡ counts_as counter self.now }
    {
        match self {
            Downlink::Accept => true,
            Downlink::Data(frame) => {
                counter < 4_294_967_296 && u64::from(frame.fcnt) == counter % 65_536
            }
        }
    }
}

/// Reads the octets as a join request. Returns `None` if and only if they aren't one.
pub fn join_request(octets: &Octets) -> Option<JoinRequest>
    ensures { result ≡ join_request (frame_of octets.now) }
{
    let frame = read_phy(octets.get()).ok()?;
    join_of(&frame)
}

/// Reads the octets as a data frame from a device. Returns `None` if and only if they aren't one; a data frame to a device isn't.
pub fn data_up(octets: &Octets) -> Option<DataFrame>
    ensures { result ≡ data_up (frame_of octets.now) }
{
    let frame = read_phy(octets.get()).ok()?;
    data_of(&frame)
}

/// Reads the octets as a join request that the data rate can carry.
pub(crate) fn join_at(dr: DataRate, octets: &Octets) -> Option<JoinRequest>
    ensures { result ≡ join_request (frame_at_rate dr octets.now) }
{
    let frame = frame_at_rate(dr, octets)?;
    join_of(&frame)
}

/// Reads the octets as a data frame from a device that the data rate can carry.
pub(crate) fn data_at(dr: DataRate, octets: &Octets) -> Option<DataFrame>
    ensures { result ≡ data_up (frame_at_rate dr octets.now) }
{
    let frame = frame_at_rate(dr, octets)?;
    data_of(&frame)
}

/// Reads the octets as the frame that answers an uplink of the kind, if the data rate can carry them.
pub(crate) fn downlink_at(kind: Kind, dr: DataRate, octets: &Octets) -> Option<Downlink>
    ensures { result ≡ downlink_to kind (frame_at_rate dr octets.now) }
{
    match (kind, frame_at_rate(dr, octets)?) {
        (Kind::Join, Phy::Accept) => Some(Downlink::Accept),
        (
            Kind::Data,
            Phy::Down {
                confirmed: _,
                addr,
                fcnt,
            },
        ) => Some(Downlink::Data(DataFrame { addr, fcnt })),
        _ => None,
    }
}

/// Reads the octets as a frame, if the data rate can carry them.
fn frame_at_rate(dr: DataRate, octets: &Octets) -> Option<Phy>
    ensures { result ≡ frame_at_rate dr octets.now }
{
    if octets.get().len() > max_phy(dr) {
        return None;
    }
    read_phy(octets.get()).ok()
}

fn join_of(phy: &Phy) -> Option<JoinRequest>
    ensures { result ≡ join_request (Some phy.now) }
{
    match phy {
        Phy::Join {
            join_eui,
            dev_eui,
            nonce,
        } => Some(JoinRequest {
            join_eui: *join_eui,
            dev_eui: *dev_eui,
            nonce: *nonce,
        }),
        _ => None,
    }
}

fn data_of(phy: &Phy) -> Option<DataFrame>
    ensures { result ≡ data_up (Some phy.now) }
{
    match phy {
        Phy::Up {
            confirmed: _,
            addr,
            fcnt,
        } => Some(DataFrame {
            addr: *addr,
            fcnt: *fcnt,
        }),
        _ => None,
    }
}
