//! Frames as they are sent over the air (LoRaWAN L2 1.0.4, sections 4 and 6.2), as far as they can be read without keys.
ghost use Rattle.std.specs.Prelude.{◌≡◌, ◌<◌, ◌↔◌, Err, if◌then◌else◌, length, nat_le, ok_or};
ghost use Rattle.radio_core.specs.declared.frames.FrameFault.{FrameFault};
ghost use Rattle.radio_core.specs.declared.frames.FrameFault.TheVariants.{Kind, Length};
ghost use Rattle.radio_core.specs.declared.frames.Phy.{Phy};
ghost use Rattle.radio_core.specs.Frames.{IsFault, IsFrame, accept_of, body_of, data_of, fields_of, join_frame, read_of};

use crate::identifiers::{DevAddr, Eui};
use thiserror::Error;

/// A frame, as far as its octets are read. Fields of several octets are sent with the lowest octet first.
#[derive(Clone, Copy, PartialEq, Eq)]
pub enum Phy {
    /// A join request.
    Join {
        join_eui: Eui,
        dev_eui: Eui,
        nonce: u16,
    },
    /// A join accept. Only keys could read more of it.
    Accept,
    /// A data frame from a device.
    Up {
        confirmed: bool,
        addr: DevAddr,
        fcnt: u16,
    },
    /// A data frame for a device.
    Down {
        confirmed: bool,
        addr: DevAddr,
        fcnt: u16,
    },
}

/// Why octets are not a frame. The errors are checked in this order.
#[derive(Clone, Copy, PartialEq, Eq, Debug, Error)]
pub enum FrameFault {
    /// There are no octets.
    #[error("the frame is empty")]
    Empty,
    /// The MHDR's Major isn't 0.
    #[error("the frame's major version isn't 0")]
    Major,
    /// The MHDR's frame type is 6 or 7.
    #[error("the frame's type is reserved or proprietary")]
    Kind,
    /// No frame of this type has these octets.
    #[error("no frame of its type has this length")]
    Length,
}

/// Reads what follows the MHDR in a join request: JoinEUI, DevEUI, DevNonce, MIC.
fn join_request(body: &[u8]) -> Option<Phy>
    ensures { result ≡ join_frame body.now }
{
    let (join_eui, rest) = body.split_first_chunk::<8>()?;
    let (dev_eui, rest) = rest.split_first_chunk::<8>()?;
    let (nonce, mic) = rest.split_first_chunk::<2>()?;
    if mic.len() != 4 {
        return None;
    }
    Some(Phy::Join {
        join_eui: Eui::new(u64::from_le_bytes(*join_eui)),
        dev_eui: Eui::new(u64::from_le_bytes(*dev_eui)),
        nonce: u16::from_le_bytes(*nonce),
    })
}

fn join_accept(body: &[u8]) -> Option<Phy>
    ensures { result ≡ accept_of body.now }
{
    match body.len() {
        16 | 32 => Some(Phy::Accept),
        _ => None,
    }
}

/// Returns the DevAddr and the FCnt of a data frame, from what follows its MHDR.
fn data_fields(body: &[u8]) -> Option<(DevAddr, u16)>
    ensures { result ≡ fields_of body.now }
{
    let [a, b, c, d, fctrl, m, n, rest @ ..] = body else {
        return None;
    };
    // FOpts and the MIC at least; with the 8 octets before it, 255 at most
    let options = usize::from(fctrl % 16);
    if rest.len() < options + 4 || rest.len() > 247 {
        return None;
    }
    let addr = DevAddr::new(u32::from_le_bytes([*a, *b, *c, *d]));
    Some((addr, u16::from_le_bytes([*m, *n])))
}

fn data_up(confirmed: bool, body: &[u8]) -> Option<Phy>
    ensures { result ≡ data_of (Phy.Up confirmed) body.now }
{
    let (addr, fcnt) = data_fields(body)?;
    Some(Phy::Up {
        confirmed,
        addr,
        fcnt,
    })
}

fn data_down(confirmed: bool, body: &[u8]) -> Option<Phy>
    ensures { result ≡ data_of (Phy.Down confirmed) body.now }
{
    let (addr, fcnt) = data_fields(body)?;
    Some(Phy::Down {
        confirmed,
        addr,
        fcnt,
    })
}

/// Returns the frame of this type with these octets after its MHDR.
fn read_body(frame_type: u8, body: &[u8]) -> Result<Phy, FrameFault>
    ensures { result
        ≡ ok_or (body_of frame_type body.now) (if nat_le 6 frame_type then Kind else Length) }
{
    let frame = match frame_type {
        0 => join_request(body),
        1 => join_accept(body),
        2 => data_up(false, body),
        3 => data_down(false, body),
        4 => data_up(true, body),
        5 => data_down(true, body),
        _ => return Err(FrameFault::Kind),
    };
    frame.ok_or(FrameFault::Length)
}

/// Reads the octets as a frame (LoRaWAN L2 1.0.4, sections 4.2, 4.3 and 6.2). That bits 4 to 2 of the MHDR are ignored is this project's.
///
/// # Errors
///
/// Returns the first error of the octets, in the order of `FrameFault`.
#[tactic(auto, using(crate::proofs::FoundFaults::frame_is_read, crate::proofs::FoundFaults::fault_is_found))]
pub fn read_phy(octets: &[u8]) -> Result<Phy, FrameFault>
    ensures frame { (phy : Phy) → (result ≡ Ok phy) ↔ IsFrame octets.now phy }
    ensures fault { (fault : FrameFault) → (result ≡ Err fault) ↔ IsFault octets.now fault }
    ensures exact { result ≡ read_of octets.now }
{
    frame_or_fault(octets)
}

/// Returns the frame of the octets, or their first error. The MHDR determines how the octets after it are read.
#[tactic(auto, unfolding(crate::specs::Frames::frame_of))]
fn frame_or_fault(octets: &[u8]) -> Result<Phy, FrameFault>
    ensures { result ≡ read_of octets.now }
{
    let [mhdr, body @ ..] = octets else {
        return Err(FrameFault::Empty);
    };
    // Major in bits 1 and 0, the frame type in bits 7 to 5
    if mhdr % 4 != 0 {
        return Err(FrameFault::Major);
    }
    read_body(mhdr / 32, body)
}
