//! The errors of a message's text.
use crate::heads::Head;
use registry_core::Refusal;
use thiserror::Error;

/// Why a text is no envelope for the receiver, checked in this order, or that memory ran out. Each but `Malformed` and `Memory` has the
/// head of the request.
#[derive(Clone, Copy, Debug, Error)]
pub enum WireFault {
    /// Not JSON, or a member that every message has is missing or not in its form: refusal 1.
    #[error("the text isn't a message")]
    Malformed,
    /// ProtocolVersion isn't `1.0`: refusal 2.
    #[error("ProtocolVersion isn't 1.0")]
    InvalidProtocolVersion(Head),
    /// ReceiverID isn't the receiver's: refusal 3.
    #[error("ReceiverID isn't the receiver's")]
    UnknownReceiver(Head),
    /// MessageType is unknown: refusal 8.
    #[error("the MessageType is unknown")]
    UnknownType(Head),
    /// A member of the type is missing or not in its form: refusal 7.
    #[error("a member of the message's type is missing or not in its form")]
    BadBody(Head),
    /// Out of memory: an allocation failed. The text may be an envelope or not.
    #[error("out of memory")]
    Memory,
}

impl WireFault {
    ghost use Rattle.std.specs.Prelude.{◌≡◌, option_map};
    ghost use Rattle.desk_wire.specs.Faults.{refusal_of_fault, head_of_fault};

    /// Returns the refusal with which the text is answered. `None` for `Memory` only.
    pub fn refusal(&self) -> Option<Refusal>
        ensures { result ≡ refusal_of_fault self.now }
    {
        match self {
            WireFault::Malformed => Some(Refusal::Malformed),
            WireFault::InvalidProtocolVersion(_) => Some(Refusal::InvalidProtocolVersion),
            WireFault::UnknownReceiver(_) => Some(Refusal::UnknownReceiver),
            WireFault::UnknownType(_) => Some(Refusal::UnknownType),
            WireFault::BadBody(_) => Some(Refusal::BadBody),
            WireFault::Memory => None,
        }
    }

    /// Returns the head of the request. `None` for `Malformed` and `Memory`.
    pub fn head(&self) -> Option<&Head>
        ensures { option_map (λ head. head.now) result ≡ head_of_fault self.now }
    {
        match self {
            WireFault::InvalidProtocolVersion(head) => Some(head),
            WireFault::UnknownReceiver(head) => Some(head),
            WireFault::UnknownType(head) => Some(head),
            WireFault::BadBody(head) => Some(head),
            WireFault::Malformed | WireFault::Memory => None,
        }
    }
}
