//! What an answer repeats of its request.
ghost use Rattle.std.specs.Prelude.{◌≡◌};
ghost use Rattle.desk_wire.specs.Answers.{head_of_envelope};

use crate::type_names::{TypeName, type_name_of};
use radio_core::Name;
use registry_core::Envelope;

/// The sender of a request, its transaction number, and its MessageType, which may be unknown.
#[derive(Clone, Copy, Debug)]
pub struct Head {
    pub sender: Name,
    pub transaction: u32,
    pub type_name: TypeName,
}

/// Returns the head of an envelope.
pub fn head_of(envelope: &Envelope) -> Head
    ensures { result ≡ head_of_envelope envelope.now }
{
    Head {
        sender: envelope.sender,
        transaction: envelope.transaction,
        type_name: type_name_of(&envelope.message),
    }
}
