//! The MessageType of a message.
ghost use Rattle.std.specs.Prelude.{◌≡◌, IsTrue, SomeIff};
ghost use Rattle.std.specs.Char.{is_ascii_alphabetic};
ghost use Rattle.std.specs.List.{list_all};
ghost use Rattle.desk_wire.specs.TypeNames.{is_type_name, type_name_of};

use radio_core::Name;
use registry_core::Message;
use std::marker::Model;

/// A MessageType: 1 to 32 ASCII letters (this project's form). Contracts see its octets.
#[derive(Clone, Copy, Debug)]
pub struct TypeName {
    /// A type's name has the form of a name too.
    name: Name,
}

impl Model for TypeName {
    ghost use Rattle.std.specs.Prelude.{ℕ, List, IsTrue};
    ghost use Rattle.desk_wire.specs.TypeNames.{is_type_name};

    ghost Value = { List ℕ };

    ghost view = { λ n. n.name };

    ghost invariant = { λ n. IsTrue (is_type_name n.name) };

    ghost inverse = { λ text. record { name = text } };
}

impl TypeName {
    /// Returns the type name of these octets, `None` if and only if they aren't 1 to 32 ASCII letters.
    #[tactic(auto, using(crate::proofs::NameTexts::type_name_is_name))]
    pub fn new(octets: &[u8]) -> Option<Self>
        ensures { SomeIff result (IsTrue (is_type_name octets.now)) octets.now }
    {
        match Name::new(octets) {
            Some(name) if are_letters(octets) => Some(TypeName { name }),
            _ => None,
        }
    }

    /// Returns the octets of the name.
    pub fn get(&self) -> &[u8]
        ensures same { result.now ≡ self.now }
        ensures letters { IsTrue (is_type_name self.now) }
    {
        self.name.get()
    }

    /// Returns the name as text.
    pub fn as_str(&self) -> &str
        ensures { result.now ≡ self.now }
    {
        self.name.as_str()
    }
}

fn are_letters(octets: &[u8]) -> bool
    ensures { result ≡ list_all is_ascii_alphabetic octets.now }
{
    octets.iter().all(|octet| octet.is_ascii_alphabetic())
}

/// Returns the MessageType of a message.
pub(crate) fn type_name_of(message: &Message) -> TypeName
    ensures { result ≡ type_name_of message.now }
{
    let text = match message {
        Message::SenderAdd { .. } => b"SenderAdd".as_slice(),
        Message::OwnerAdd { .. } => b"OwnerAdd",
        Message::GatewayAdd { .. } => b"GatewayAdd",
        Message::DeviceAdd { .. } => b"DeviceAdd",
        Message::DeviceMove { .. } => b"DeviceMove",
        Message::JoinHeard { .. } => b"JoinHeard",
        Message::FrameHeard { .. } => b"FrameHeard",
        Message::DownBook { .. } => b"DownBook",
        Message::DownDone { .. } => b"DownDone",
        Message::LimitSet { .. } => b"LimitSet",
    };
    TypeName::new(text).unwrap()
}
