//! The names of senders, receivers, owners and gateways.
ghost use Rattle.std.specs.Prelude.{◌≡◌, ◌↔◌, [], ◌∷◌, IsTrue, SomeIff, nat_eq};
ghost use Rattle.std.specs.Cmp.{partial_equiv_from_equiv};
ghost use Rattle.std.specs.Cmp.Lexicographic.{nat_list_eq_equiv, pointwise};
ghost use Rattle.std.specs.Cmp.Rules.{hashing};
ghost use Rattle.std.proofs.Common.{rules};
ghost use Rattle.std.specs.List.{list_all};
ghost use Rattle.radio_core.specs.Names.{is_name, is_name_octet};

use crate::padding::spread;
use std::fmt::{self, Debug, Formatter};
use std::hash::{Hash, Hasher};
use std::marker::Model;
use std::str;

/// A name: 1 to 32 ASCII letters, digits, `-`, `_` and `.` (this project's form). Contracts see its octets.
#[derive(Clone, Copy)]
pub struct Name {
    octets: [u8; 32],
    size: u8,
}

impl Model for Name {
    ghost use Rattle.std.specs.Prelude.{ℕ, List, take, length, IsTrue};
    ghost use Rattle.radio_core.specs.Names.{is_name};
    ghost use Rattle.radio_core.specs.steps.Padding.{padded, IsPadded};

    ghost Value = { List ℕ };

    ghost view = { λ a. take a.size a.octets };

    ghost invariant = { λ a. IsPadded 32 a.octets a.size × IsTrue (is_name (take a.size a.octets)) };

    ghost inverse = { λ text. record { octets = padded 32 text; size = length text } };

    ghost inverse_ok = { λ a h i. record { octets = h.0.noughts i; size = h.0.room i } };
}

fn is_name_octet(octet: u8) -> bool
    ensures { result ≡ is_name_octet octet }
{
    octet.is_ascii_alphanumeric() || octet == b'-' || octet == b'_' || octet == b'.'
}

fn are_name_octets(octets: &[u8]) -> bool
    ensures { result ≡ list_all is_name_octet octets.now }
{
    octets.iter().all(|octet| is_name_octet(*octet))
}

fn is_name(octets: &[u8]) -> bool
    ensures { result ≡ is_name octets.now }
{
    1 <= octets.len() && octets.len() <= 32 && are_name_octets(octets)
}

impl Name {
    /// Returns the name with these octets, `None` if and only if they aren't a name.
    #[tactic(auto, using(crate::proofs::PaddedTexts::padded_front))]
    pub fn new(octets: &[u8]) -> Option<Self>
        ensures { SomeIff result (IsTrue (is_name octets.now)) octets.now }
    {
        if is_name(octets) {
            Some(Name {
                octets: spread(octets),
                size: octets.len() as u8,
            })
        } else {
            None
        }
    }

    /// Returns the octets of the name.
    pub fn get(&self) -> &[u8]
        ensures same { result.now ≡ self.now }
        ensures name { IsTrue (is_name self.now) }
    {
        &self.octets[..self.size as usize]
    }

    /// Returns the name as text: a name is ASCII.
    pub fn as_str(&self) -> &str
        ensures { result.now ≡ self.now }
    {
        str::from_utf8(self.get()).unwrap()
    }
}

/// Shows the name as a text in quotes.
impl Debug for Name {
    fn fmt<W: fmt::Write>(&self, f: &mut Formatter<W>) -> fmt::Result {
        Debug::fmt(self.as_str(), f)
    }
}

/// Compares the octets.
impl PartialEq for Name {
    ghost eq = { pointwise nat_eq };

    ghost laws = { partial_equiv_from_equiv nat_list_eq_equiv };

    fn eq(&self, other: &Name) -> bool
        ensures value { result ≡ pointwise nat_eq self.now other.now }
        ensures same { IsTrue result ↔ (self.now ≡ other.now) }
    {
        self.get() == other.get()
    }
}

impl Eq for Name {
    ghost laws = { nat_list_eq_equiv };
}

/// Hashes the octets, in one write.
impl Hash for Name {
    ghost hash_input = { λ name. name ∷ [] };

    ghost respects_eq = { Prim.search (hashing, rules) };

    fn hash<H: Hasher>(&self, state: &mut H) {
        state.write(self.get());
    }
}
