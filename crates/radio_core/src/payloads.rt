//! The octets of frames, as they are stored.
ghost use Rattle.std.specs.Prelude.{◌≡◌, ◌≤◌, ◌↔◌, IsTrue, SomeIff, length, nat_eq};
ghost use Rattle.std.specs.Cmp.{partial_equiv_from_equiv};
ghost use Rattle.std.specs.Cmp.Lexicographic.{nat_list_eq_equiv, pointwise};

use crate::padding::spread;
use std::marker::Model;

/// 0 to 255 octets. Contracts see their list.
#[derive(Clone, Copy)]
pub struct Octets {
    octets: [u8; 255],
    size: u8,
}

impl Model for Octets {
    ghost use Rattle.std.specs.Prelude.{ℕ, List, take, length};
    ghost use Rattle.radio_core.specs.steps.Padding.{padded, IsPadded};

    ghost Value = { List ℕ };

    ghost view = { λ a. take a.size a.octets };

    ghost invariant = { λ a. IsPadded 255 a.octets a.size };

    ghost inverse = { λ text. record { octets = padded 255 text; size = length text } };

    ghost inverse_ok = { λ a h i. record { octets = h.noughts i; size = h.room i } };
}

impl Octets {
    /// Returns the octets, `None` if and only if there are more than 255.
    #[tactic(auto, using(crate::proofs::PaddedTexts::padded_front))]
    pub fn new(octets: &[u8]) -> Option<Self>
        ensures { SomeIff result (length octets.now ≤ 255) octets.now }
    {
        if octets.len() > 255 {
            return None;
        }
        Some(Octets {
            octets: spread(octets),
            size: octets.len() as u8,
        })
    }

    /// Returns the octets.
    pub fn get(&self) -> &[u8]
        ensures same { result.now ≡ self.now }
        ensures length { length self.now ≤ 255 }
    {
        &self.octets[..self.size as usize]
    }
}

/// Compares the octets.
impl PartialEq for Octets {
    ghost eq = { pointwise nat_eq };

    ghost laws = { partial_equiv_from_equiv nat_list_eq_equiv };

    fn eq(&self, other: &Octets) -> bool
        ensures value { result ≡ pointwise nat_eq self.now other.now }
        ensures same { IsTrue result ↔ (self.now ≡ other.now) }
    {
        self.get() == other.get()
    }
}

impl Eq for Octets {
    ghost laws = { nat_list_eq_equiv };
}
