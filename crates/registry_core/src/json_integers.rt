//! Integers as messages have them.
use std::marker::Model;

/// 2^53 - 1, the greatest integer in a message (this project's range).
pub const GREATEST_JSON_INTEGER: u64 = 9_007_199_254_740_991;

/// An integer from 0 to `GREATEST_JSON_INTEGER`. Contracts see the number.
#[derive(Clone, Copy, PartialEq, Eq)]
pub struct JsonInteger {
    number: u64,
}

impl Model for JsonInteger {
    ghost use Rattle.std.specs.Prelude.{ℕ};
    ghost use Rattle.registry_core.specs.JsonIntegers.{IsJsonInteger};

    ghost Value = { ℕ };

    ghost view = { λ w. w.number };

    ghost invariant = { λ w. IsJsonInteger w.number };

    ghost inverse = { λ n. record { number = n } };
}

impl JsonInteger {
    ghost use Rattle.std.specs.Prelude.{◌≡◌, ◌-◌, SomeIff};
    ghost use Rattle.registry_core.specs.JsonIntegers.{IsJsonInteger};

    /// Returns the integer, `None` if and only if the number is above `GREATEST_JSON_INTEGER`.
    pub fn new(number: u64) -> Option<Self>
        ensures { SomeIff result (IsJsonInteger number) number }
    {
        if number > GREATEST_JSON_INTEGER {
            return None;
        }
        Some(JsonInteger { number })
    }

    /// Returns the number.
    pub fn get(&self) -> u64
        ensures same { result ≡ self.now }
        ensures range { IsJsonInteger self.now }
    {
        self.number
    }

    /// Returns the number minus `less`, or 0 if `less` is greater.
    pub(crate) fn minus(&self, less: u32) -> JsonInteger
        ensures { result ≡ self.now - less }
    {
        JsonInteger {
            number: self.number.saturating_sub(u64::from(less)),
        }
    }
}
