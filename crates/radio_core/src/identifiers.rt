//! The numbers that identify devices and networks.
ghost use Rattle.std.specs.Prelude.{◌≡◌};

use std::marker::Model;

/// A 64-bit extended unique identifier: a JoinEUI or a DevEUI. Contracts see the number.
#[derive(Clone, Copy, PartialEq, Eq, PartialOrd, Ord, Hash)]
pub struct Eui {
    number: u64,
}

impl Model for Eui {
    ghost use Rattle.std.specs.Prelude.{ℕ};

    ghost Value = { ℕ };

    ghost view = { λ eui. eui.number };

    ghost inverse = { λ n. record { number = n } };
}

impl Eui {
    /// Returns the EUI with this number. Every number is one.
    pub fn new(number: u64) -> Self
        ensures { result ≡ number }
    {
        Eui { number }
    }

    /// Returns the number.
    pub fn get(&self) -> u64
        ensures { result ≡ self.now }
    {
        self.number
    }
}

/// A 32-bit device address. Contracts see the number.
#[derive(Clone, Copy, PartialEq, Eq, PartialOrd, Ord)]
pub struct DevAddr {
    address: u32,
}

impl Model for DevAddr {
    ghost use Rattle.std.specs.Prelude.{ℕ};

    ghost Value = { ℕ };

    ghost view = { λ addr. addr.address };

    ghost inverse = { λ n. record { address = n } };
}

impl DevAddr {
    /// Returns the device address with this number. Every number is one.
    pub fn new(address: u32) -> Self
        ensures { result ≡ address }
    {
        DevAddr { address }
    }

    /// Returns the number.
    pub fn get(&self) -> u32
        ensures { result ≡ self.now }
    {
        self.address
    }
}
