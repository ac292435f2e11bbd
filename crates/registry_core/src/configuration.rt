//! The configuration with which a desk is made.
use radio_core::Name;
use std::marker::Model;

/// The desk's own name, its first operator, and its block of device addresses. Contracts see `Settings`.
#[derive(Clone, Copy)]
pub struct Config {
    receiver: Name,
    operator: Name,
    base: u32,
    addresses: u32,
}

impl Model for Config {
    ghost use Rattle.registry_core.specs.Settings.{Settings, IsBlock};

    ghost Value = { Settings };

    ghost view = { λ c. record { receiver = c.receiver; operator = c.operator; base = c.base; addresses = c.addresses } };

    ghost invariant = { λ c. IsBlock c.base c.addresses };

    ghost inverse = { λ c. record { receiver = c.receiver; operator = c.operator; base = c.base; addresses = c.addresses } };
}

impl Config {
    ghost use Rattle.std.specs.Prelude.{◌≡◌, SomeIff};
    ghost use Rattle.registry_core.specs.Settings.{IsBlock};

    /// Returns a configuration, `None` if and only if the block of addresses is empty or ends after the last address.
    pub fn new(receiver: Name, operator: Name, base: u32, addresses: u32) -> Option<Self>
        ensures { SomeIff result (IsBlock base addresses)
            (record { receiver = receiver; operator = operator; base = base; addresses = addresses }) }
    {
        if addresses < 1 || base as u64 + addresses as u64 > 4_294_967_296 {
            return None;
        }
        Some(Config {
            receiver,
            operator,
            base,
            addresses,
        })
    }

    /// Returns the desk's own name.
    pub fn receiver(&self) -> &Name
        ensures { result.now ≡ self.now.receiver }
    {
        &self.receiver
    }

    /// Returns the name of the first sender, an operator.
    pub fn operator(&self) -> &Name
        ensures { result.now ≡ self.now.operator }
    {
        &self.operator
    }

    /// Returns the first address of the block.
    pub fn base(&self) -> u32
        ensures { result ≡ self.now.base }
    {
        self.base
    }

    /// Returns the number of addresses in the block, at least 1.
    pub fn addresses(&self) -> u32
        ensures same { result ≡ self.now.addresses }
        ensures block { IsBlock self.now.base self.now.addresses }
    {
        self.addresses
    }
}
