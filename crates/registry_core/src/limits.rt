//! The limit that an operator sets for a gateway's band.
use radio_core::{Band, limit};
use std::marker::Model;

/// A band, and the greatest time on air within any hour in it, in microseconds: at most the band's own limit. Contracts see `Limit`.
#[derive(Clone, Copy, PartialEq, Eq)]
pub struct BandLimit {
    band: Band,
    most: u64,
}

impl Model for BandLimit {
    ghost use Rattle.registry_core.specs.Limits.{Limit, IsLimit};

    ghost Value = { Limit };

    ghost view = { λ l. record { band = l.band; most = l.most } };

    ghost invariant = { λ l. IsLimit (record { band = l.band; most = l.most }) };

    ghost inverse = { λ l. record { band = l.band; most = l.most } };
}

impl BandLimit {
    ghost use Rattle.std.specs.Prelude.{◌≡◌, SomeIff};
    ghost use Rattle.registry_core.specs.Limits.{IsLimit};

    /// Returns a limit, `None` if and only if `most` is above the band's own limit.
    pub fn new(band: Band, most: u64) -> Option<Self>
        ensures { SomeIff result (IsLimit (record { band = band; most = most })) (record { band = band; most = most }) }
    {
        if most > limit(band) {
            return None;
        }
        Some(BandLimit { band, most })
    }

    /// Returns the band of the limit.
    pub fn band(&self) -> Band
        ensures { result ≡ self.now.band }
    {
        self.band
    }

    /// Returns the greatest time on air within any hour, in microseconds.
    pub fn most(&self) -> u64
        ensures same { result ≡ self.now.most }
        ensures range { IsLimit self.now }
    {
        self.most
    }
}
