//! The receive windows of Class A (LoRaWAN L2 1.0.4; RP002-1.0.4, EU863-870).
ghost use Rattle.std.specs.Prelude.{◌≡◌, ◌^◌, ◌<◌};
ghost use Rattle.registry_core.specs.Windows.{delay, rate_in, window_of};

use crate::facts::Kind;
use crate::json_integers::JsonInteger;
use radio_core::{DataRate, Rate};

/// One of the two receive windows that a device opens after it has sent.
#[derive(Clone, Copy, PartialEq, Eq)]
pub enum Window {
    /// RX1, at the uplink's own frequency and data rate.
    First,
    /// RX2, at 869,525,000 Hz and DR0.
    Second,
}

/// Returns when a downlink in the window begins, in microseconds since 1970 UTC, and its frequency in hertz and data rate: the receive
/// windows of Class A (LoRaWAN L2 1.0.4, section 3.3; RP002-1.0.4, EU863-870). `end` is when the last symbol of the uplink ended at the
/// gateway, and `rate` its frequency and data rate there.
pub fn receive(kind: Kind, end: JsonInteger, rate: Rate, window: Window) -> (u64, Rate)
    ensures window { result ≡ window_of kind end rate window }
    ensures range { result.0 < 2 ^ 62 }
{
    (end.get() + delay(kind, window), rate_in(window, rate))
}

/// Returns how long after the uplink the window opens, in microseconds.
fn delay(kind: Kind, window: Window) -> u64
    ensures { result ≡ delay kind window }
{
    match (kind, window) {
        (Kind::Data, Window::First) => 1_000_000,
        (Kind::Data, Window::Second) => 2_000_000,
        (Kind::Join, Window::First) => 5_000_000,
        (Kind::Join, Window::Second) => 6_000_000,
    }
}

/// Returns the frequency and the data rate of a downlink in the window.
fn rate_in(window: Window, rate: Rate) -> Rate
    ensures { result ≡ rate_in window rate }
{
    match window {
        Window::First => rate,
        Window::Second => Rate {
            freq: 869_525_000,
            dr: DataRate::Dr0,
        },
    }
}
