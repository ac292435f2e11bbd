//! Hexadecimal text: reads octets, EUIs and device addresses from digits, and writes them as digits.
ghost use Rattle.std.specs.Prelude.{◌≡◌, ◌==◌, ◌/◌, IfOk, length, option_map};
ghost use Rattle.std.specs.Int.{from_be_bytes, w64};
ghost use Rattle.std.specs.String.{string_bytes};
ghost use Rattle.desk_wire.specs.Optional.{only_if};
ghost use Rattle.desk_wire.specs.Hexadecimal.{unprefixed, decoded, octets_in, eui_in, eui_of_digits, addr_in, octet_digits, eui_digits, addr_digits};

use radio_core::{DevAddr, Eui, Octets};
use std::alloc::{AllocError, Global};

/// Returns the digits: what follows `0x` if the text begins with it, and else the whole text.
fn unprefixed(text: &[u8]) -> &[u8]
    ensures { result.now ≡ unprefixed text.now }
{
    text.strip_prefix(b"0x".as_slice()).unwrap_or(text)
}

/// Returns the octets that digits are. It writes to `room`, which is half as long as the digits.
#[tactic(auto, unfolding(crate::specs::Hexadecimal::decoded))]
fn decoded(digits: &[u8], room: &mut [u8]) -> Option<Octets>
    requires { length room.old ≡ length digits.now / 2 }
    ensures { result ≡ decoded digits.now }
{
    hex::decode_to_slice(digits, room).ok()?;
    Octets::new(room)
}

/// Returns the octets that digits are: two digits for each, in either case. `None` if and only if the text isn't digits, their number is
/// odd, or there are more than 255 octets. It allocates nothing.
#[tactic(auto, using(crate::proofs::HexTexts::too_long))]
fn octets_of_digits(digits: &[u8]) -> Option<Octets>
    ensures { result ≡ decoded digits.now }
{
    let size = digits.len() / 2;
    if size > 255 {
        return None;
    }
    let mut room = [0; 255];
    decoded(digits, &mut room[..size])
}

/// Returns the octets that a text is, with or without `0x` before its digits.
pub(crate) fn octets_of(text: &[u8]) -> Option<Octets>
    ensures { result ≡ octets_in text.now }
{
    octets_of_digits(unprefixed(text))
}

/// Returns the EUI of exactly 8 octets, the most significant first.
fn eui_with(octets: &Octets) -> Option<Eui>
    ensures { result ≡ option_map (from_be_bytes w64) (only_if (λ octets. length octets == 8) octets.now) }
{
    let number = <[u8; 8]>::try_from(octets.get()).ok()?;
    Some(Eui::new(u64::from_be_bytes(number)))
}

/// Returns the EUI that a text is: exactly 8 octets, the most significant first, with or without `0x` before its digits.
#[tactic(auto, unfolding(crate::specs::Hexadecimal::eui_in))]
pub(crate) fn eui_of(text: &str) -> Option<Eui>
    ensures { result ≡ eui_in text.now }
{
    eui_with(&octets_of(text.as_bytes())?)
}

/// Returns the EUI that a text is: 16 digits in either case and nothing else, the most significant first. `None` for any other text.
#[tactic(auto, unfolding(crate::specs::Hexadecimal::eui_of_digits))]
pub fn eui_of_digits(text: &str) -> Option<Eui>
    ensures { result ≡ eui_of_digits text.now }
{
    eui_with(&octets_of_digits(text.as_bytes())?)
}

/// Returns the device address that a text is: 8 digits in either case and nothing else, the most significant first. `None` for any other
/// text.
#[tactic(auto, unfolding(crate::specs::Hexadecimal::addr_in))]
pub fn addr_of(text: &str) -> Option<DevAddr>
    ensures { result ≡ addr_in text.now }
{
    let octets = octets_of_digits(text.as_bytes())?;
    let number = <[u8; 4]>::try_from(octets.get()).ok()?;
    Some(DevAddr::new(u32::from_be_bytes(number)))
}

/// Returns the text of octets: two digits for each, in lower case.
///
/// # Errors
///
/// Returns `AllocError` if an allocation failed.
#[tactic(auto, unfolding(crate::specs::Hexadecimal::octet_digits))]
pub fn octet_digits(alloc: Global, octets: &[u8]) -> Result<String, AllocError>
    ensures { IfOk result (λ text. string_bytes text ≡ octet_digits octets.now) }
{
    hex::encode(alloc, octets)
}

/// Returns the text of an EUI: 16 digits in lower case, the most significant first.
///
/// # Errors
///
/// Returns `AllocError` if an allocation failed.
#[tactic(auto, unfolding(crate::specs::Hexadecimal::eui_digits))]
pub fn eui_digits(alloc: Global, eui: Eui) -> Result<String, AllocError>
    ensures { IfOk result (λ text. string_bytes text ≡ eui_digits eui) }
{
    octet_digits(alloc, &eui.get().to_be_bytes())
}

/// Returns the text of a device address: 8 digits in lower case, the most significant first.
///
/// # Errors
///
/// Returns `AllocError` if an allocation failed.
#[tactic(auto, unfolding(crate::specs::Hexadecimal::addr_digits))]
pub fn addr_digits(alloc: Global, addr: DevAddr) -> Result<String, AllocError>
    ensures { IfOk result (λ text. string_bytes text ≡ addr_digits addr) }
{
    octet_digits(alloc, &addr.get().to_be_bytes())
}
