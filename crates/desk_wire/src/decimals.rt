//! Reads numbers from decimal digits.
ghost use Rattle.std.specs.Prelude.{◌≡◌, ◌^◌};
ghost use Rattle.std.specs.Char.{is_ascii_digit};
ghost use Rattle.std.specs.List.{list_all};
ghost use Rattle.desk_wire.specs.Decimals.{count_in, decimal_below, decimal_in, is_decimal};

use std::str;

fn are_digits(text: &[u8]) -> bool
    ensures { result ≡ list_all is_ascii_digit text.now }
{
    text.iter().all(|octet| octet.is_ascii_digit())
}

/// Returns whether the text is one to sixteen decimal digits and nothing else.
fn is_decimal(text: &[u8]) -> bool
    ensures { result ≡ is_decimal text.now }
{
    1 <= text.len() && text.len() <= 16 && are_digits(text)
}

/// Returns the integer that a text writes: one to sixteen decimal digits and nothing else. `None` for any other text.
#[tactic(auto, unfolding(crate::specs::Decimals::decimal_in))]
pub fn decimal_of(text: &[u8]) -> Option<u64>
    ensures { result ≡ decimal_in text.now }
{
    if !is_decimal(text) {
        return None;
    }
    u64::from_str_radix(str::from_utf8(text).ok()?, 10).ok()
}

pub(crate) fn u32_of(text: &[u8]) -> Option<u32>
    ensures { result ≡ decimal_below (2 ^ 32) text.now }
{
    u32::try_from(decimal_of(text)?).ok()
}

/// Returns the count that a text writes: one to ten decimal digits and nothing else, below 2^32. `None` for any other text.
pub fn count_of(text: &str) -> Option<u32>
    ensures { result ≡ count_in text.now }
{
    if text.len() > 10 {
        return None;
    }
    u32_of(text.as_bytes())
}
