//! Reads counts within their limits from arguments.
ghost use Rattle.std.specs.Prelude.{◌≡◌, option_and_then};
ghost use Rattle.desk_wire.specs.Decimals.{count_in};
ghost use Rattle.desk_cli.specs.Numbers.{connections_of, port_of, up_to};

use desk_wire::count_of;

/// Returns the count if it is at least 1 and at most `most`.
fn count_up_to(most: u32, text: &str) -> Option<u32>
    ensures { result ≡ option_and_then (up_to most) (count_in text.now) }
{
    let count = count_of(text)?;
    if 1 <= count && count <= most {
        Some(count)
    } else {
        None
    }
}

/// Returns the port that a text writes: one to ten decimal digits, 1 to 65,535. `None` for any other text.
pub(crate) fn port_of(text: &str) -> Option<u16>
    ensures { result ≡ port_of text.now }
{
    let port = count_up_to(65_535, text)?;
    u16::try_from(port).ok()
}

/// Returns the number of connections that a text writes: one to ten decimal digits, 1 to 1,000,000. `None` for any other text.
pub(crate) fn connections_of(text: &str) -> Option<u32>
    ensures { result ≡ connections_of text.now }
{
    count_up_to(1_000_000, text)
}
