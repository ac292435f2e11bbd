//! The addresses of sessions.
ghost use Rattle.std.specs.Prelude.{◌≡◌, ◌+◌, ◌-◌, ◌^◌, ◌<◌, ◌≤◌};

use radio_core::DevAddr;

/// Returns the address of the session with this number, if there is one.
pub(crate) fn address_of(base: u32, session: u64) -> DevAddr
    ensures { 1 ≤ session → base + session - 1 < 2 ^ 32 → result ≡ base + session - 1 }
{
    let address = u64::from(base).wrapping_add(session).wrapping_sub(1);
    DevAddr::new(u32::try_from(address).unwrap_or(u32::MAX))
}
