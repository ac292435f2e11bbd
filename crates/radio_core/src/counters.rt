//! Frame counters of 32 bits. A frame has the low 16 bits (LoRaWAN L2 1.0.4, section 4.3.1.5).
ghost use Rattle.std.specs.Prelude.{◌≡◌, ◌↔◌, ℕ, IsTrue};
ghost use Rattle.radio_core.specs.Counters.{is_candidate};

/// Returns the frame counter that has these low bits. Without a last counter that is the low bits themselves, and else the first number
/// after the last counter that has them (LoRaWAN L2 1.0.4, section 4.3.1.5; that it is the first is this project's). `None` if and only if
/// that is above 4,294,967,295.
pub fn rebuild(last: Option<u32>, low: u16) -> Option<u32>
    ensures { (counter : ℕ) → (result ≡ Some counter) ↔ IsTrue (is_candidate last low counter) }
{
    let Some(last) = last else {
        return Some(u32::from(low));
    };
    let next = last.checked_add(1)?;
    // how far on from there the first number with these low bits is
    let ahead = (u32::from(low) + 65_536 - next % 65_536) % 65_536;
    next.checked_add(ahead)
}
