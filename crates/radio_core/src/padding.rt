//! Texts in arrays of a fixed size, so that what contains one is Copy and allocates nothing.
ghost use Rattle.std.specs.Prelude.{◌≡◌, ◌≤◌, length};
ghost use Rattle.radio_core.specs.steps.Padding.{padded};

/// Returns the octets, padded with zeros at the end.
pub(crate) fn spread<const N: usize>(octets: &[u8]) -> [u8; N]
    requires { length octets.now ≤ N }
    ensures { result ≡ padded N octets.now }
{
    let mut kept = [0; N];
    kept[..octets.len()].copy_from_slice(octets);
    kept
}
