//! Checks in a row: the first that fails decides the answer.
ghost use Rattle.std.specs.Prelude.{◌≡◌};
ghost use Rattle.registry_core.specs.Checks.{wants};

use crate::answers::Refusal;

/// Returns this refusal if the condition is false.
pub(crate) fn wants(condition: bool, refusal: Refusal) -> Result<(), Refusal>
    ensures { result ≡ wants condition refusal }
{
    if condition { Ok(()) } else { Err(refusal) }
}
