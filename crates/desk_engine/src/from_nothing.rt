//! The headline over a store in memory that is new, with no premise.
ghost use Rattle.std.specs.Prelude.{◌≡◌, [], IfOk};
ghost use Rattle.registry_core.specs.Rules.{GoesByRules};
ghost use Rattle.registry_core.specs.State.{opening};
ghost use Rattle.desk_store.specs.Lists.{kept_of, settings_of};
ghost use Rattle.desk_engine.specs.Outcomes.{AreOutcomes};
ghost use Rattle.desk_engine.specs.Repeats.{RepeatsGetFirstAnswers};
ghost use Rattle.desk_engine.specs.Runs.{AlwaysGoesByRules, HasNoMediumFault, deliveries_in, kept_after_run, octets_of};
ghost use Rattle.desk_engine.specs.Sizes.{SizesAreMostHeard};
ghost use Rattle.desk_engine.specs.Uplinks.{UplinksStayBooked};

use crate::delivering::run;
use crate::outcomes::Outcome;
use desk_store::Lists;
use registry_core::Config;
use registry_core::laws::{nothing_is_heard, rules_are_kept};
use std::alloc::{AllocError, Global};

/// Delivers texts in order to a new store in memory, for every configuration and every list of texts. Returns the store and the outcomes.
///
/// # Errors
///
/// Returns `AllocError` if memory for the store or for the outcomes ran out.
pub fn run_from_nothing(
    alloc: Global,
    config: Config,
    texts: &[&[u8]],
) -> Result<(Lists, Vec<Outcome>), AllocError>
    ensures outcomes { IfOk result (λ ran. AreOutcomes config [] (octets_of texts.now) ran.1.items) }

    // What the store represents is the abstract registry after the log of these deliveries.
    ensures kept { IfOk result (λ ran. kept_of ran.0 ≡ kept_after_run config texts.now ran.1) }

    // No two sessions have one device and one nonce, no two uplinks have one session, one kind and one counter, and no hour of any
    // gateway's band has more booked airtime than its limit: after any first texts of the list, and in the store.
    ensures rules_before { IfOk result (λ ran. AlwaysGoesByRules config [] (deliveries_in texts.now ran.1)) }
    ensures rules { IfOk result (λ ran. GoesByRules (kept_of ran.0).facts) }

    // Every repeat gets the first answer, and the first accepted frame is the uplink.
    ensures repeats { IfOk result (λ ran. RepeatsGetFirstAnswers config (octets_of texts.now) ran.1.items) }
    ensures uplinks { IfOk result (λ ran. UplinksStayBooked config [] (deliveries_in texts.now ran.1)) }

    // No outcome has `Disk` or `NotADesk`, and `Size` comes only if the log has as many messages as it may have.
    ensures faults { IfOk result (λ ran. HasNoMediumFault ran.1) }
    ensures sizes { IfOk result (λ ran. SizesAreMostHeard config [] (octets_of texts.now) ran.1.items) }
{
    rules_are_kept();
    nothing_is_heard();
    let mut lists = opened(alloc, config)?;
    match run(alloc, &mut *lists, texts) {
        Ok(outcomes) => Ok((Box::into_inner(lists), outcomes)),
        Err(error) => Err(error),
    }
}

/// Returns a new store in a box, because it is large and would be moved.
fn opened(alloc: Global, config: Config) -> Result<Box<Lists>, AllocError>
    ensures opens { IfOk result (λ lists. kept_of lists.value ≡ record { facts = opening config; entries = [] }) }
    ensures config { IfOk result (λ lists. settings_of lists.value ≡ config) }
{
    let lists = Lists::new(alloc, config)?;
    Ok(Box::new(alloc, lists)?)
}
