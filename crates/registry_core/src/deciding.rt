//! Decides what a message changes and how it is answered.
ghost use Rattle.std.specs.Prelude.{◌≡◌};
ghost use Rattle.registry_core.specs.Decision.{decision_or_refusal};
ghost use Rattle.registry_core.specs.Viewed.{IsStep};
ghost use Rattle.registry_core.specs.steps.Checked.{IsChecked};

use crate::administration::{
    device_add, device_move, gateway_add, limit_set, owner_add, sender_add,
};
use crate::answers::{Answer, Refusal};
use crate::data_frames::frame_heard;
use crate::downlinks::{down_book, down_done};
use crate::effects::Effect;
use crate::joins::join_heard;
use crate::messages::Message;
use crate::views::View;

/// Returns what the message changes, and its answer. It allocates nothing and always answers.
///
/// The contract states this for a view that is the registry's for the message after some log.
#[tactic(auto, using(crate::proofs::Decisions::checked_decides), unfolding(crate::specs::steps::Checked::IsChecked))]
pub fn decide(message: &Message, view: &View) -> (Effect, Answer)
    ensures { IsStep message.now view.now result }
{
    decision_or_refusal(checked_decision(message, view))
}

/// Returns the decision. A refusal changes nothing.
fn decision_or_refusal(checked: Result<(Effect, Answer), Refusal>) -> (Effect, Answer)
    ensures { result ≡ decision_or_refusal checked }
{
    match checked {
        Ok(decision) => decision,
        Err(refusal) => (Effect::Nothing, Answer::Refused(refusal)),
    }
}

/// Runs the checks of the message's type.
#[tactic(auto, using(crate::proofs::DownlinksByView::down_done_same), unfolding(crate::specs::steps::Checked::IsChecked))]
fn checked_decision(message: &Message, view: &View) -> Result<(Effect, Answer), Refusal>
    ensures { IsChecked message.now view.now result }
{
    match message {
        Message::SenderAdd { sender, role } => sender_add(*sender, *role, view),
        Message::OwnerAdd { owner } => owner_add(*owner, view),
        Message::GatewayAdd { gateway } => gateway_add(*gateway, view),
        Message::DeviceAdd {
            dev_eui,
            join_eui,
            owner,
        } => device_add(*dev_eui, *join_eui, *owner, view),
        Message::DeviceMove { dev_eui, owner } => device_move(*dev_eui, *owner, view),
        Message::JoinHeard { report, verdict } => join_heard(report, *verdict, view),
        Message::FrameHeard { report, verdict } => frame_heard(report, *verdict, view),
        Message::DownBook {
            uplink,
            gateway,
            window,
            octets,
        } => down_book(*uplink, gateway, *window, octets, view),
        Message::DownDone { booking, sent } => down_done(*booking, *sent, view),
        Message::LimitSet { gateway, limit } => limit_set(*gateway, *limit, view),
    }
}
