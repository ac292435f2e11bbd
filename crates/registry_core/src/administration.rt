//! Decides the messages of an operator: a function for each, with its checks in order.
ghost use Rattle.registry_core.specs.declared.messages.Message.TheVariants.{SenderAdd, OwnerAdd, GatewayAdd, DeviceAdd, DeviceMove, LimitSet};
ghost use Rattle.std.specs.Prelude.{◌≡◌};
ghost use Rattle.registry_core.specs.steps.Checked.{IsChecked};
ghost use Rattle.registry_core.specs.steps.LimitsByView.{limit_set_by};

use crate::answers::{Answer, Refusal};
use crate::checks::wants;
use crate::effects::Effect;
use crate::facts::Device;
use crate::hours::fit;
use crate::limits::BandLimit;
use crate::messages::Role;
use crate::views::View;
use duty_core::laws::{computed_forms_tell, order_is_ignored};
use radio_core::{Eui, Name};

/// Decides a message that adds a sender with its role.
#[tactic(auto, unfolding(crate::specs::steps::Checked::IsChecked, crate::specs::Administration::sender_add))]
pub(crate) fn sender_add(sender: Name, role: Role, view: &View) -> Result<(Effect, Answer), Refusal>
    ensures { IsChecked (SenderAdd sender role) view.now result }
{
    wants(view.role == Role::Operator, Refusal::WrongRole)?;
    wants(!view.sender_known, Refusal::Exists)?;
    Ok((Effect::AddsSender { name: sender, role }, Answer::Success))
}

/// Decides a message that adds an owner.
#[tactic(auto, unfolding(crate::specs::steps::Checked::IsChecked, crate::specs::Administration::owner_add))]
pub(crate) fn owner_add(owner: Name, view: &View) -> Result<(Effect, Answer), Refusal>
    ensures { IsChecked (OwnerAdd owner) view.now result }
{
    wants(view.role == Role::Operator, Refusal::WrongRole)?;
    wants(!view.owner_known, Refusal::Exists)?;
    Ok((Effect::AddsOwner { name: owner }, Answer::Success))
}

/// Decides a message that adds a gateway.
#[tactic(auto, unfolding(crate::specs::steps::Checked::IsChecked, crate::specs::Administration::gateway_add))]
pub(crate) fn gateway_add(gateway: Name, view: &View) -> Result<(Effect, Answer), Refusal>
    ensures { IsChecked (GatewayAdd gateway) view.now result }
{
    wants(view.role == Role::Operator, Refusal::WrongRole)?;
    wants(!view.gateway_known, Refusal::Exists)?;
    Ok((Effect::AddsGateway { name: gateway }, Answer::Success))
}

/// Decides a message that adds a device of an owner.
#[tactic(auto, unfolding(crate::specs::steps::Checked::IsChecked, crate::specs::Administration::device_add))]
pub(crate) fn device_add(
    dev_eui: Eui,
    join_eui: Eui,
    owner: Name,
    view: &View,
) -> Result<(Effect, Answer), Refusal>
    ensures { IsChecked (DeviceAdd dev_eui join_eui owner) view.now result }
{
    wants(view.role == Role::Operator, Refusal::WrongRole)?;
    wants(view.owner_known, Refusal::UnknownOwner)?;
    wants(view.device.is_none(), Refusal::Exists)?;
    let device = Device { join_eui, owner };
    Ok((Effect::AddsDevice { dev_eui, device }, Answer::Success))
}

/// Decides a message that moves a device to an owner, which may be the owner that it has.
#[tactic(auto, unfolding(crate::specs::steps::Checked::IsChecked, crate::specs::Administration::device_move))]
pub(crate) fn device_move(
    dev_eui: Eui,
    owner: Name,
    view: &View,
) -> Result<(Effect, Answer), Refusal>
    ensures { IsChecked (DeviceMove dev_eui owner) view.now result }
{
    wants(view.role == Role::Operator, Refusal::WrongRole)?;
    wants(view.device.is_some(), Refusal::UnknownDevEui)?;
    wants(view.owner_known, Refusal::UnknownOwner)?;
    Ok((Effect::MovesDevice { dev_eui, owner }, Answer::Success))
}

/// Decides a message that sets the limit of a gateway's band. It is accepted only if no hour of the band is above the limit already.
#[tactic(auto, using(crate::proofs::LimitsByView::limit_set_same), unfolding(crate::specs::steps::Checked::IsChecked))]
pub(crate) fn limit_set(
    gateway: Name,
    limit: BandLimit,
    view: &View,
) -> Result<(Effect, Answer), Refusal>
    ensures { IsChecked (LimitSet gateway limit) view.now result }
{
    // the order of the view's downlinks makes no difference
    order_is_ignored();
    computed_forms_tell();
    limit_kept(gateway, limit, view)
}

/// Checks a limit by the view's downlinks.
#[tactic(auto, unfolding(crate::specs::steps::LimitsByView::limit_set_by))]
fn limit_kept(gateway: Name, limit: BandLimit, view: &View) -> Result<(Effect, Answer), Refusal>
    ensures { result ≡ limit_set_by view.now gateway limit }
{
    wants(view.role == Role::Operator, Refusal::WrongRole)?;
    wants(view.gateway_known, Refusal::UnknownGateway)?;
    wants(fit(&view.in_band, limit.most()), Refusal::Duty)?;
    Ok((Effect::SetsLimit { gateway, limit }, Answer::Success))
}
