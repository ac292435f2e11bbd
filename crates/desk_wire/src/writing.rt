//! Writes envelopes as texts.
ghost use Rattle.std.specs.Prelude.{◌≡◌, IfOk};
ghost use Rattle.json.specs.Tree.{json_tokens};
ghost use Rattle.serde_json.specs.Written.{outline};
ghost use Rattle.registry_core.specs.declared.messages.Message.TheVariants.{SenderAdd, OwnerAdd, GatewayAdd, DeviceAdd, DeviceMove, JoinHeard, FrameHeard, DownBook, DownDone, LimitSet};
ghost use Rattle.desk_wire.specs.Writing.{message_value, message_text};
ghost use Rattle.desk_wire.specs.steps.Texts.{heard_tokens};

use crate::bands::band_name;
use crate::objects::ObjectText;
use crate::roles::role_name;
use crate::verdicts::join_verdict_name;
use crate::windows::window_number;
use radio_core::{Eui, Name, Octets};
use registry_core::{BandLimit, Envelope, JoinVerdict, JsonInteger, Message, Report, Role, Window};
use std::alloc::{AllocError, Global};

/// Writes the text of an envelope for the receiver: compact JSON, with the members in byte order of their names, and EUIs in lower case
/// without `0x`. `read_message` reads it as the same envelope.
///
/// # Errors
///
/// Returns `AllocError` if an allocation failed.
#[tactic(auto, using(crate::proofs::Printed::printed), unfolding(crate::specs::Writing::message_text))]
pub fn write_message(
    alloc: Global,
    envelope: &Envelope,
    receiver: &Name,
) -> Result<Vec<u8>, AllocError>
    ensures { IfOk result (λ text. text.items ≡ message_text receiver.now envelope.now) }
{
    let out = message_object(alloc, envelope, receiver)?;
    Ok(out.into_text())
}

fn message_object(
    alloc: Global,
    envelope: &Envelope,
    receiver: &Name,
) -> Result<ObjectText, AllocError>
    ensures { IfOk result (λ out. out ≡ json_tokens (outline (message_value receiver.now
        envelope.now.sender envelope.now.transaction envelope.now.message))) }
{
    match &envelope.message {
        Message::SenderAdd { sender, role } => sender_add(alloc, envelope, receiver, sender, *role),
        Message::OwnerAdd { owner } => owner_add(alloc, envelope, receiver, owner),
        Message::GatewayAdd { gateway } => gateway_add(alloc, envelope, receiver, gateway),
        Message::DeviceAdd {
            dev_eui,
            join_eui,
            owner,
        } => device_add(alloc, envelope, receiver, *dev_eui, *join_eui, owner),
        Message::DeviceMove { dev_eui, owner } => device_move(
            alloc, envelope, receiver, *dev_eui, owner,
        ),
        Message::JoinHeard { report, verdict } => join_heard(
            alloc, envelope, receiver, report, *verdict,
        ),
        Message::FrameHeard { report, verdict } => frame_heard(
            alloc, envelope, receiver, report, *verdict,
        ),
        Message::DownBook {
            uplink,
            gateway,
            window,
            octets,
        } => down_book(alloc, envelope, receiver, *uplink, gateway, *window, octets),
        Message::DownDone { booking, sent } => down_done(
            alloc, envelope, receiver, *booking, *sent,
        ),
        Message::LimitSet { gateway, limit } => limit_set(
            alloc, envelope, receiver, gateway, *limit,
        ),
    }
}

#[tactic(auto, unfolding(crate::proofs::Printed::whole_texts))]
fn sender_add(
    alloc: Global,
    envelope: &Envelope,
    receiver: &Name,
    added: &Name,
    role: Role,
) -> Result<ObjectText, AllocError>
    ensures { IfOk result (λ out. out ≡ json_tokens (outline (message_value receiver.now
        envelope.now.sender envelope.now.transaction (SenderAdd added.now role)))) }
{
    let mut out = ObjectText::new(alloc)?;
    out.text("MessageType", "SenderAdd")?;
    out.version_and_receiver(receiver)?;
    out.text("Role", role_name(role))?;
    out.text("Sender", added.as_str())?;
    out.text("SenderID", envelope.sender.as_str())?;
    out.number("TransactionID", u64::from(envelope.transaction))?;
    out.end()?;
    Ok(out)
}

#[tactic(auto, unfolding(crate::proofs::Printed::whole_texts))]
fn owner_add(
    alloc: Global,
    envelope: &Envelope,
    receiver: &Name,
    owner: &Name,
) -> Result<ObjectText, AllocError>
    ensures { IfOk result (λ out. out ≡ json_tokens (outline (message_value receiver.now
        envelope.now.sender envelope.now.transaction (OwnerAdd owner.now)))) }
{
    let mut out = ObjectText::new(alloc)?;
    out.text("MessageType", "OwnerAdd")?;
    out.text("Owner", owner.as_str())?;
    out.version_and_receiver(receiver)?;
    out.text("SenderID", envelope.sender.as_str())?;
    out.number("TransactionID", u64::from(envelope.transaction))?;
    out.end()?;
    Ok(out)
}

#[tactic(auto, unfolding(crate::proofs::Printed::whole_texts))]
fn gateway_add(
    alloc: Global,
    envelope: &Envelope,
    receiver: &Name,
    gateway: &Name,
) -> Result<ObjectText, AllocError>
    ensures { IfOk result (λ out. out ≡ json_tokens (outline (message_value receiver.now
        envelope.now.sender envelope.now.transaction (GatewayAdd gateway.now)))) }
{
    let mut out = ObjectText::new(alloc)?;
    out.text("Gateway", gateway.as_str())?;
    out.text("MessageType", "GatewayAdd")?;
    out.version_and_receiver(receiver)?;
    out.text("SenderID", envelope.sender.as_str())?;
    out.number("TransactionID", u64::from(envelope.transaction))?;
    out.end()?;
    Ok(out)
}

#[tactic(auto, unfolding(crate::proofs::Printed::whole_texts))]
fn device_add(
    alloc: Global,
    envelope: &Envelope,
    receiver: &Name,
    dev_eui: Eui,
    join_eui: Eui,
    owner: &Name,
) -> Result<ObjectText, AllocError>
    ensures { IfOk result (λ out. out ≡ json_tokens (outline (message_value receiver.now
        envelope.now.sender envelope.now.transaction (DeviceAdd dev_eui join_eui owner.now)))) }
{
    let mut out = ObjectText::new(alloc)?;
    out.eui(alloc, "DevEUI", dev_eui)?;
    out.eui(alloc, "JoinEUI", join_eui)?;
    out.text("MessageType", "DeviceAdd")?;
    out.text("Owner", owner.as_str())?;
    out.version_and_receiver(receiver)?;
    out.text("SenderID", envelope.sender.as_str())?;
    out.number("TransactionID", u64::from(envelope.transaction))?;
    out.end()?;
    Ok(out)
}

#[tactic(auto, unfolding(crate::proofs::Printed::whole_texts))]
fn device_move(
    alloc: Global,
    envelope: &Envelope,
    receiver: &Name,
    dev_eui: Eui,
    owner: &Name,
) -> Result<ObjectText, AllocError>
    ensures { IfOk result (λ out. out ≡ json_tokens (outline (message_value receiver.now
        envelope.now.sender envelope.now.transaction (DeviceMove dev_eui owner.now)))) }
{
    let mut out = ObjectText::new(alloc)?;
    out.eui(alloc, "DevEUI", dev_eui)?;
    out.text("MessageType", "DeviceMove")?;
    out.text("Owner", owner.as_str())?;
    out.version_and_receiver(receiver)?;
    out.text("SenderID", envelope.sender.as_str())?;
    out.number("TransactionID", u64::from(envelope.transaction))?;
    out.end()?;
    Ok(out)
}

/// Writes a message that reports a frame, up to its last member, Verdict. The object is left open.
#[tactic(auto, unfolding(crate::proofs::Printed::whole_texts))]
fn heard(
    alloc: Global,
    envelope: &Envelope,
    receiver: &Name,
    type_name: &str,
    report: &Report,
) -> Result<ObjectText, AllocError>
    ensures { IfOk result (λ out. out ≡ heard_tokens receiver.now envelope.now.sender
        envelope.now.transaction type_name.now report.now) }
{
    let mut out = ObjectText::new(alloc)?;
    out.number("DataRate", u64::from(report.rate.dr.get()))?;
    out.number("Freq", u64::from(report.rate.freq))?;
    out.text("Gateway", report.gateway.as_str())?;
    out.text("MessageType", type_name)?;
    out.octets(alloc, "PHYPayload", &report.octets)?;
    out.version_and_receiver(receiver)?;
    out.text("SenderID", envelope.sender.as_str())?;
    out.number("Time", report.time.get())?;
    out.number("TransactionID", u64::from(envelope.transaction))?;
    Ok(out)
}

#[tactic(auto, unfolding(crate::proofs::Printed::whole_texts))]
fn join_heard(
    alloc: Global,
    envelope: &Envelope,
    receiver: &Name,
    report: &Report,
    verdict: JoinVerdict,
) -> Result<ObjectText, AllocError>
    ensures { IfOk result (λ out. out ≡ json_tokens (outline (message_value receiver.now
        envelope.now.sender envelope.now.transaction (JoinHeard report.now verdict)))) }
{
    let mut out = heard(alloc, envelope, receiver, "JoinHeard", report)?;
    out.text("Verdict", join_verdict_name(verdict))?;
    out.end()?;
    Ok(out)
}

#[tactic(auto, unfolding(crate::proofs::Printed::whole_texts))]
fn frame_heard(
    alloc: Global,
    envelope: &Envelope,
    receiver: &Name,
    report: &Report,
    verdict: Option<u32>,
) -> Result<ObjectText, AllocError>
    ensures { IfOk result (λ out. out ≡ json_tokens (outline (message_value receiver.now
        envelope.now.sender envelope.now.transaction (FrameHeard report.now verdict)))) }
{
    let mut out = heard(alloc, envelope, receiver, "FrameHeard", report)?;
    out.number_or_null("Verdict", verdict)?;
    out.end()?;
    Ok(out)
}

#[tactic(auto, unfolding(crate::proofs::Printed::whole_texts))]
fn down_book(
    alloc: Global,
    envelope: &Envelope,
    receiver: &Name,
    uplink: JsonInteger,
    gateway: &Name,
    window: Window,
    octets: &Octets,
) -> Result<ObjectText, AllocError>
    ensures { IfOk result (λ out. out ≡ json_tokens (outline (message_value receiver.now
        envelope.now.sender envelope.now.transaction (DownBook uplink gateway.now window octets.now)))) }
{
    let mut out = ObjectText::new(alloc)?;
    out.text("Gateway", gateway.as_str())?;
    out.text("MessageType", "DownBook")?;
    out.octets(alloc, "PHYPayload", octets)?;
    out.version_and_receiver(receiver)?;
    out.text("SenderID", envelope.sender.as_str())?;
    out.number("TransactionID", u64::from(envelope.transaction))?;
    out.number("Uplink", uplink.get())?;
    out.number("Window", u64::from(window_number(window)))?;
    out.end()?;
    Ok(out)
}

#[tactic(auto, unfolding(crate::proofs::Printed::whole_texts))]
fn down_done(
    alloc: Global,
    envelope: &Envelope,
    receiver: &Name,
    booking: JsonInteger,
    sent: bool,
) -> Result<ObjectText, AllocError>
    ensures { IfOk result (λ out. out ≡ json_tokens (outline (message_value receiver.now
        envelope.now.sender envelope.now.transaction (DownDone booking sent)))) }
{
    let mut out = ObjectText::new(alloc)?;
    out.number("Booking", booking.get())?;
    out.text("MessageType", "DownDone")?;
    out.version_and_receiver(receiver)?;
    out.text("SenderID", envelope.sender.as_str())?;
    out.boolean("Sent", sent)?;
    out.number("TransactionID", u64::from(envelope.transaction))?;
    out.end()?;
    Ok(out)
}

#[tactic(auto, unfolding(crate::proofs::Printed::whole_texts))]
fn limit_set(
    alloc: Global,
    envelope: &Envelope,
    receiver: &Name,
    gateway: &Name,
    limit: BandLimit,
) -> Result<ObjectText, AllocError>
    ensures { IfOk result (λ out. out ≡ json_tokens (outline (message_value receiver.now
        envelope.now.sender envelope.now.transaction (LimitSet gateway.now limit)))) }
{
    let mut out = ObjectText::new(alloc)?;
    out.text("Band", band_name(limit.band()))?;
    out.text("Gateway", gateway.as_str())?;
    out.number("Limit", limit.most())?;
    out.text("MessageType", "LimitSet")?;
    out.version_and_receiver(receiver)?;
    out.text("SenderID", envelope.sender.as_str())?;
    out.number("TransactionID", u64::from(envelope.transaction))?;
    out.end()?;
    Ok(out)
}
