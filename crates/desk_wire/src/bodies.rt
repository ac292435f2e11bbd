//! Reads the members of each type as a message.
ghost use Rattle.std.specs.Prelude.{◌≡◌};
ghost use Rattle.desk_wire.specs.steps.TreeData.{view};
ghost use Rattle.desk_wire.specs.Bodies.{sender_add_of, owner_add_of, gateway_add_of, device_add_of, device_move_of, join_heard_of, frame_heard_of, down_book_of, down_done_of, limit_set_of};

use crate::members::{
    band_at, boolean_at, eui_at, join_verdict_at, json_integer_at, limit_at, name_at, octets_at,
    role_at, u32_or_null_at, window_at,
};
use crate::reports::report_of;
use json::Value;
use registry_core::Message;

#[tactic(auto, unfolding(crate::specs::Bodies::sender_add_of))]
pub(crate) fn sender_add_of(value: &Value<'_>) -> Option<Message>
    ensures { result ≡ sender_add_of (view value.now) }
{
    let sender = name_at(value, "Sender")?;
    let role = role_at(value, "Role")?;
    Some(Message::SenderAdd { sender, role })
}

#[tactic(auto, unfolding(crate::specs::Bodies::owner_add_of))]
pub(crate) fn owner_add_of(value: &Value<'_>) -> Option<Message>
    ensures { result ≡ owner_add_of (view value.now) }
{
    let owner = name_at(value, "Owner")?;
    Some(Message::OwnerAdd { owner })
}

#[tactic(auto, unfolding(crate::specs::Bodies::gateway_add_of))]
pub(crate) fn gateway_add_of(value: &Value<'_>) -> Option<Message>
    ensures { result ≡ gateway_add_of (view value.now) }
{
    let gateway = name_at(value, "Gateway")?;
    Some(Message::GatewayAdd { gateway })
}

#[tactic(auto, unfolding(crate::specs::Bodies::device_add_of))]
pub(crate) fn device_add_of(value: &Value<'_>) -> Option<Message>
    ensures { result ≡ device_add_of (view value.now) }
{
    let dev_eui = eui_at(value, "DevEUI")?;
    let join_eui = eui_at(value, "JoinEUI")?;
    let owner = name_at(value, "Owner")?;
    Some(Message::DeviceAdd {
        dev_eui,
        join_eui,
        owner,
    })
}

#[tactic(auto, unfolding(crate::specs::Bodies::device_move_of))]
pub(crate) fn device_move_of(value: &Value<'_>) -> Option<Message>
    ensures { result ≡ device_move_of (view value.now) }
{
    let dev_eui = eui_at(value, "DevEUI")?;
    let owner = name_at(value, "Owner")?;
    Some(Message::DeviceMove { dev_eui, owner })
}

#[tactic(auto, unfolding(crate::specs::Bodies::join_heard_of))]
pub(crate) fn join_heard_of(value: &Value<'_>) -> Option<Message>
    ensures { result ≡ join_heard_of (view value.now) }
{
    let report = report_of(value)?;
    let verdict = join_verdict_at(value, "Verdict")?;
    Some(Message::JoinHeard { report, verdict })
}

#[tactic(auto, unfolding(crate::specs::Bodies::frame_heard_of))]
pub(crate) fn frame_heard_of(value: &Value<'_>) -> Option<Message>
    ensures { result ≡ frame_heard_of (view value.now) }
{
    let report = report_of(value)?;
    let verdict = u32_or_null_at(value, "Verdict")?;
    Some(Message::FrameHeard { report, verdict })
}

#[tactic(auto, unfolding(crate::specs::Bodies::down_book_of))]
pub(crate) fn down_book_of(value: &Value<'_>) -> Option<Message>
    ensures { result ≡ down_book_of (view value.now) }
{
    let uplink = json_integer_at(value, "Uplink")?;
    let gateway = name_at(value, "Gateway")?;
    let window = window_at(value, "Window")?;
    let octets = octets_at(value, "PHYPayload")?;
    Some(Message::DownBook {
        uplink,
        gateway,
        window,
        octets,
    })
}

#[tactic(auto, unfolding(crate::specs::Bodies::down_done_of))]
pub(crate) fn down_done_of(value: &Value<'_>) -> Option<Message>
    ensures { result ≡ down_done_of (view value.now) }
{
    let booking = json_integer_at(value, "Booking")?;
    let sent = boolean_at(value, "Sent")?;
    Some(Message::DownDone { booking, sent })
}

#[tactic(auto, unfolding(crate::specs::Bodies::limit_set_of))]
pub(crate) fn limit_set_of(value: &Value<'_>) -> Option<Message>
    ensures { result ≡ limit_set_of (view value.now) }
{
    let gateway = name_at(value, "Gateway")?;
    let band = band_at(value, "Band")?;
    let limit = limit_at(value, "Limit", band)?;
    Some(Message::LimitSet { gateway, limit })
}
