//! Reads texts as envelopes.
ghost use Rattle.std.specs.Prelude.{◌≡◌};
ghost use Rattle.desk_wire.specs.steps.TreeData.{view};
ghost use Rattle.desk_wire.specs.Reading.{common_members_of, message_of, envelope_addressed, envelope_of, reads, Gives};

use crate::bodies::{
    device_add_of, device_move_of, down_book_of, down_done_of, frame_heard_of, gateway_add_of,
    join_heard_of, limit_set_of, owner_add_of, sender_add_of,
};
use crate::documents::value_of;
use crate::faults::WireFault;
use crate::heads::Head;
use crate::members::{name_at, text_at, type_name_at, u32_at};
use json::{Scratch, Value};
use radio_core::Name;
use registry_core::{Envelope, Message};
use std::alloc::Global;

/// The members that every message has: whether ProtocolVersion is `1.0`, ReceiverID, and the head.
#[derive(Clone, Copy)]
struct CommonMembers {
    is_current: bool,
    receiver: Name,
    head: Head,
}

/// Reads a text as an envelope for the receiver.
///
/// The text is a JSON object (RFC 8259) in UTF-8 that has the members of the envelope (LoRaWAN Backend Interfaces 1.0) and those of its
/// type, in this project's forms. Further members are ignored, and of equal ones the last counts.
///
/// | MessageType | Its members |
/// |---|---|
/// | SenderAdd | Sender: a name; Role: `operator` or `radio` |
/// | OwnerAdd | Owner: a name |
/// | GatewayAdd | Gateway: a name |
/// | DeviceAdd | DevEUI and JoinEUI: EUIs; Owner: a name |
/// | DeviceMove | DevEUI: an EUI; Owner: a name |
/// | JoinHeard | those of a report; Verdict: `Good` or `Bad` |
/// | FrameHeard | those of a report; Verdict: an integer below 2^32, or `null`, or not there, which is `null` |
/// | DownBook | Uplink: an integer below 2^53; Gateway: a name; Window: 1 or 2; PHYPayload: as in a report |
/// | DownDone | Booking: an integer below 2^53; Sent: `true` or `false` |
/// | LimitSet | Gateway: a name; Band: `B1` to `B6`; Limit: an integer, 0 to the band's own limit, in microseconds |
///
/// An EUI is a text of 16 hexadecimal digits, the most significant first, in either case, with or without `0x` before them. The members of
/// a report are Gateway: a name; Time: an integer below 2^53, in microseconds since 1970 UTC; Freq: an integer below 2^32, in hertz;
/// DataRate: an integer, 0 to 7; PHYPayload: a text of 0 to 510 hexadecimal digits, an even number of them, in either case, with or without
/// `0x` before them.
///
/// # Errors
///
/// Returns the first error of the text: refusals 1, 2, 3, 8 and 7 are checked in this order. Returns `Memory` if an allocation failed.
pub fn read_message(alloc: Global, text: &[u8], receiver: &Name) -> Result<Envelope, WireFault>
    ensures { Gives result (reads receiver.now text.now) }
{
    let mut scratch = Scratch::new(alloc);
    match value_of(alloc, text, &mut scratch) {
        Ok(Some(value)) => envelope_of(receiver, &value),
        Ok(None) => Err(WireFault::Malformed),
        Err(_) => Err(WireFault::Memory),
    }
}

fn envelope_of(receiver: &Name, value: &Value<'_>) -> Result<Envelope, WireFault>
    ensures { result
        ≡ envelope_of receiver.now (common_members_of (view value.now)) (view value.now) }
{
    match common_members_of(value) {
        Some(common) => envelope_addressed(receiver, common, value),
        None => Err(WireFault::Malformed),
    }
}

#[tactic(auto, unfolding(crate::specs::Reading::common_members_of))]
fn common_members_of(value: &Value<'_>) -> Option<CommonMembers>
    ensures { result ≡ common_members_of (view value.now) }
{
    let is_current = text_at(value, "ProtocolVersion")? == "1.0";
    let sender = name_at(value, "SenderID")?;
    let receiver = name_at(value, "ReceiverID")?;
    let transaction = u32_at(value, "TransactionID")?;
    let type_name = type_name_at(value, "MessageType")?;
    Some(CommonMembers {
        is_current,
        receiver,
        head: Head {
            sender,
            transaction,
            type_name,
        },
    })
}

#[tactic(auto, unfolding(crate::specs::Reading::envelope_addressed))]
fn envelope_addressed(
    receiver: &Name,
    common: CommonMembers,
    value: &Value<'_>,
) -> Result<Envelope, WireFault>
    ensures { result ≡ envelope_addressed receiver.now common (view value.now) }
{
    let head = common.head;
    if !common.is_current {
        return Err(WireFault::InvalidProtocolVersion(head));
    }
    if common.receiver.get() != receiver.get() {
        return Err(WireFault::UnknownReceiver(head));
    }
    Ok(Envelope {
        sender: head.sender,
        transaction: head.transaction,
        message: message_of(head, value)?,
    })
}

#[tactic(auto, unfolding(crate::specs::Reading::message_of))]
fn message_of(head: Head, value: &Value<'_>) -> Result<Message, WireFault>
    ensures { result ≡ message_of head (view value.now) }
{
    let message = match head.type_name.as_str() {
        "SenderAdd" => sender_add_of(value),
        "OwnerAdd" => owner_add_of(value),
        "GatewayAdd" => gateway_add_of(value),
        "DeviceAdd" => device_add_of(value),
        "DeviceMove" => device_move_of(value),
        "JoinHeard" => join_heard_of(value),
        "FrameHeard" => frame_heard_of(value),
        "DownBook" => down_book_of(value),
        "DownDone" => down_done_of(value),
        "LimitSet" => limit_set_of(value),
        _ => return Err(WireFault::UnknownType(head)),
    };
    message.ok_or(WireFault::BadBody(head))
}
