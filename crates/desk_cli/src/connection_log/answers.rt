//! What a response reports of its message.
ghost use Rattle.std.specs.Prelude.{◌≡◌, IfSome, codes};
ghost use Rattle.desk_wire.specs.Results.{refusal_code, refusal_description};

use desk_wire::{Head, TypeName};
use radio_core::Name;
use registry_core::Refusal;
use serde_json::Value;
use std::alloc::Global;
use std::str;

/// Returns the head of the message that a response answers, and why the message was refused. Neither if the response has no answer, or
/// there is no memory to read it.
pub(super) fn answer_in(alloc: Global, response: &[u8]) -> (Option<Head>, Option<Refusal>) {
    match value_in(alloc, response) {
        Some(answer) => (head_in(&answer), refusal_in(&answer)),
        None => (None, None),
    }
}

/// Returns the body of a response, if it is JSON.
fn value_in(alloc: Global, response: &[u8]) -> Option<Value> {
    let text = str::from_utf8(response).ok()?;
    let (_, body) = text.split_once("\r\n\r\n")?;
    Value::from_str(alloc, body).ok()
}

/// Returns what an answer repeats of its message.
fn head_in(answer: &Value) -> Option<Head> {
    let sender = Name::new(member_text(answer, "ReceiverID")?.as_bytes())?;
    let transaction = u32::try_from(answer.get("TransactionID")?.as_u64()?).ok()?;
    let type_name = member_text(answer, "MessageType")?.strip_suffix("Ans")?;
    let type_name = TypeName::new(type_name.as_bytes())?;
    Some(Head {
        sender,
        transaction,
        type_name,
    })
}

/// Returns why a message was refused.
fn refusal_in(answer: &Value) -> Option<Refusal> {
    let result = answer.get("Result")?;
    refusal_of(
        member_text(result, "ResultCode")?,
        member_text(result, "Description")?,
    )
}

fn member_text<'v>(value: &'v Value, member: &str) -> Option<&'v str> {
    value.get(member)?.as_str()
}

/// Returns the refusal with this ResultCode and description.
fn refusal_of(code: &str, description: &str) -> Option<Refusal>
    ensures code { IfSome result (λ refusal. refusal_code refusal ≡ code.now) }
    ensures description { IfSome result (λ refusal. refusal_description refusal ≡ description.now) }
{
    let refusal = match code {
        "Other" => return other_of(description),
        "InvalidProtocolVersion" => Refusal::InvalidProtocolVersion,
        "UnknownReceiver" => Refusal::UnknownReceiver,
        "UnknownSender" => Refusal::UnknownSender,
        "UnknownDevEUI" => Refusal::UnknownDevEui,
        "UnknownDevAddr" => Refusal::UnknownDevAddr,
        "MICFailed" => Refusal::MicFailed,
        "JoinReqFailed" => return join_failure_of(description),
        "XmitFailed" => return transmission_failure_of(description),
        _ => return None,
    };
    if description.is_empty() {
        Some(refusal)
    } else {
        None
    }
}

/// Returns the refusal with the ResultCode `JoinReqFailed` and this description.
fn join_failure_of(description: &str) -> Option<Refusal>
    ensures code { IfSome result (λ refusal. refusal_code refusal ≡ codes "JoinReqFailed") }
    ensures description { IfSome result (λ refusal. refusal_description refusal ≡ description.now) }
{
    match description {
        "joineui" => Some(Refusal::JoinEui),
        "nonce" => Some(Refusal::Nonce),
        _ => None,
    }
}

/// Returns the refusal with the ResultCode `XmitFailed` and this description.
fn transmission_failure_of(description: &str) -> Option<Refusal>
    ensures code { IfSome result (λ refusal. refusal_code refusal ≡ codes "XmitFailed") }
    ensures description { IfSome result (λ refusal. refusal_description refusal ≡ description.now) }
{
    match description {
        "collision" => Some(Refusal::Collision),
        "duty" => Some(Refusal::Duty),
        "answered" => Some(Refusal::Answered),
        _ => None,
    }
}

/// Returns the refusal with the ResultCode `Other` and this description.
fn other_of(description: &str) -> Option<Refusal>
    ensures code { IfSome result (λ refusal. refusal_code refusal ≡ codes "Other") }
    ensures description { IfSome result (λ refusal. refusal_description refusal ≡ description.now) }
{
    match description {
        "malformed" => Some(Refusal::Malformed),
        "transaction" => Some(Refusal::TransactionReused),
        "role" => Some(Refusal::WrongRole),
        "body" => Some(Refusal::BadBody),
        "type" => Some(Refusal::UnknownType),
        "exists" => Some(Refusal::Exists),
        "owner" => Some(Refusal::UnknownOwner),
        "gateway" => Some(Refusal::UnknownGateway),
        "frame" => Some(Refusal::BadFrame),
        "band" => Some(Refusal::OutOfBand),
        "addresses" => Some(Refusal::Addresses),
        "replayed" => Some(Refusal::Replayed),
        "late" => Some(Refusal::Late),
        "gap" => Some(Refusal::Gap),
        "session" => Some(Refusal::SessionEnded),
        "uplink" => Some(Refusal::NoUplink),
        "fcntdown" => Some(Refusal::DownCounter),
        "booking" => Some(Refusal::NoBooking),
        "done" => Some(Refusal::Done),
        "time" => Some(Refusal::Time),
        _ => None,
    }
}
