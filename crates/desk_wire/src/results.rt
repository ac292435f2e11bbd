//! The ResultCode and the Description of each answer.
ghost use Rattle.std.specs.Prelude.{◌≡◌};
ghost use Rattle.desk_wire.specs.Results.{refusal_code, refusal_description, result_code, result_description};

use registry_core::{Answer, Refusal};

pub(crate) fn result_code(answer: &Answer) -> &'static str
    ensures { result.now ≡ result_code answer.now }
{
    match answer {
        Answer::Success
        | Answer::JoinSuccess { .. }
        | Answer::FrameSuccess { .. }
        | Answer::DownSuccess { .. } => "Success",
        Answer::Refused(refusal) => refusal_code(*refusal),
    }
}

pub(crate) fn result_description(answer: &Answer) -> &'static str
    ensures { result.now ≡ result_description answer.now }
{
    match answer {
        Answer::Success
        | Answer::JoinSuccess { .. }
        | Answer::FrameSuccess { .. }
        | Answer::DownSuccess { .. } => "",
        Answer::Refused(refusal) => refusal_description(*refusal),
    }
}

fn refusal_code(refusal: Refusal) -> &'static str
    ensures { result.now ≡ refusal_code refusal }
{
    match refusal {
        Refusal::InvalidProtocolVersion => "InvalidProtocolVersion",
        Refusal::UnknownReceiver => "UnknownReceiver",
        Refusal::UnknownSender => "UnknownSender",
        Refusal::UnknownDevEui => "UnknownDevEUI",
        Refusal::UnknownDevAddr => "UnknownDevAddr",
        Refusal::MicFailed => "MICFailed",
        Refusal::JoinEui | Refusal::Nonce => "JoinReqFailed",
        Refusal::Collision | Refusal::Duty | Refusal::Answered => "XmitFailed",
        _ => "Other",
    }
}

fn refusal_description(refusal: Refusal) -> &'static str
    ensures { result.now ≡ refusal_description refusal }
{
    match refusal {
        Refusal::Malformed => "malformed",
        Refusal::TransactionReused => "transaction",
        Refusal::WrongRole => "role",
        Refusal::BadBody => "body",
        Refusal::UnknownType => "type",
        Refusal::Exists => "exists",
        Refusal::UnknownOwner => "owner",
        Refusal::UnknownGateway => "gateway",
        Refusal::BadFrame => "frame",
        Refusal::OutOfBand => "band",
        Refusal::JoinEui => "joineui",
        Refusal::Nonce => "nonce",
        Refusal::Addresses => "addresses",
        Refusal::Replayed => "replayed",
        Refusal::Late => "late",
        Refusal::Gap => "gap",
        Refusal::SessionEnded => "session",
        Refusal::NoUplink => "uplink",
        Refusal::DownCounter => "fcntdown",
        Refusal::Collision => "collision",
        Refusal::Duty => "duty",
        Refusal::Answered => "answered",
        Refusal::NoBooking => "booking",
        Refusal::Done => "done",
        Refusal::Time => "time",
        _ => "",
    }
}
