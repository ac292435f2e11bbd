//! Writes answers and refusals as texts: compact JSON, with the members in byte order of their names.
ghost use Rattle.std.specs.Prelude.{◌≡◌, IfOk, OnOk, option_map};
ghost use Rattle.json.specs.Tree.{json_tokens};
ghost use Rattle.serde_json.specs.Written.{outline};
ghost use Rattle.registry_core.specs.declared.answers.Answer.TheVariants.{Success, JoinSuccess, FrameSuccess, DownSuccess, Refused};
ghost use Rattle.desk_wire.specs.Answers.{head_of_envelope, plain_answer_value, answer_value, headless_value, refusal_value, answer_text, refusal_text};
ghost use Rattle.desk_wire.specs.steps.Texts.{then_airtime, then_head_and_result, then_result};

use crate::bands::band_name;
use crate::heads::{Head, head_of};
use crate::objects::ObjectText;
use crate::results::{result_code, result_description};
use radio_core::{Band, DevAddr, Eui, Name};
use registry_core::{Answer, Envelope, Refusal};
use std::alloc::{AllocError, Global};

/// Writes the text of the receiver's answer to an envelope: the members of the envelope, with its sender as ReceiverID and `Ans` after the
/// MessageType, and Result with ResultCode and Description (LoRaWAN Backend Interfaces 1.0).
///
/// A successful join adds Airtime in microseconds, Band, Copy, DevAddr and Uplink. A data frame adds Airtime, Band, Copy, Counter, DevEUI
/// and Uplink. A downlink adds Airtime, Band, Booking and Start in microseconds since 1970 UTC. These members are this project's.
///
/// # Errors
///
/// Returns `AllocError` if an allocation failed.
#[tactic(auto, using(crate::proofs::Printed::printed), unfolding(crate::specs::Answers::answer_text))]
pub fn write_answer(
    alloc: Global,
    envelope: &Envelope,
    receiver: &Name,
    answer: &Answer,
) -> Result<Vec<u8>, AllocError>
    ensures { IfOk result (λ text. text.items
        ≡ answer_text receiver.now (head_of_envelope envelope.now) answer.now) }
{
    let out = answer_object(alloc, &head_of(envelope), receiver, answer)?;
    Ok(out.into_text())
}

/// Writes the text of the receiver's refusal of a request. With a head it has all members of the envelope, and without one only
/// ProtocolVersion, Result and SenderID. Refusals 32 to 34 have no text in the protocol: for them it writes the ResultCode `Other` and an
/// empty Description.
///
/// # Errors
///
/// Returns `AllocError` if an allocation failed.
#[tactic(auto, using(crate::proofs::Printed::printed), unfolding(crate::specs::Answers::refusal_text))]
pub fn write_refusal(
    alloc: Global,
    refusal: Refusal,
    head: Option<&Head>,
    receiver: &Name,
) -> Result<Vec<u8>, AllocError>
    ensures { IfOk result (λ text. text.items
        ≡ refusal_text receiver.now (option_map (λ h. h.now) head.entry) refusal) }
{
    let out = refusal_object(alloc, refusal, head, receiver)?;
    Ok(out.into_text())
}

fn refusal_object(
    alloc: Global,
    refusal: Refusal,
    head: Option<&Head>,
    receiver: &Name,
) -> Result<ObjectText, AllocError>
    ensures { IfOk result (λ out. out ≡ json_tokens (outline (refusal_value receiver.now
        (option_map (λ h. h.now) head.entry) refusal))) }
{
    let answer = Answer::Refused(refusal);
    match head {
        Some(head) => answer_object(alloc, head, receiver, &answer),
        None => headless_object(alloc, receiver, &answer),
    }
}

fn answer_object(
    alloc: Global,
    head: &Head,
    receiver: &Name,
    answer: &Answer,
) -> Result<ObjectText, AllocError>
    ensures { IfOk result (λ out. out
        ≡ json_tokens (outline (answer_value receiver.now head.now answer.now))) }
{
    match answer {
        Answer::JoinSuccess {
            airtime,
            band,
            copy,
            addr,
            uplink,
        } => join_success(
            alloc, head, receiver, *airtime, *band, *copy, *addr, *uplink,
        ),
        Answer::FrameSuccess {
            airtime,
            band,
            copy,
            counter,
            dev_eui,
            uplink,
        } => frame_success(
            alloc, head, receiver, *airtime, *band, *copy, *counter, *dev_eui, *uplink,
        ),
        Answer::DownSuccess {
            airtime,
            band,
            booking,
            start,
        } => down_success(alloc, head, receiver, *airtime, *band, *booking, *start),
        Answer::Success | Answer::Refused(_) => plain_answer(alloc, head, receiver, answer),
    }
}

#[tactic(auto, unfolding(crate::proofs::Printed::whole_texts))]
fn plain_answer(
    alloc: Global,
    head: &Head,
    receiver: &Name,
    answer: &Answer,
) -> Result<ObjectText, AllocError>
    ensures { IfOk result (λ out. out
        ≡ json_tokens (outline (plain_answer_value receiver.now head.now answer.now))) }
{
    let mut out = ObjectText::new(alloc)?;
    write_head_and_result(
        alloc,
        &mut out,
        head,
        receiver,
        result_code(answer),
        result_description(answer),
    )?;
    out.number("TransactionID", u64::from(head.transaction))?;
    out.end()?;
    Ok(out)
}

#[tactic(auto, unfolding(crate::proofs::Printed::whole_texts))]
fn join_success(
    alloc: Global,
    head: &Head,
    receiver: &Name,
    airtime: u32,
    band: Band,
    copy: bool,
    addr: DevAddr,
    uplink: u64,
) -> Result<ObjectText, AllocError>
    ensures { IfOk result (λ out. out ≡ json_tokens (outline (answer_value receiver.now head.now
        (JoinSuccess airtime band copy addr uplink)))) }
{
    let mut out = ObjectText::new(alloc)?;
    write_airtime(&mut out, airtime, band)?;
    out.boolean("Copy", copy)?;
    out.addr(alloc, "DevAddr", addr)?;
    write_head_and_result(alloc, &mut out, head, receiver, "Success", "")?;
    out.number("TransactionID", u64::from(head.transaction))?;
    out.number("Uplink", uplink)?;
    out.end()?;
    Ok(out)
}

#[tactic(auto, unfolding(crate::proofs::Printed::whole_texts))]
fn frame_success(
    alloc: Global,
    head: &Head,
    receiver: &Name,
    airtime: u32,
    band: Band,
    copy: bool,
    counter: u32,
    dev_eui: Eui,
    uplink: u64,
) -> Result<ObjectText, AllocError>
    ensures { IfOk result (λ out. out ≡ json_tokens (outline (answer_value receiver.now head.now
        (FrameSuccess airtime band copy counter dev_eui uplink)))) }
{
    let mut out = ObjectText::new(alloc)?;
    write_airtime(&mut out, airtime, band)?;
    out.boolean("Copy", copy)?;
    out.number("Counter", u64::from(counter))?;
    out.eui(alloc, "DevEUI", dev_eui)?;
    write_head_and_result(alloc, &mut out, head, receiver, "Success", "")?;
    out.number("TransactionID", u64::from(head.transaction))?;
    out.number("Uplink", uplink)?;
    out.end()?;
    Ok(out)
}

#[tactic(auto, unfolding(crate::proofs::Printed::whole_texts))]
fn down_success(
    alloc: Global,
    head: &Head,
    receiver: &Name,
    airtime: u32,
    band: Band,
    booking: u64,
    start: u64,
) -> Result<ObjectText, AllocError>
    ensures { IfOk result (λ out. out ≡ json_tokens (outline (answer_value receiver.now head.now
        (DownSuccess airtime band booking start)))) }
{
    let mut out = ObjectText::new(alloc)?;
    write_airtime(&mut out, airtime, band)?;
    out.number("Booking", booking)?;
    write_head_and_result(alloc, &mut out, head, receiver, "Success", "")?;
    out.number("Start", start)?;
    out.number("TransactionID", u64::from(head.transaction))?;
    out.end()?;
    Ok(out)
}

#[tactic(auto, unfolding(crate::proofs::Printed::whole_texts))]
fn headless_object(
    alloc: Global,
    receiver: &Name,
    answer: &Answer,
) -> Result<ObjectText, AllocError>
    ensures { IfOk result (λ out. out
        ≡ json_tokens (outline (headless_value receiver.now answer.now))) }
{
    let mut out = ObjectText::new(alloc)?;
    out.text("ProtocolVersion", "1.0")?;
    write_result(&mut out, result_code(answer), result_description(answer))?;
    out.text("SenderID", receiver.as_str())?;
    out.end()?;
    Ok(out)
}

/// Writes Airtime and Band, the first members of the answer to a frame on the air.
fn write_airtime(out: &mut ObjectText, airtime: u32, band: Band) -> Result<(), AllocError>
    ensures { OnOk result (out.new ≡ then_airtime out.old airtime band) }
{
    out.number("Airtime", u64::from(airtime))?;
    out.text("Band", band_name(band))
}

/// Writes MessageType, ProtocolVersion, ReceiverID, Result and SenderID, which follow one another in every answer with a head.
fn write_head_and_result(
    alloc: Global,
    out: &mut ObjectText,
    head: &Head,
    receiver: &Name,
    code: &str,
    description: &str,
) -> Result<(), AllocError>
    ensures { OnOk result (out.new
        ≡ then_head_and_result out.old head.now receiver.now code.now description.now) }
{
    let request = head.type_name.as_str();
    let type_name = format!(in alloc; "{request}Ans")?;
    out.text("MessageType", type_name.as_str())?;
    out.version_and_receiver(&head.sender)?;
    write_result(out, code, description)?;
    out.text("SenderID", receiver.as_str())
}

fn write_result(out: &mut ObjectText, code: &str, description: &str) -> Result<(), AllocError>
    ensures { OnOk result (out.new ≡ then_result out.old code.now description.now) }
{
    out.begin("Result")?;
    out.text("Description", description)?;
    out.text("ResultCode", code)?;
    out.end()
}
