//! Gateway reports: the worked one three times, one that goes on after refusals, and one of a sender that nobody added.
use super::holding::holds;
use super::{Opened, Reopened, expect, with_device};
use desk_engine::{Imported, NoProgress, import};
use desk_store::Keeper;
use desk_tables::Tables;
use desk_wire::read_report;
use radio_core::Name;
use sqlite::MemStore;
use std::alloc::Global;
use std::process::Abort;
use std::test::Fail;

/// A join, a data frame and a copy of it.
pub(crate) const WORKED: &str =
    "transaction,type,gateway,time_us,freq_hz,dr,phy,verdict\n10,JoinHeard,gw-a,1706745600061696,868100000,5,00010000d07ed5b3703c2b1a000ba304000000a1b2c3d4,Good\n11,FrameHeard,gw-a,1706745700041216,868300000,5,400000a00100000011223344,0\n12,FrameHeard,gw-b,1706745700041220,868300000,5,400000a00100000011223344,0\n";

/// A used number with another message, a frame of an unknown gateway, a repeat, and a new frame.
const MIXED: &[u8] =
    b"transaction,type,gateway,time_us,freq_hz,dr,phy,verdict\n11,FrameHeard,gw-b,1706745700041216,868300000,5,400000a00100000011223344,0\n13,FrameHeard,gw-c,1706745700041216,868300000,5,400000a00100000011223344,0\n12,FrameHeard,gw-b,1706745700041220,868300000,5,400000a00100000011223344,0\n14,FrameHeard,gw-a,1706745800041216,868300000,5,400000a00100010011223344,1\n";

type Told = (u8, &'static str);

static WORKED_ANSWERS: [Told; 3] = [
    (
        0,
        r#"{"Airtime":61696,"Band":"B3","Copy":false,"DevAddr":"01a00000","MessageType":"JoinHeardAns","ProtocolVersion":"1.0","ReceiverID":"bridge","Result":{"Description":"","ResultCode":"Success"},"SenderID":"desk","TransactionID":10,"Uplink":1}"#,
    ),
    (
        0,
        r#"{"Airtime":41216,"Band":"B3","Copy":false,"Counter":0,"DevEUI":"0004a30b001a2b3c","MessageType":"FrameHeardAns","ProtocolVersion":"1.0","ReceiverID":"bridge","Result":{"Description":"","ResultCode":"Success"},"SenderID":"desk","TransactionID":11,"Uplink":2}"#,
    ),
    (
        0,
        r#"{"Airtime":41216,"Band":"B3","Copy":true,"Counter":0,"DevEUI":"0004a30b001a2b3c","MessageType":"FrameHeardAns","ProtocolVersion":"1.0","ReceiverID":"bridge","Result":{"Description":"","ResultCode":"Success"},"SenderID":"desk","TransactionID":12,"Uplink":2}"#,
    ),
];

static MIXED_ANSWERS: [Told; 4] = [
    (
        5,
        r#"{"MessageType":"FrameHeardAns","ProtocolVersion":"1.0","ReceiverID":"bridge","Result":{"Description":"transaction","ResultCode":"Other"},"SenderID":"desk","TransactionID":11}"#,
    ),
    (
        0,
        r#"{"MessageType":"FrameHeardAns","ProtocolVersion":"1.0","ReceiverID":"bridge","Result":{"Description":"gateway","ResultCode":"Other"},"SenderID":"desk","TransactionID":13}"#,
    ),
    (
        0,
        r#"{"Airtime":41216,"Band":"B3","Copy":true,"Counter":0,"DevEUI":"0004a30b001a2b3c","MessageType":"FrameHeardAns","ProtocolVersion":"1.0","ReceiverID":"bridge","Result":{"Description":"","ResultCode":"Success"},"SenderID":"desk","TransactionID":12,"Uplink":2}"#,
    ),
    (
        0,
        r#"{"Airtime":41216,"Band":"B3","Copy":false,"Counter":1,"DevEUI":"0004a30b001a2b3c","MessageType":"FrameHeardAns","ProtocolVersion":"1.0","ReceiverID":"bridge","Result":{"Description":"","ResultCode":"Success"},"SenderID":"desk","TransactionID":14,"Uplink":3}"#,
    ),
];

static STRANGERS_ANSWERS: [Told; 3] = [
    (
        4,
        r#"{"MessageType":"JoinHeardAns","ProtocolVersion":"1.0","ReceiverID":"stranger","Result":{"Description":"","ResultCode":"UnknownSender"},"SenderID":"desk","TransactionID":10}"#,
    ),
    (
        4,
        r#"{"MessageType":"FrameHeardAns","ProtocolVersion":"1.0","ReceiverID":"stranger","Result":{"Description":"","ResultCode":"UnknownSender"},"SenderID":"desk","TransactionID":11}"#,
    ),
    (
        4,
        r#"{"MessageType":"FrameHeardAns","ProtocolVersion":"1.0","ReceiverID":"stranger","Result":{"Description":"","ResultCode":"UnknownSender"},"SenderID":"desk","TransactionID":12}"#,
    ),
];

fn imported<K: Keeper>(
    alloc: Global,
    keeper: &mut K,
    text: &[u8],
    sender: &[u8],
) -> Result<Imported, Fail> {
    let sender = Name::new(sender).ok_or("no name")?;
    match read_report(alloc, text, &sender) {
        Ok(envelopes) => Ok(import(alloc, keeper, &envelopes, &NoProgress)),
        Err(_) => Err("no report".into()),
    }
}

/// The report is imported whole, and each answer is the one that is told.
fn expect_imported<R: Abort + AllocGlobal, K: Keeper>(
    rt: &R,
    keeper: &mut K,
    text: &[u8],
    sender: &[u8],
    wanted: &[Told],
) -> Result<(), Fail> {
    let imported = imported(rt.alloc(), keeper, text, sender)?;
    let is_whole = imported.stopped.is_none() && imported.answers.len() == wanted.len();
    holds(rt, is_whole, "that all is imported");
    for (outcome, (number, told)) in imported.answers.iter().zip(wanted) {
        expect(rt, "a record of the report", outcome, *number, told);
    }
    Ok(())
}

pub(super) fn reports_are_heard_in_order<R: Abort + AllocGlobal, K: Opened>(
    rt: &R,
) -> Result<(), Fail> {
    let mut keeper = with_device::<R, K>(rt)?;
    // a repeat that was kept anew would be answered otherwise by the third
    for _ in 0..3 {
        expect_imported(
            rt,
            &mut *keeper,
            WORKED.as_bytes(),
            b"bridge",
            &WORKED_ANSWERS,
        )?;
    }
    expect_imported(rt, &mut *keeper, MIXED, b"bridge", &MIXED_ANSWERS)?;
    expect_imported(rt, &mut *keeper, MIXED, b"bridge", &MIXED_ANSWERS)?;
    expect_imported(
        rt,
        &mut *keeper,
        WORKED.as_bytes(),
        b"stranger",
        &STRANGERS_ANSWERS,
    )
}

/// The worked report once more leaves each row of each table as it is.
fn rows_stay<R: Abort + AllocGlobal, K: Reopened>(rt: &R) -> Result<(), Fail> {
    let mut keeper = with_device::<R, K>(rt)?;
    let (report, answers) = (WORKED.as_bytes(), &WORKED_ANSWERS);
    expect_imported(rt, &mut *keeper, report, b"bridge", answers)?;
    let (rows, mut keeper) = K::reopened(rt.alloc(), keeper)?;
    expect_imported(rt, &mut *keeper, report, b"bridge", answers)?;
    let (again, _) = K::reopened(rt.alloc(), keeper)?;
    holds(rt, again == rows, "the rows");
    Ok(())
}

#[test]
fn a_second_import_changes_no_row(rt: HostRuntime) -> Result<(), Fail> {
    rows_stay::<HostRuntime, Tables<MemStore>>(&rt)
}
