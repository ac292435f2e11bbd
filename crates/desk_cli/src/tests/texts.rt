//! Messages are written in one way, whatever text they were read of: that one is kept.
use super::holding::is_text;
use super::rows::REQUEST;
use desk_wire::{read_message, write_message};
use radio_core::Name;
use std::process::Abort;
use std::test::Fail;

const OWNER: &str =
    r#"{"MessageType":"OwnerAdd","Owner":"town","ProtocolVersion":"1.0","ReceiverID":"desk","SenderID":"office","TransactionID":1}"#;

const DEVICE: &str =
    r#"{"DevEUI":"0004a30b001a2b3c","JoinEUI":"70b3d57ed0000001","MessageType":"DeviceAdd","Owner":"town","ProtocolVersion":"1.0","ReceiverID":"desk","SenderID":"office","TransactionID":1}"#;

const SHORT_JOIN: &str =
    r#"{"DataRate":5,"Freq":868100000,"Gateway":"gw-a","MessageType":"JoinHeard","PHYPayload":"00a1b2","ProtocolVersion":"1.0","ReceiverID":"desk","SenderID":"bridge","Time":1767225600000000,"TransactionID":10,"Verdict":"Good"}"#;

const WITHOUT_COUNTER: &str =
    r#"{"DataRate":5,"Freq":868100000,"Gateway":"gw-a","MessageType":"FrameHeard","PHYPayload":"400000a001000000a1b2c3d4","ProtocolVersion":"1.0","ReceiverID":"desk","SenderID":"bridge","Time":1767225600000000,"TransactionID":12,"Verdict":null}"#;

const LIMIT: &str =
    r#"{"Band":"B4","Gateway":"gw-a","Limit":991232,"MessageType":"LimitSet","ProtocolVersion":"1.0","ReceiverID":"desk","SenderID":"office","TransactionID":1}"#;

/// Texts that are written as they stand: of each type, and with the least and the greatest numbers.
static KEPT: [&str; 24] = [
    OWNER,
    DEVICE,
    SHORT_JOIN,
    WITHOUT_COUNTER,
    LIMIT,
    r#"{"MessageType":"SenderAdd","ProtocolVersion":"1.0","ReceiverID":"desk","Role":"radio","Sender":"bridge","SenderID":"office","TransactionID":0}"#,
    r#"{"MessageType":"SenderAdd","ProtocolVersion":"1.0","ReceiverID":"desk","Role":"operator","Sender":"bureau","SenderID":"office","TransactionID":4294967295}"#,
    r#"{"Gateway":"gw-a","MessageType":"GatewayAdd","ProtocolVersion":"1.0","ReceiverID":"desk","SenderID":"office","TransactionID":1}"#,
    r#"{"DevEUI":"0004a30b001a2b3c","MessageType":"DeviceMove","Owner":"city","ProtocolVersion":"1.0","ReceiverID":"desk","SenderID":"office","TransactionID":1}"#,
    r#"{"DataRate":5,"Freq":868100000,"Gateway":"gw-a","MessageType":"JoinHeard","PHYPayload":"00010000d07ed5b3703c2b1a000ba304000000a1b2c3d4","ProtocolVersion":"1.0","ReceiverID":"desk","SenderID":"bridge","Time":1767225600000000,"TransactionID":10,"Verdict":"Good"}"#,
    r#"{"DataRate":0,"Freq":0,"Gateway":"gw-a","MessageType":"JoinHeard","PHYPayload":"","ProtocolVersion":"1.0","ReceiverID":"desk","SenderID":"bridge","Time":0,"TransactionID":10,"Verdict":"Good"}"#,
    r#"{"DataRate":7,"Freq":4294967295,"Gateway":"gw-a","MessageType":"JoinHeard","PHYPayload":"","ProtocolVersion":"1.0","ReceiverID":"desk","SenderID":"bridge","Time":9007199254740991,"TransactionID":10,"Verdict":"Bad"}"#,
    r#"{"DataRate":5,"Freq":868100000,"Gateway":"gw-a","MessageType":"FrameHeard","PHYPayload":"400000a001000000a1b2c3d4","ProtocolVersion":"1.0","ReceiverID":"desk","SenderID":"bridge","Time":1767225600000000,"TransactionID":12,"Verdict":65536}"#,
    r#"{"DataRate":5,"Freq":868100000,"Gateway":"gw-a","MessageType":"FrameHeard","PHYPayload":"400000a001000000a1b2c3d4","ProtocolVersion":"1.0","ReceiverID":"desk","SenderID":"bridge","Time":1767225600000000,"TransactionID":12,"Verdict":4294967295}"#,
    r#"{"Gateway":"gw-a","MessageType":"DownBook","PHYPayload":"20000102030405060708090a0b0c0d0e0f","ProtocolVersion":"1.0","ReceiverID":"desk","SenderID":"bridge","TransactionID":13,"Uplink":1,"Window":1}"#,
    r#"{"Gateway":"gw-a","MessageType":"DownBook","PHYPayload":"","ProtocolVersion":"1.0","ReceiverID":"desk","SenderID":"bridge","TransactionID":13,"Uplink":9007199254740991,"Window":2}"#,
    r#"{"Booking":1,"MessageType":"DownDone","ProtocolVersion":"1.0","ReceiverID":"desk","SenderID":"bridge","Sent":true,"TransactionID":13}"#,
    r#"{"Booking":9007199254740991,"MessageType":"DownDone","ProtocolVersion":"1.0","ReceiverID":"desk","SenderID":"bridge","Sent":false,"TransactionID":13}"#,
    r#"{"Band":"B1","Gateway":"gw-a","Limit":3600000,"MessageType":"LimitSet","ProtocolVersion":"1.0","ReceiverID":"desk","SenderID":"office","TransactionID":1}"#,
    r#"{"Band":"B2","Gateway":"gw-a","Limit":36000000,"MessageType":"LimitSet","ProtocolVersion":"1.0","ReceiverID":"desk","SenderID":"office","TransactionID":1}"#,
    r#"{"Band":"B3","Gateway":"gw-a","Limit":0,"MessageType":"LimitSet","ProtocolVersion":"1.0","ReceiverID":"desk","SenderID":"office","TransactionID":1}"#,
    r#"{"Band":"B5","Gateway":"gw-a","Limit":360000000,"MessageType":"LimitSet","ProtocolVersion":"1.0","ReceiverID":"desk","SenderID":"office","TransactionID":1}"#,
    r#"{"Band":"B6","Gateway":"gw-a","Limit":3600001,"MessageType":"LimitSet","ProtocolVersion":"1.0","ReceiverID":"desk","SenderID":"office","TransactionID":1}"#,
    r#"{"MessageType":"OwnerAdd","Owner":"abcdefghijklmnopqrstuvwxyz-_.012","ProtocolVersion":"1.0","ReceiverID":"desk","SenderID":"office","TransactionID":1}"#,
];

/// Other texts, and how the message is written.
static OTHER: [(&str, &str); 9] = [
    (REQUEST, OWNER),
    (
        r#"{"X":[1],"Owner":"town","MessageType":"OwnerAdd","TransactionID":1,"ReceiverID":"desk","SenderID":"office","ProtocolVersion":"1.0"}"#,
        OWNER,
    ),
    (
        r#"{"Owner":"city","ProtocolVersion":"1.0","SenderID":"office","ReceiverID":"desk","TransactionID":1,"MessageType":"OwnerAdd","Owner":"town"}"#,
        OWNER,
    ),
    (
        r#" { "ProtocolVersion" : "1.0" , "SenderID":"\u006fffice","ReceiverID":"desk","Transaction\u0049D":1,"MessageType":"OwnerAdd","Owner":"town" } "#,
        OWNER,
    ),
    (
        r#"{"ProtocolVersion":"1.0","SenderID":"office","ReceiverID":"desk","TransactionID":1,"MessageType":"DeviceAdd","Owner":"town","JoinEUI":"0x70b3D57eD0000001","DevEUI":"0004A30B001A2B3C"}"#,
        DEVICE,
    ),
    (
        r#"{"ProtocolVersion":"1.0","SenderID":"bridge","ReceiverID":"desk","TransactionID":10,"MessageType":"JoinHeard","Verdict":"Good","Time":1767225600000000,"PHYPayload":"0x00A1B2","Gateway":"gw-a","Freq":868100000,"DataRate":5}"#,
        SHORT_JOIN,
    ),
    (
        r#"{"DataRate":5,"Freq":868100000,"Gateway":"gw-a","MessageType":"FrameHeard","PHYPayload":"400000a001000000a1b2c3d4","ProtocolVersion":"1.0","ReceiverID":"desk","SenderID":"bridge","Time":1767225600000000,"TransactionID":12}"#,
        WITHOUT_COUNTER,
    ),
    (
        r#"{"ProtocolVersion":"1.0","SenderID":"office","ReceiverID":"desk","TransactionID":1,"MessageType":"LimitSet","Gateway":"gw-a","Band":"B7","Band":"B4","Limit":3600001,"Limit":991232}"#,
        LIMIT,
    ),
    (
        r#"{"ProtocolVersion":"1.0","SenderID":"office","ReceiverID":"desk","TransactionID":1,"MessageType":"LimitSet","Limit":991232,"Band":"\u00424","Gateway":"gw-a","Owner":"town","X":[1]}"#,
        LIMIT,
    ),
];

fn expect_written<R: Abort + AllocGlobal>(rt: &R, text: &str, wanted: &str) -> Result<(), Fail> {
    let desk = Name::new(b"desk").ok_or("no name")?;
    let Ok(envelope) = read_message(rt.alloc(), text.as_bytes(), &desk) else {
        return Err("not read".into());
    };
    let written = write_message(rt.alloc(), &envelope, &desk)?;
    is_text(rt, text, wanted, written.as_slice());
    Ok(())
}

#[test]
fn kept_texts_are_written_as_they_stand(rt: HostRuntime) -> Result<(), Fail> {
    for text in &KEPT {
        expect_written(&rt, text, text)?;
    }
    Ok(())
}

#[test]
fn messages_are_written_in_one_way(rt: HostRuntime) -> Result<(), Fail> {
    for (text, wanted) in &OTHER {
        expect_written(&rt, text, wanted)?;
    }
    Ok(())
}
