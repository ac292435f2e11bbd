//! Reports over HTTP.
use super::responses::{
    BAD_MONTH, BAND_REPORT, EMPTY_REPORT, NO_GATEWAY, NO_OWNER, NO_ROOM, OWNER_REPORT, ROOM_AFTER,
    ROOM_OF_ONE, UNUSED_BANDS, UNUSED_ROOM,
};
use super::{expect, posted};
use crate::tests::holding::holds;
use crate::tests::opening;
use desk_http::{ServeEnd, serve_one};
use desk_store::{Keeper, Lists};
use std::alloc::Global;
use std::process::Abort;
use std::test::Fail;

/// A join, a data frame that two gateways heard, and a downlink after the join.
static TRAFFIC: [&str; 9] = [
    "{\"ProtocolVersion\":\"1.0\",\"SenderID\":\"office\",\"ReceiverID\":\"desk\",\"TransactionID\":1,\"MessageType\":\"OwnerAdd\",\"Owner\":\"town\"}",
    "{\"ProtocolVersion\":\"1.0\",\"SenderID\":\"office\",\"ReceiverID\":\"desk\",\"TransactionID\":2,\"MessageType\":\"OwnerAdd\",\"Owner\":\"port\"}",
    "{\"ProtocolVersion\":\"1.0\",\"SenderID\":\"office\",\"ReceiverID\":\"desk\",\"TransactionID\":3,\"MessageType\":\"GatewayAdd\",\"Gateway\":\"gw-a\"}",
    "{\"ProtocolVersion\":\"1.0\",\"SenderID\":\"office\",\"ReceiverID\":\"desk\",\"TransactionID\":4,\"MessageType\":\"GatewayAdd\",\"Gateway\":\"gw-b\"}",
    "{\"ProtocolVersion\":\"1.0\",\"SenderID\":\"office\",\"ReceiverID\":\"desk\",\"TransactionID\":5,\"MessageType\":\"DeviceAdd\",\"DevEUI\":\"0004a30b001a2b3c\",\"JoinEUI\":\"70b3d57ed0000001\",\"Owner\":\"town\"}",
    "{\"ProtocolVersion\":\"1.0\",\"SenderID\":\"office\",\"ReceiverID\":\"desk\",\"TransactionID\":10,\"MessageType\":\"JoinHeard\",\"Gateway\":\"gw-a\",\"Time\":1706745600061696,\"Freq\":868100000,\"DataRate\":5,\"PHYPayload\":\"00010000d07ed5b3703c2b1a000ba304000000a1b2c3d4\",\"Verdict\":\"Good\"}",
    "{\"ProtocolVersion\":\"1.0\",\"SenderID\":\"office\",\"ReceiverID\":\"desk\",\"TransactionID\":11,\"MessageType\":\"FrameHeard\",\"Gateway\":\"gw-a\",\"Time\":1706745700041216,\"Freq\":868300000,\"DataRate\":5,\"PHYPayload\":\"400000a00100000011223344\",\"Verdict\":0}",
    "{\"ProtocolVersion\":\"1.0\",\"SenderID\":\"office\",\"ReceiverID\":\"desk\",\"TransactionID\":12,\"MessageType\":\"FrameHeard\",\"Gateway\":\"gw-b\",\"Time\":1706745700041220,\"Freq\":868300000,\"DataRate\":5,\"PHYPayload\":\"400000a00100000011223344\",\"Verdict\":0}",
    "{\"ProtocolVersion\":\"1.0\",\"SenderID\":\"office\",\"ReceiverID\":\"desk\",\"TransactionID\":13,\"MessageType\":\"DownBook\",\"Uplink\":1,\"Gateway\":\"gw-a\",\"Window\":1,\"PHYPayload\":\"20000102030405060708090a0b0c0d0e0f\"}",
];

/// What a GET of the target is answered. Its length and what comes after the head aren't looked at.
fn expect_report<R: Abort + AllocGlobal, K: Keeper>(
    rt: &R,
    keeper: &mut K,
    target: &str,
    status: u16,
    response: &str,
) -> Result<(), Fail> {
    let input = format!(in rt.alloc(); "GET {target} HTTP/1.1\r\nContent-Length: x\r\n\r\nabc")?;
    expect(rt, keeper, input.as_bytes(), 3, status, response);
    Ok(())
}

/// A target, the status and the response of a GET of it.
pub(super) type ReportRow = (&'static str, u16, &'static str);

static BEFORE: [ReportRow; 8] = [
    ("/v1/reports/town/2024-13", 400, BAD_MONTH),
    ("/v1/reports/town/2024-02", 404, NO_OWNER),
    ("/v1/reports/to%20wn/2024-02", 404, NO_OWNER),
    ("/v1/bands/gw-z", 404, NO_GATEWAY),
    ("/v1/bands/gw-z?gw-a", 404, NO_GATEWAY),
    ("/v1/room/gw-z/946684799999999", 400, BAD_MONTH),
    ("/v1/room/gw-z/x", 400, BAD_MONTH),
    ("/v1/room/gw-z/1706745600000000", 404, NO_GATEWAY),
];

static AFTER: [ReportRow; 11] = [
    ("/v1/reports/town/2024-02", 200, OWNER_REPORT),
    ("/v1/reports/town/2024-02?x=/y", 200, OWNER_REPORT),
    ("/v1/reports/port/2024-02", 200, EMPTY_REPORT),
    ("/v1/reports/2024-02/town", 400, BAD_MONTH),
    ("/v1/bands/gw-a", 200, BAND_REPORT),
    ("/v1/bands/gw-b", 200, UNUSED_BANDS),
    ("/v1/bands/town", 404, NO_GATEWAY),
    // The downlink lasts 46,336 microseconds from 1,706,745,605,061,696 on.
    ("/v1/room/gw-a/1706745605061695", 200, ROOM_OF_ONE),
    ("/v1/room/gw-a/1706745605061696", 200, NO_ROOM),
    ("/v1/room/gw-a/1706745605108032", 200, ROOM_AFTER),
    ("/v1/room/gw-b/1706745605061696", 200, UNUSED_ROOM),
];

pub(super) fn expect_reports<R: Abort + AllocGlobal, K: Keeper>(
    rt: &R,
    keeper: &mut K,
    rows: &[ReportRow],
) -> Result<(), Fail> {
    for (target, status, response) in rows {
        expect_report(rt, keeper, target, *status, response)?;
    }
    Ok(())
}

/// How the desk ends a POST of the message.
fn ended(alloc: Global, lists: &mut Lists, message: &str) -> Result<ServeEnd, Fail> {
    let input = posted(alloc, message, "")?;
    let mut reader = input.as_bytes();
    let mut written = Vec::new(alloc);
    Ok(serve_one(alloc, lists, &mut reader, &mut written))
}

#[test]
fn reports_are_given(rt: HostRuntime) -> Result<(), Fail> {
    let mut lists = opening::<Lists>(rt.alloc(), 65_536)?;
    expect_reports(&rt, &mut *lists, &BEFORE)?;
    for message in &TRAFFIC {
        let end = ended(rt.alloc(), &mut *lists, message)?;
        holds(&rt, end == ServeEnd::Done(200), message);
    }
    expect_reports(&rt, &mut *lists, &AFTER)
}
