//! Lists over HTTP, one device, its receptions of a month, and a gateway's downlinks.
use super::expect;
use super::reports::{ReportRow, expect_reports};
use super::responses::{
    BAD_MONTH, DEVICES, DOWNLINKS, GATEWAYS, NEW_DEVICES, NEW_GATEWAYS, NEW_OWNERS, NEW_SENDERS,
    NO_DEVICE, NO_DOWNLINKS, NO_GATEWAY, NO_RECEPTIONS, NO_ROUTE, NOT_BY_POST, OWNERS, RECEPTIONS,
    SENDERS,
};
use crate::tests::stops::deliveries;
use crate::tests::{Opened, hear_each, opening};
use desk_store::Lists;
use desk_tables::Tables;
use sqlite::MemStore;
use std::process::Abort;
use std::test::Fail;

/// Of a new desk.
static NEW: [ReportRow; 9] = [
    ("/v1/senders", 200, NEW_SENDERS),
    ("/v1/owners", 200, NEW_OWNERS),
    ("/v1/gateways", 200, NEW_GATEWAYS),
    ("/v1/devices", 200, NEW_DEVICES),
    ("/v1/devices/0004a30b001a2b3c", 404, NO_DEVICE),
    ("/v1/receptions/0004a30b001a2b3c/2024-02", 404, NO_DEVICE),
    ("/v1/receptions/0004a30b001a2b3c/2024-13", 400, BAD_MONTH),
    ("/v1/downlinks/gw-a/2024-02", 404, NO_GATEWAY),
    ("/v1/downlinks/gw-a/2024-2", 400, BAD_MONTH),
];

/// After a join, a data frame at two gateways, and a downlink that answers the join.
static AFTER: [ReportRow; 34] = [
    ("/v1/senders", 200, SENDERS),
    ("/v1/senders?x=/y", 200, SENDERS),
    ("/v1/owners", 200, OWNERS),
    ("/v1/gateways", 200, GATEWAYS),
    ("/v1/devices", 200, DEVICES),
    ("/v1/devices?0004a30b001a2b3d", 200, DEVICES),
    ("/v1/devices/0004a30b001a2b3c", 200, DEVICES),
    ("/v1/devices/0004A30B001A2B3C", 200, DEVICES),
    ("/v1/devices/0004a30b001a2b3d", 404, NO_DEVICE),
    ("/v1/devices/0x0004a30b001a2b3c", 404, NO_DEVICE),
    ("/v1/devices/town", 404, NO_DEVICE),
    ("/v1/senders/", 404, NO_ROUTE),
    ("/v1/senders/office", 404, NO_ROUTE),
    ("/v1/devices/", 404, NO_ROUTE),
    ("/v1/devices//", 404, NO_ROUTE),
    ("/v1/devices/0004a30b001a2b3c/", 404, NO_ROUTE),
    ("/v1/device", 404, NO_ROUTE),
    ("/v1/receptions/0004a30b001a2b3c/2024-02", 200, RECEPTIONS),
    (
        "/v1/receptions/0004A30B001A2B3C/2024-02?x=/y",
        200,
        RECEPTIONS,
    ),
    (
        "/v1/receptions/0004a30b001a2b3c/2024-03",
        200,
        NO_RECEPTIONS,
    ),
    ("/v1/receptions/0004a30b001a2b3d/2024-02", 404, NO_DEVICE),
    ("/v1/receptions/0004a30b001a2b3d/2024-13", 400, BAD_MONTH),
    ("/v1/receptions/town/2024-02", 404, NO_DEVICE),
    ("/v1/receptions/2024-02/town", 400, BAD_MONTH),
    ("/v1/receptions/0004a30b001a2b3c", 404, NO_ROUTE),
    ("/v1/receptions/0004a30b001a2b3c/", 404, NO_ROUTE),
    ("/v1/receptions//2024-02", 404, NO_ROUTE),
    ("/v1/downlinks/gw-a/2024-02", 200, DOWNLINKS),
    ("/v1/downlinks/gw-b/2024-02", 200, NO_DOWNLINKS),
    ("/v1/downlinks/gw-a/2024-01", 200, NO_DOWNLINKS),
    ("/v1/downlinks/gw-z/2024-02", 404, NO_GATEWAY),
    ("/v1/downlinks/gw-z/2024-1", 400, BAD_MONTH),
    ("/v1/downlinks/gw-a/2024-02/", 404, NO_ROUTE),
    ("/v1/downlink/gw-a/2024-02", 404, NO_ROUTE),
];

/// By another method than GET.
static NOT_BY_GET: [&str; 8] = [
    "POST /v1/senders HTTP/1.1\r\nContent-Length: 1\r\n\r\n",
    "HEAD /v1/owners HTTP/1.1\r\n\r\n",
    "PUT /v1/gateways HTTP/1.1\r\n\r\n",
    "DELETE /v1/devices HTTP/1.1\r\n\r\n",
    "POST /v1/devices/0004a30b001a2b3c HTTP/1.1\r\n\r\n",
    "get /v1/devices/0004a30b001a2b3c HTTP/1.1\r\n\r\n",
    "POST /v1/receptions/0004a30b001a2b3c/2024-02 HTTP/1.1\r\n\r\n",
    "DELETE /v1/downlinks/gw-a/2024-02 HTTP/1.1\r\n\r\n",
];

/// What a desk with this kind of store answers.
fn are_given<R: Abort + AllocGlobal, K: Opened>(rt: &R) -> Result<(), Fail> {
    let mut keeper = opening::<K>(rt.alloc(), 65_536)?;
    expect_reports(rt, &mut *keeper, &NEW)?;
    let all = deliveries(rt.alloc())?;
    hear_each(rt, &mut *keeper, all.get(..9).ok_or("no messages")?);
    expect_reports(rt, &mut *keeper, &AFTER)?;
    for request in &NOT_BY_GET {
        expect(rt, &mut *keeper, request.as_bytes(), 0, 405, NOT_BY_POST);
    }
    Ok(())
}

#[test]
fn lists_are_given(rt: HostRuntime) -> Result<(), Fail> {
    are_given::<HostRuntime, Lists>(&rt)?;
    are_given::<HostRuntime, Tables<MemStore>>(&rt)
}
