//! A store that fails at one call while a report is asked for: the fault and no part of a report, and all is as it was.
use super::{FAILURES, MANY};
use crate::tests::fuses::rows_after_each;
use crate::tests::holding::{holds, holds_at};
use crate::tests::reports::{BANDS_BOOKED, OWNER_HEADER, WORKED_LINE, expect_wanted};
use crate::tests::requests::responses::{
    BAND_REPORT, DEVICES, DOWNLINKS, GATEWAYS, NINTH_OF_LOG, OWNER_REPORT, OWNERS, RECEPTIONS,
    SENDERS, UNAVAILABLE,
};
use crate::tests::stops::deliveries;
use crate::tests::switched::{Failure, Switched};
use crate::tests::{Reopened, hear_each, opening};
use desk_engine::{ReportFault, band_report, owner_report};
use desk_http::{ServeEnd, serve_one};
use desk_store::{Keeper, StoreFault};
use desk_tables::Tables;
use sqlite::MemStore;
use std::process::Abort;
use std::test::Fail;

/// A way to ask for a report or a part of the log.
#[derive(Clone, Copy)]
enum Asked {
    Owner,
    Bands,
    /// By a GET of this target, which has this response.
    Get(&'static str, &'static str),
}

static ASKED: [Asked; 12] = [
    Asked::Owner,
    Asked::Bands,
    Asked::Get(
        "GET /v1/reports/town/2024-02 HTTP/1.1\r\n\r\n",
        OWNER_REPORT,
    ),
    Asked::Get("GET /v1/bands/gw-a HTTP/1.1\r\n\r\n", BAND_REPORT),
    Asked::Get("GET /v1/log/9 HTTP/1.1\r\n\r\n", NINTH_OF_LOG),
    Asked::Get("GET /v1/senders HTTP/1.1\r\n\r\n", SENDERS),
    Asked::Get("GET /v1/owners HTTP/1.1\r\n\r\n", OWNERS),
    Asked::Get("GET /v1/gateways HTTP/1.1\r\n\r\n", GATEWAYS),
    Asked::Get("GET /v1/devices HTTP/1.1\r\n\r\n", DEVICES),
    Asked::Get("GET /v1/devices/0004a30b001a2b3c HTTP/1.1\r\n\r\n", DEVICES),
    Asked::Get(
        "GET /v1/receptions/0004a30b001a2b3c/2024-02 HTTP/1.1\r\n\r\n",
        RECEPTIONS,
    ),
    Asked::Get("GET /v1/downlinks/gw-a/2024-02 HTTP/1.1\r\n\r\n", DOWNLINKS),
];

/// Whether the report is there, as it is to be; if not, the store failed by this fault.
fn is_given<R: Abort + AllocGlobal, K: Keeper>(
    rt: &R,
    keeper: &mut K,
    asked: &Asked,
    fault: StoreFault,
) -> bool {
    match asked {
        Asked::Owner => {
            let report = owner_report(rt.alloc(), keeper, "town", "2024-02");
            is_report(rt, &report, OWNER_HEADER, WORKED_LINE, fault)
        }
        Asked::Bands => {
            let report = band_report(rt.alloc(), keeper, "gw-a");
            is_report(rt, &report, "", BANDS_BOOKED, fault)
        }
        Asked::Get(request, response) => is_response(rt, keeper, request, response),
    }
}

fn is_report(
    rt: &impl Abort,
    report: &Result<Vec<u8>, ReportFault>,
    header: &str,
    rest: &str,
    fault: StoreFault,
) -> bool {
    if report.is_ok() {
        expect_wanted(rt, "a report", report, header, &Ok(rest));
        return true;
    }
    let wanted = Err(ReportFault::Unavailable(fault));
    expect_wanted(rt, "a report", report, "", &wanted);
    false
}

fn is_response<R: Abort + AllocGlobal, K: Keeper>(
    rt: &R,
    keeper: &mut K,
    request: &str,
    response: &str,
) -> bool {
    let mut written = Vec::new(rt.alloc());
    let end = serve_one(rt.alloc(), keeper, &mut request.as_bytes(), &mut written);
    let is_given = end == ServeEnd::Done(200);
    holds(rt, is_given || end == ServeEnd::Done(503), request);
    let wanted = if is_given { response } else { UNAVAILABLE };
    holds(rt, written.as_slice() == wanted.as_bytes(), request);
    is_given
}

/// The call after this many fails, unless none did. Asked again of the store behind, once it is opened again, the report is there.
fn has_failed<R: Abort + AllocGlobal, K: Reopened>(
    rt: &R,
    store: Box<K>,
    asked: &Asked,
    failure: Failure,
    calls: u64,
    wanted: &String,
) -> Result<(bool, Box<K>), Fail> {
    let fault = failure.fault();
    let mut switched = Switched::new(store, failure, calls);
    let is_first = is_given(rt, &mut switched, asked, fault);
    holds_at(rt, is_first != switched.has_failed(), 0);
    let (rows, store) = K::reopened(rt.alloc(), switched.inner)?;
    holds_at(rt, rows == *wanted, 1);
    let mut store = store;
    holds_at(rt, is_given(rt, &mut *store, asked, fault), 2);
    Ok((!is_first, store))
}

/// Each call fails in turn, until none does.
fn each_fails<R: Abort + AllocGlobal, K: Reopened>(
    rt: &R,
    store: Box<K>,
    asked: &Asked,
    failure: Failure,
    rows: &String,
) -> Result<Box<K>, Fail> {
    let mut store = store;
    for calls in 0..MANY {
        let (fails, left) = has_failed(rt, store, asked, failure, calls, rows)?;
        if !fails {
            holds(rt, calls > 1, "that a call failed");
            return Ok(left);
        }
        store = left;
    }
    Err("it fails always".into())
}

/// A join, a data frame, its copy, and a downlink that is to be sent are heard before.
fn reports_fail_over<R: Abort + AllocGlobal, K: Reopened>(rt: &R) -> Result<(), Fail> {
    let all = deliveries(rt.alloc())?;
    let heard = all.get(..9).ok_or("no messages")?;
    let rows = rows_after_each(rt, heard)?;
    let rows = rows.last().ok_or("no rows")?;
    let mut store = opening::<K>(rt.alloc(), 65_536)?;
    hear_each(rt, &mut *store, heard);
    for asked in &ASKED {
        for failure in &FAILURES {
            store = each_fails(rt, store, asked, *failure, rows)?;
        }
    }
    Ok(())
}

#[test]
fn reports_fail(rt: HostRuntime) -> Result<(), Fail> {
    reports_fail_over::<HostRuntime, Tables<MemStore>>(&rt)
}
