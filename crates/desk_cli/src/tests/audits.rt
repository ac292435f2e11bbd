//! Audits: of what a desk wrote, and of what somebody changed in it.
use super::holding::holds;
use super::ready;
use super::stops::{all_deliveries, heard};
use crate::audit::{Finding, Place, Table, audited};
use desk_engine::NoProgress;
use std::process::Abort;
use std::test::Fail;

/// A change of a desk's database that has heard thirteen messages, and where the audit finds that it differs.
type Change = (&'static str, Table, u64);

#[rattlefmt::skip]
static CHANGES: [Change; 13] = [
    // The message of a reply is none, or its answer is another one.
    ("UPDATE reply SET message = x'7b' WHERE seq = 6", Table::Reply, 6),
    ("UPDATE reply SET answer = message WHERE seq = 13", Table::Reply, 13),
    // Its number isn't its place, or it is left out.
    ("UPDATE reply SET seq = 15 WHERE seq = 13", Table::Reply, 13),
    ("DELETE FROM reply WHERE seq = 3", Table::Reply, 3),
    ("UPDATE meta SET receiver = 'other'", Table::Reply, 1),
    ("UPDATE sender SET role = 0 WHERE name = 'bridge'", Table::Sender, 2),
    ("INSERT INTO owner (name) VALUES ('port')", Table::Owner, 3),
    ("UPDATE device SET floor = 2", Table::Device, 1),
    ("UPDATE session SET next_down = 1", Table::Session, 1),
    ("UPDATE uplink SET airtime = 1 WHERE number = 2", Table::Uplink, 2),
    ("DELETE FROM copy WHERE uplink = 1", Table::Copy, 1),
    ("UPDATE booking SET state = 0", Table::Booking, 1),
    ("DELETE FROM band_limit", Table::BandLimit, 1),
];

/// What an audit finds in the database of a desk that has heard all messages, after this statement.
fn found_after<R: Abort + AllocGlobal>(rt: &R, statement: &str) -> Result<Finding, Fail> {
    let mut conn = heard(rt, &all_deliveries(rt.alloc())?)?;
    conn.execute_batch(statement)?;
    let (found, conn) = audited(rt.alloc(), ready(conn)?, &NoProgress);
    holds(rt, conn.is_some(), statement);
    Ok(found.map_err(|_| "no finding")?)
}

#[test]
fn audits_name_the_first_place_that_differs(rt: HostRuntime) -> Result<(), Fail> {
    let found = found_after(&rt, "")?;
    holds(&rt, matches!(found, Finding::InOrder(13)), "in order");
    for (statement, table, row) in &CHANGES {
        let wanted = Place {
            table: *table,
            row: *row,
        };
        let is_named = match found_after(&rt, statement)? {
            Finding::Differs(place) => place == wanted,
            Finding::InOrder(_) => false,
        };
        holds(&rt, is_named, statement);
    }
    Ok(())
}
