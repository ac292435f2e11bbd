//! A row whose key is taken isn't added.
use super::holding::holds;
use super::ready;
use super::stops::{deliveries, heard};
use desk_rows::{RowFault, insert_reception, reception_at};
use radio_core::Name;
use registry_core::JsonInteger;
use sqlite::{Alter, Connection};
use std::process::Abort;
use std::test::Fail;

/// The reception of the first uplink at a gateway is reported once more.
fn expect_one_reception<R: Abort, S: Alter + Drop>(
    rt: &R,
    conn: Connection<S>,
) -> Result<(), Fail> {
    let mut conn = ready(conn)?;
    let gateway = Name::new(b"gw-a").ok_or("no name")?;
    let first = JsonInteger::new(1).ok_or("no number")?;
    let Ok(Some(reception)) = reception_at(&mut conn, first, &gateway) else {
        return Err("no copy".into());
    };
    let mut tx = conn.transaction();
    let told = insert_reception(&mut tx, 1, &gateway, &reception);
    holds(rt, told == Err(RowFault::Refused), "the insertion");
    Ok(())
}

#[test]
fn a_gateway_has_one_reception_of_an_uplink(rt: HostRuntime) -> Result<(), Fail> {
    expect_one_reception(&rt, heard(&rt, &deliveries(rt.alloc())?)?)
}
