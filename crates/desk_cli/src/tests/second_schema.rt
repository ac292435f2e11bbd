//! Tables that this program didn't make: by the statements of schema 2, filled row by row. They are opened, with the rows and the
//! answers of the desk that heard the messages. A data frame at DR7 is among them.
use super::data_frames::HEARD;
use super::downlinks::{DEVICE_EUI, UP_1};
use super::holding::holds;
use super::migrating::make_first_tables;
use super::rows::Exchange::Frames;
use super::rows::Told::Framed;
use super::rows::{Delivery, Exchange, Heard, delivery_of};
use super::stops::{all_deliveries, expect_found, rows_after, rows_in};
use sqlite::{Connection, MemStore, params};
use std::alloc::Global;
use std::test::Fail;

/// The statement that makes the table of limits, letter for letter: files have it. Schema 2 is schema 1 and this.
pub(crate) const LIMIT_TABLE: &str =
    "CREATE TABLE band_limit (gateway TEXT NOT NULL, band INTEGER NOT NULL, value INTEGER NOT NULL, PRIMARY KEY (gateway, band)) STRICT";

/// The rows of all tables but the replies.
#[rattlefmt::skip]
static ROWS: [&str; 18] = [
    "INSERT INTO meta VALUES (1, 2, 'desk', 'office', 27262976, 65536)",
    "INSERT INTO sender VALUES ('office', 0)",
    "INSERT INTO sender VALUES ('bridge', 1)",
    "INSERT INTO owner VALUES ('town')",
    "INSERT INTO owner VALUES ('city')",
    "INSERT INTO gateway VALUES ('gw-a')",
    "INSERT INTO gateway VALUES ('gw-b')",
    "INSERT INTO device VALUES (x'0004a30b001a2b3c', x'70b3d57ed0000001', 'city', 1)",
    "INSERT INTO session VALUES (1, x'0004a30b001a2b3c', 0, 0)",
    "INSERT INTO uplink VALUES (1, 1, 0, 0, x'00010000d07ed5b3703c2b1a000ba304000000a1b2c3d4', 1706745600000000, 61696, 3)",
    "INSERT INTO uplink VALUES (2, 1, 1, 0, x'400000a00100000011223344', 1706745700000000, 41216, 3)",
    "INSERT INTO uplink VALUES (3, 1, 1, 1, x'400000a00100010011223344', 1706745799996320, 3680, 4)",
    "INSERT INTO copy VALUES (1, 'gw-a', 1706745600061696, 868100000, 5)",
    "INSERT INTO copy VALUES (2, 'gw-a', 1706745700041216, 868300000, 5)",
    "INSERT INTO copy VALUES (2, 'gw-b', 1706745700041220, 868300000, 5)",
    "INSERT INTO copy VALUES (3, 'gw-a', 1706745800000000, 868800000, 7)",
    "INSERT INTO booking VALUES (1, 1, 'gw-a', 1, 0, 3, 1706745605061696, 46336, 2)",
    "INSERT INTO band_limit VALUES ('gw-a', 3, 18000000)",
];

/// The sender, the transaction number and the text of each message that was heard. Its number in order comes before them, and its
/// answer after them.
#[rattlefmt::skip]
static REPLIES: [(&str, i64, &str); 14] = [
    ("office", 1, r#"{"MessageType":"OwnerAdd","Owner":"town","ProtocolVersion":"1.0","ReceiverID":"desk","SenderID":"office","TransactionID":1}"#),
    ("office", 2, r#"{"MessageType":"SenderAdd","ProtocolVersion":"1.0","ReceiverID":"desk","Role":"radio","Sender":"bridge","SenderID":"office","TransactionID":2}"#),
    ("office", 3, r#"{"Gateway":"gw-a","MessageType":"GatewayAdd","ProtocolVersion":"1.0","ReceiverID":"desk","SenderID":"office","TransactionID":3}"#),
    ("office", 4, r#"{"Gateway":"gw-b","MessageType":"GatewayAdd","ProtocolVersion":"1.0","ReceiverID":"desk","SenderID":"office","TransactionID":4}"#),
    ("office", 5, r#"{"DevEUI":"0004a30b001a2b3c","JoinEUI":"70b3d57ed0000001","MessageType":"DeviceAdd","Owner":"town","ProtocolVersion":"1.0","ReceiverID":"desk","SenderID":"office","TransactionID":5}"#),
    ("bridge", 10, r#"{"DataRate":5,"Freq":868100000,"Gateway":"gw-a","MessageType":"JoinHeard","PHYPayload":"00010000d07ed5b3703c2b1a000ba304000000a1b2c3d4","ProtocolVersion":"1.0","ReceiverID":"desk","SenderID":"bridge","Time":1706745600061696,"TransactionID":10,"Verdict":"Good"}"#),
    ("bridge", 11, r#"{"DataRate":5,"Freq":868300000,"Gateway":"gw-a","MessageType":"FrameHeard","PHYPayload":"400000a00100000011223344","ProtocolVersion":"1.0","ReceiverID":"desk","SenderID":"bridge","Time":1706745700041216,"TransactionID":11,"Verdict":0}"#),
    ("bridge", 12, r#"{"DataRate":5,"Freq":868300000,"Gateway":"gw-b","MessageType":"FrameHeard","PHYPayload":"400000a00100000011223344","ProtocolVersion":"1.0","ReceiverID":"desk","SenderID":"bridge","Time":1706745700041220,"TransactionID":12,"Verdict":0}"#),
    ("bridge", 13, r#"{"Gateway":"gw-a","MessageType":"DownBook","PHYPayload":"20000102030405060708090a0b0c0d0e0f","ProtocolVersion":"1.0","ReceiverID":"desk","SenderID":"bridge","TransactionID":13,"Uplink":1,"Window":1}"#),
    ("bridge", 14, r#"{"Booking":1,"MessageType":"DownDone","ProtocolVersion":"1.0","ReceiverID":"desk","SenderID":"bridge","Sent":false,"TransactionID":14}"#),
    ("office", 6, r#"{"MessageType":"OwnerAdd","Owner":"city","ProtocolVersion":"1.0","ReceiverID":"desk","SenderID":"office","TransactionID":6}"#),
    ("office", 7, r#"{"DevEUI":"0004a30b001a2b3c","MessageType":"DeviceMove","Owner":"city","ProtocolVersion":"1.0","ReceiverID":"desk","SenderID":"office","TransactionID":7}"#),
    ("office", 8, r#"{"Band":"B3","Gateway":"gw-a","Limit":18000000,"MessageType":"LimitSet","ProtocolVersion":"1.0","ReceiverID":"desk","SenderID":"office","TransactionID":8}"#),
    ("bridge", 15, r#"{"DataRate":7,"Freq":868800000,"Gateway":"gw-a","MessageType":"FrameHeard","PHYPayload":"400000a00100010011223344","ProtocolVersion":"1.0","ReceiverID":"desk","SenderID":"bridge","Time":1706745800000000,"TransactionID":15,"Verdict":1}"#),
];

/// A frame at DR7, after messages of each type.
static FSK: [Exchange; 1] = [Frames(
    "bridge",
    15,
    Heard {
        time: 1_706_745_800_000_000,
        freq: 868_800_000,
        rate: 7,
        octets: UP_1,
        verdict: "1",
        ..HEARD
    },
    Framed(3_680, "B4", false, 1, DEVICE_EUI, 3),
)];

/// Messages of each type, and the frame.
fn with_fsk(alloc: Global) -> Result<Vec<Delivery>, Fail> {
    let mut deliveries = all_deliveries(alloc)?;
    for row in &FSK {
        deliveries.push(delivery_of(alloc, row)?)?;
    }
    Ok(deliveries)
}

/// Puts the replies into their table, each with the answer that its delivery is to have.
fn insert_replies(conn: &mut Connection<MemStore>, deliveries: &[Delivery]) -> Result<(), Fail> {
    let mut seq = 0_i64;
    for ((sender, number, message), delivery) in REPLIES.iter().zip(deliveries) {
        seq = seq.saturating_add(1);
        let (message, answer) = (message.as_bytes(), delivery.wanted.as_bytes());
        conn.execute(
            "INSERT INTO reply VALUES (?1, ?2, ?3, ?4, ?5)",
            params![seq, *sender, *number, message, answer],
        )?;
    }
    Ok(())
}

/// The tables, and all their rows.
fn filled(alloc: Global, deliveries: &[Delivery]) -> Result<Connection<MemStore>, Fail> {
    let mut conn = Connection::open_in_memory(alloc)?;
    make_first_tables(&mut conn)?;
    conn.execute_batch(LIMIT_TABLE)?;
    for statement in &ROWS {
        conn.execute_batch(statement)?;
    }
    insert_replies(&mut conn, deliveries)?;
    Ok(conn)
}

#[test]
fn tables_of_the_second_schema_are_opened(rt: HostRuntime) -> Result<(), Fail> {
    let deliveries = with_fsk(rt.alloc())?;
    let rows = rows_after(&rt, &deliveries)?;
    let conn = filled(rt.alloc(), &deliveries)?;
    let mut conn = expect_found(&rt, conn, &deliveries, &rows)?;
    // what was delivered again changed nothing
    holds(&rt, rows_in(rt.alloc(), &mut conn)? == rows, "the rows");
    Ok(())
}
