//! The commands on one file, one after another: each runs on what the one before left.
use super::{NETWORK, OneFile, Started};
use crate::endings::Ending;
use crate::program::run;
use crate::tests::holding::{holds_at, is_text_at};
use crate::tests::importing::WORKED;
use desk_engine::NoProgress;
use sqlite::{Alter, Connection};
use std::process::Abort;
use std::test::Fail;

/// The answers of the worked report if nobody has added its gateways.
const REPORT_ANSWERS: &str = "\
{\"MessageType\":\"JoinHeardAns\",\"ProtocolVersion\":\"1.0\",\"ReceiverID\":\"office\",\"Result\":{\"Description\":\"gateway\",\"ResultCode\":\"Other\"},\"SenderID\":\"desk\",\"TransactionID\":10}
{\"MessageType\":\"FrameHeardAns\",\"ProtocolVersion\":\"1.0\",\"ReceiverID\":\"office\",\"Result\":{\"Description\":\"gateway\",\"ResultCode\":\"Other\"},\"SenderID\":\"desk\",\"TransactionID\":11}
{\"MessageType\":\"FrameHeardAns\",\"ProtocolVersion\":\"1.0\",\"ReceiverID\":\"office\",\"Result\":{\"Description\":\"gateway\",\"ResultCode\":\"Other\"},\"SenderID\":\"desk\",\"TransactionID\":12}
";

const ADD_OWNER: &str =
    "{\"ProtocolVersion\":\"1.0\",\"SenderID\":\"office\",\"ReceiverID\":\"desk\",\"TransactionID\":1,\"MessageType\":\"OwnerAdd\",\"Owner\":\"town\"}\n";

const OWNER_ADDED: &str =
    "{\"MessageType\":\"OwnerAddAns\",\"ProtocolVersion\":\"1.0\",\"ReceiverID\":\"office\",\"Result\":{\"Description\":\"\",\"ResultCode\":\"Success\"},\"SenderID\":\"desk\",\"TransactionID\":1}\n";

const OWNER_HEADER: &str =
    "dev_eui,uplinks,b1_us,b1_peak_us,b2_us,b2_peak_us,b3_us,b3_peak_us,b4_us,b4_peak_us,b5_us,b5_peak_us,b6_us,b6_peak_us\n";

const DEVICE_HEADER: &str =
    "dev_eui,join_eui,owner,sessions,dev_addr,last_nonce,last_counter,next_downlink_counter,last_start_us\n";

/// The operator and an owner; the three records of the report that were refused, and the owner's message.
const HOLDS: &str = "\
schema: 2
receiver: desk
operator: office
base: 01a00000
addresses: 65536
senders: 1
owners: 1
gateways: 0
devices: 0
limits: 0
sessions: 0
uplinks: 0
bookings: 0
replies: 4
";

/// Arguments after the program's name, standard input, how the program ends, its standard output, and its standard error.
type Row = (
    &'static [&'static [u8]],
    &'static str,
    Ending,
    &'static str,
    &'static str,
);

static ROWS: [Row; 30] = [
    (
        &[b"desk", b"import", b"f.db", b"--sender", b"office"],
        WORKED,
        Ending::Refused,
        "",
        "desk: not a desk\n",
    ),
    (
        &[b"desk", b"audit", b"f.db"],
        "",
        Ending::Refused,
        "",
        "desk: not a desk\n",
    ),
    (&[b"desk", b"init", b"f.db"], "", Ending::Done, "", ""),
    (
        &[b"desk", b"init", b"f.db"],
        "",
        Ending::Refused,
        "",
        "desk: exists\n",
    ),
    (
        &[b"desk", b"migrate", b"f.db"],
        "",
        Ending::Refused,
        "",
        "desk: schema\n",
    ),
    (
        &[b"desk", b"import", b"f.db", b"--sender", b"office"],
        WORKED,
        Ending::Done,
        REPORT_ANSWERS,
        "",
    ),
    (
        &[b"desk", b"import", b"f.db", b"--sender", b"office"],
        WORKED,
        Ending::Done,
        REPORT_ANSWERS,
        "",
    ),
    (
        &[b"desk", b"report", b"f.db", b"town", b"2024-02"],
        "",
        Ending::Refused,
        "",
        "desk: owner\n",
    ),
    (
        &[b"desk", b"hear", b"f.db"],
        ADD_OWNER,
        Ending::Done,
        OWNER_ADDED,
        "",
    ),
    (
        &[b"desk", b"hear", b"f.db"],
        ADD_OWNER,
        Ending::Done,
        OWNER_ADDED,
        "",
    ),
    (
        &[b"desk", b"report", b"f.db", b"town", b"2024-13"],
        "",
        Ending::Refused,
        "",
        "desk: month\n",
    ),
    (
        &[b"desk", b"report", b"f.db", b"town", b"2024-02"],
        "",
        Ending::Done,
        OWNER_HEADER,
        "",
    ),
    (
        &[b"desk", b"bands", b"f.db", b"gw-a"],
        "",
        Ending::Refused,
        "",
        "desk: gateway\n",
    ),
    (
        &[b"desk", b"room", b"f.db", b"gw-a", b"2024-02"],
        "",
        Ending::Refused,
        "",
        "desk: time\n",
    ),
    (
        &[b"desk", b"room", b"f.db", b"gw-a", b"1706745600000000"],
        "",
        Ending::Refused,
        "",
        "desk: gateway\n",
    ),
    (
        &[b"desk", b"list", b"f.db", b"senders"],
        "",
        Ending::Done,
        "sender,role,last_transaction\noffice,operator,12\n",
        "",
    ),
    (
        &[b"desk", b"list", b"f.db", b"owners"],
        "",
        Ending::Done,
        "owner,devices\ntown,0\n",
        "",
    ),
    (
        &[b"desk", b"list", b"f.db", b"devices"],
        "",
        Ending::Done,
        DEVICE_HEADER,
        "",
    ),
    (
        &[b"desk", b"device", b"f.db", b"0004a30b001a2b3c"],
        "",
        Ending::Refused,
        "",
        "desk: device\n",
    ),
    (
        &[
            b"desk",
            b"receptions",
            b"f.db",
            b"0004a30b001a2b3c",
            b"2024-13",
        ],
        "",
        Ending::Refused,
        "",
        "desk: month\n",
    ),
    (
        &[
            b"desk",
            b"receptions",
            b"f.db",
            b"0004a30b001a2b3c",
            b"2024-02",
        ],
        "",
        Ending::Refused,
        "",
        "desk: device\n",
    ),
    (
        &[b"desk", b"downlinks", b"f.db", b"gw-a", b"2024-13"],
        "",
        Ending::Refused,
        "",
        "desk: month\n",
    ),
    (
        &[b"desk", b"downlinks", b"f.db", b"gw-a", b"2024-02"],
        "",
        Ending::Refused,
        "",
        "desk: gateway\n",
    ),
    // the worked report with a fourth record, cut after its fourth field
    (
        &[b"desk", b"import", b"f.db", b"--sender", b"office"],
        "transaction,type,gateway,time_us,freq_hz,dr,phy,verdict\n10,JoinHeard,gw-a,1706745600061696,868100000,5,00010000d07ed5b3703c2b1a000ba304000000a1b2c3d4,Good\n11,FrameHeard,gw-a,1706745700041216,868300000,5,400000a00100000011223344,0\n12,FrameHeard,gw-b,1706745700041220,868300000,5,400000a00100000011223344,0\n13,FrameHeard,gw-a,1706745700041216",
        Ending::Refused,
        "",
        "desk: csv end\n",
    ),
    (
        &[b"desk", b"import", b"f.db", b"--sender", b"office"],
        "transaction,type,gateway,time_us,freq_hz,dr,phy,verdict\n10,JoinHeard,gw-a,1706745600061696,868100000,5,00010000d07ed5b3703c2b1a000ba304000000a1b2c3d4,Good\n11,FrameHeard,gw-a,1706745700041216,868300000,5,400000a00100000011223344,0\n12,FrameHeard,gw-b,1706745700041220,868300000,5,400000a00100000011223344,0\n13,FrameHeard,gw-a,1706745700041216\n",
        Ending::Refused,
        "",
        "desk: csv record 5\n",
    ),
    (&[b"desk", b"check", b"f.db"], "", Ending::Done, HOLDS, ""),
    (
        &[b"desk", b"audit", b"f.db"],
        "",
        Ending::Done,
        "heard: 4\nin order\n",
        "",
    ),
    (
        &[b"desk", b"import", b"f.db", b"--sender", b"office"],
        "transaction\n",
        Ending::Refused,
        "",
        "desk: csv header\n",
    ),
    (
        &[
            b"desk", b"serve", b"f.db", b"--port", b"8080", b"--count", b"2",
        ],
        "",
        Ending::Failed,
        "listening 127.0.0.1:8080\n",
        "desk: network\n",
    ),
    (
        &[
            b"desk", b"serve", b"f.db", b"--port", b"8081", b"--count", b"2",
        ],
        "",
        Ending::Failed,
        "",
        "desk: network\n",
    ),
];

/// Runs the row in this place, on the connection that the row before gave back.
fn ends<R: Abort + AllocGlobal, S: Alter + Drop>(
    rt: &R,
    place: usize,
    row: &Row,
    conn: Connection<S>,
) -> Result<Connection<S>, Fail> {
    let (words, input, ending, answered, told) = row;
    let process = (Started { words: *words }, rt.alloc());
    let file = OneFile { conn: Some(conn) };
    let mut reader = input.as_bytes();
    let mut answers = Vec::new(rt.alloc());
    let mut faults = Vec::new(rt.alloc());
    let (end, conn, _) = run(
        &process,
        file,
        &NETWORK,
        &mut reader,
        &mut answers,
        &mut faults,
        &NoProgress,
    );
    holds_at(rt, end == *ending, place);
    is_text_at(rt, place, answered, answers.as_slice());
    is_text_at(rt, place, told, faults.as_slice());
    Ok(conn.ok_or("no connection")?)
}

/// Runs the rows in order.
fn all_end<R: Abort + AllocGlobal, S: Alter + Drop>(
    rt: &R,
    conn: Connection<S>,
) -> Result<(), Fail> {
    let mut conn = conn;
    for (place, row) in ROWS.iter().enumerate() {
        conn = ends(rt, place, row, conn)?;
    }
    Ok(())
}

#[test]
fn commands_on_one_file(rt: HostRuntime) -> Result<(), Fail> {
    all_end(&rt, Connection::open_in_memory(rt.alloc())?)
}
