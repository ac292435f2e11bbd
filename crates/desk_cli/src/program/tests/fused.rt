//! Commands on a desk's file: one of its two files fails after each number of calls.
use super::{OneFile, ran};
use crate::endings::Ending;
use crate::tests::filling::files_that_fill;
use crate::tests::fuses::{Step, empty, fused, in_files};
use crate::tests::holding::{holds, holds_at, is_text};
use crate::tests::importing::WORKED;
use crate::tests::rows::Delivery;
use crate::tests::stops::deliveries;
use crate::tests::{config, made, told_each};
use sqlite::{Alter, Connection, Files};
use sqlite_disk::Memory;
use std::cell::Cell;
use std::process::Abort;
use std::test::Fail;

const ADD_OWNER: &str =
    "{\"ProtocolVersion\":\"1.0\",\"SenderID\":\"office\",\"ReceiverID\":\"desk\",\"TransactionID\":9,\"MessageType\":\"OwnerAdd\",\"Owner\":\"port\"}\n";

const OWNER_ADDED: &str =
    "{\"MessageType\":\"OwnerAddAns\",\"ProtocolVersion\":\"1.0\",\"ReceiverID\":\"office\",\"Result\":{\"Description\":\"\",\"ResultCode\":\"Success\"},\"SenderID\":\"desk\",\"TransactionID\":9}\n";

const REPORT_ANSWERS: &str = "\
{\"Airtime\":61696,\"Band\":\"B3\",\"Copy\":false,\"DevAddr\":\"01a00000\",\"MessageType\":\"JoinHeardAns\",\"ProtocolVersion\":\"1.0\",\"ReceiverID\":\"bridge\",\"Result\":{\"Description\":\"\",\"ResultCode\":\"Success\"},\"SenderID\":\"desk\",\"TransactionID\":10,\"Uplink\":1}
{\"Airtime\":41216,\"Band\":\"B3\",\"Copy\":false,\"Counter\":0,\"DevEUI\":\"0004a30b001a2b3c\",\"MessageType\":\"FrameHeardAns\",\"ProtocolVersion\":\"1.0\",\"ReceiverID\":\"bridge\",\"Result\":{\"Description\":\"\",\"ResultCode\":\"Success\"},\"SenderID\":\"desk\",\"TransactionID\":11,\"Uplink\":2}
{\"Airtime\":41216,\"Band\":\"B3\",\"Copy\":true,\"Counter\":0,\"DevEUI\":\"0004a30b001a2b3c\",\"MessageType\":\"FrameHeardAns\",\"ProtocolVersion\":\"1.0\",\"ReceiverID\":\"bridge\",\"Result\":{\"Description\":\"\",\"ResultCode\":\"Success\"},\"SenderID\":\"desk\",\"TransactionID\":12,\"Uplink\":2}
";

const MONTH: &str = "\
dev_eui,uplinks,b1_us,b1_peak_us,b2_us,b2_peak_us,b3_us,b3_peak_us,b4_us,b4_peak_us,b5_us,b5_peak_us,b6_us,b6_peak_us
0004a30b001a2b3c,0,0,0,0,0,0,0,0,0,0,0,0,0
";

const BANDS: &str =
    "band,limit_us,bookings,booked_us,peak_us\nB1,3600000,0,0,0\nB2,36000000,0,0,0\nB3,36000000,0,0,0\nB4,3600000,0,0,0\nB5,360000000,0,0,0\nB6,36000000,0,0,0\n";

const ROOM: &str =
    "band,limit_us,used_us,room_us\nB1,3600000,0,3000000\nB2,36000000,0,3000000\nB3,36000000,0,3000000\nB4,3600000,0,3000000\nB5,360000000,0,3000000\nB6,36000000,0,3000000\n";

const DEVICES: &str = "\
dev_eui,join_eui,owner,sessions,dev_addr,last_nonce,last_counter,next_downlink_counter,last_start_us
0004a30b001a2b3c,70b3d57ed0000001,town,0,,,,,
";

const HOLDS: &str = "\
schema: 2
receiver: desk
operator: office
base: 01a00000
addresses: 65536
senders: 2
owners: 1
gateways: 2
devices: 1
limits: 0
sessions: 0
uplinks: 0
bookings: 0
replies: 5
";

const LOG: &str = "\
{\"MessageType\":\"OwnerAdd\",\"Owner\":\"town\",\"ProtocolVersion\":\"1.0\",\"ReceiverID\":\"desk\",\"SenderID\":\"office\",\"TransactionID\":1}
{\"MessageType\":\"SenderAdd\",\"ProtocolVersion\":\"1.0\",\"ReceiverID\":\"desk\",\"Role\":\"radio\",\"Sender\":\"bridge\",\"SenderID\":\"office\",\"TransactionID\":2}
{\"Gateway\":\"gw-a\",\"MessageType\":\"GatewayAdd\",\"ProtocolVersion\":\"1.0\",\"ReceiverID\":\"desk\",\"SenderID\":\"office\",\"TransactionID\":3}
{\"Gateway\":\"gw-b\",\"MessageType\":\"GatewayAdd\",\"ProtocolVersion\":\"1.0\",\"ReceiverID\":\"desk\",\"SenderID\":\"office\",\"TransactionID\":4}
{\"DevEUI\":\"0004a30b001a2b3c\",\"JoinEUI\":\"70b3d57ed0000001\",\"MessageType\":\"DeviceAdd\",\"Owner\":\"town\",\"ProtocolVersion\":\"1.0\",\"ReceiverID\":\"desk\",\"SenderID\":\"office\",\"TransactionID\":5}
";

/// Arguments, standard input, and standard output if nothing fails.
pub(super) type FusedRow = (&'static [&'static [u8]], &'static str, &'static str);

pub(super) static ROWS: [FusedRow; 10] = [
    (&[b"desk", b"hear", b"f.db"], ADD_OWNER, OWNER_ADDED),
    (
        &[b"desk", b"import", b"f.db", b"--sender", b"bridge"],
        WORKED,
        REPORT_ANSWERS,
    ),
    (
        &[b"desk", b"report", b"f.db", b"town", b"2024-02"],
        "",
        MONTH,
    ),
    (&[b"desk", b"bands", b"f.db", b"gw-a"], "", BANDS),
    (
        &[b"desk", b"room", b"f.db", b"gw-a", b"1706745601061696"],
        "",
        ROOM,
    ),
    (&[b"desk", b"list", b"f.db", b"devices"], "", DEVICES),
    (
        &[
            b"desk",
            b"receptions",
            b"f.db",
            b"0004a30b001a2b3c",
            b"2024-02",
        ],
        "",
        "uplink,session,kind,counter,gateway,end_us,freq_hz,dr,start_us,airtime_us,band,phy\n",
    ),
    (
        &[b"desk", b"downlinks", b"f.db", b"gw-b", b"2024-02"],
        "",
        "booking,uplink,kind,band,start_us,airtime_us,state\n",
    ),
    (&[b"desk", b"log", b"f.db"], "", LOG),
    (&[b"desk", b"check", b"f.db"], "", HOLDS),
];

/// Makes a desk, which hears the messages.
#[derive(Drop)]
struct Hears<'a> {
    deliveries: &'a [Delivery],
}

impl Step for Hears<'_> {
    fn take<R: Abort + AllocGlobal, S: Alter + Drop>(
        &mut self,
        rt: &R,
        conn: Connection<S>,
    ) -> Result<Connection<S>, Fail> {
        let config = config(65_536).ok_or("no configuration")?;
        let tables = made(rt.alloc(), conn, config)?;
        Ok(told_each(rt, tables, self.deliveries))
    }
}

/// Runs the command. It does what is asked of it, or ends because the disk failed: then the lines before are answered, and nothing more.
#[derive(Drop)]
struct Runs<'a> {
    row: &'a FusedRow,
    has_failed: bool,
}

impl Step for Runs<'_> {
    fn take<R: Abort + AllocGlobal, S: Alter + Drop>(
        &mut self,
        rt: &R,
        conn: Connection<S>,
    ) -> Result<Connection<S>, Fail> {
        let (words, input, wanted) = self.row;
        let file = OneFile { conn: Some(conn) };
        let mut answers = Vec::new(rt.alloc());
        let (ending, faults, conn) = ran(rt, words, file, &mut input.as_bytes(), &mut answers);
        self.has_failed = ending != Ending::Done;
        if self.has_failed {
            holds(rt, ending == Ending::Failed, "the ending");
            let is_right = faults.as_slice() == b"desk: unavailable\n".as_slice();
            holds(rt, is_right, "standard error");
            let are_whole = answers.is_empty() || answers.ends_with(b"\n");
            let are_first = wanted.as_bytes().starts_with(&answers);
            holds(rt, are_whole && are_first, wanted);
        } else {
            holds(rt, faults.is_empty(), "standard error");
            is_text(rt, input, wanted, answers.as_slice());
        }
        Ok(conn.ok_or("no connection")?)
    }
}

/// More calls than a command makes.
const MANY: u64 = 10_000;

/// Makes one of the files fail after each seventh number of calls, until the command does what is asked of it. Returns how often it failed.
/// `checks/refused_commands.py` makes it fail after each number.
fn failures<R: Abort + AllocGlobal>(
    rt: &R,
    files: &Files<Memory>,
    row: &FusedRow,
    is_log: bool,
) -> Result<u64, Fail> {
    let mut failures = 0_u64;
    for calls in (0..MANY).step_by(7) {
        let mut runs = Runs {
            row,
            has_failed: false,
        };
        let fused = fused(rt.alloc(), files, is_log, calls)?;
        let (is_opened, _) = in_files(rt, fused, &mut runs)?;
        if is_opened && !runs.has_failed {
            return Ok(failures);
        }
        failures = failures.saturating_add(u64::from(is_opened));
    }
    Err("it fails always".into())
}

#[test]
fn commands_fail_where_the_disk_does(rt: HostRuntime) -> Result<(), Fail> {
    let all = deliveries(rt.alloc())?;
    let mut hears = Hears {
        deliveries: all.get(..5).ok_or("no messages")?,
    };
    let (_, files) = in_files(&rt, empty(rt.alloc()), &mut hears)?;
    for (place, row) in ROWS.iter().enumerate() {
        let of_log = failures(&rt, &files, row, true)?;
        let of_db = failures(&rt, &files, row, false)?;
        // A file is read to its end when it is opened: a command that only reads need not meet a failure after that.
        let writes = !row.1.is_empty();
        holds_at(&rt, !writes || of_log.saturating_add(of_db) > 0, place);
    }
    Ok(())
}

// ---- a disk that fills

/// Runs the command on a disk with room for so many writes, and once more after there is room.
#[derive(Drop)]
struct RunsTwice<'a> {
    row: &'a FusedRow,
    room: &'a Cell<u64>,
    writes: u64,
    has_failed: bool,
}

impl Step for RunsTwice<'_> {
    fn take<R: Abort + AllocGlobal, S: Alter + Drop>(
        &mut self,
        rt: &R,
        conn: Connection<S>,
    ) -> Result<Connection<S>, Fail> {
        let mut runs = Runs {
            row: self.row,
            has_failed: false,
        };
        self.room.set(self.writes);
        let conn = runs.take(rt, conn)?;
        self.has_failed = runs.has_failed;
        self.room.set(u64::MAX);
        let conn = runs.take(rt, conn)?;
        holds(rt, !runs.has_failed, "that it is done");
        Ok(conn)
    }
}

/// The disk has room for each number of writes, until the command does what is asked of it the first time. Returns how often it failed.
fn times_full<R: Abort + AllocGlobal>(
    rt: &R,
    files: &Files<Memory>,
    row: &FusedRow,
) -> Result<u64, Fail> {
    for writes in 0..MANY {
        let room = Cell::new(u64::MAX);
        let mut runs = RunsTwice {
            row,
            room: &room,
            writes,
            has_failed: false,
        };
        let (is_opened, _) = in_files(
            rt,
            files_that_fill(rt.alloc(), files, &room, false)?,
            &mut runs,
        )?;
        holds(rt, is_opened, "that they are opened");
        if !runs.has_failed {
            return Ok(writes);
        }
    }
    Err("it fails always".into())
}

#[test]
fn commands_go_on_once_there_is_room(rt: HostRuntime) -> Result<(), Fail> {
    let all = deliveries(rt.alloc())?;
    let mut hears = Hears {
        deliveries: all.get(..5).ok_or("no messages")?,
    };
    let (_, files) = in_files(&rt, empty(rt.alloc()), &mut hears)?;
    // The two that write.
    for row in &ROWS[..2] {
        holds(&rt, times_full(&rt, &files, row)? > 0, "that it fails");
    }
    Ok(())
}
