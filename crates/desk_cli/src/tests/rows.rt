//! What is delivered in each run, and what goes back: whole texts where their letters matter, and else the parts in
//! which requests differ.
use Exchange::{Asks, Books, Frames, Joins, Letters};
use Told::{Booked, Framed, Joined, Plain};
use Value::{Number, Text};
use std::alloc::{AllocError, Global};

/// What a request is told.
#[derive(Clone, Copy)]
pub(crate) enum Told {
    /// The number of its refusal (0: this is the answer of what is heard), the Description and the ResultCode.
    Plain(u8, &'static str, &'static str),
    /// A join's success: Airtime, Band, Copy, DevAddr and Uplink.
    Joined(u32, &'static str, bool, &'static str, u64),
    /// A data frame's success: Airtime, Band, Copy, Counter, DevEUI and Uplink.
    Framed(u32, &'static str, bool, u32, &'static str, u64),
    /// A downlink's success: Airtime, Band, Booking and Start.
    Booked(u32, &'static str, u64, u64),
}

pub(crate) const SUCCESS: Told = Plain(0, "", "Success");

pub(crate) const ROLE: Told = Plain(0, "role", "Other");

pub(crate) const EXISTS: Told = Plain(0, "exists", "Other");

const UNKNOWN_OWNER: Told = Plain(0, "owner", "Other");

pub(crate) const UNKNOWN_DEVICE: Told = Plain(0, "", "UnknownDevEUI");

pub(crate) const UNKNOWN_SENDER: Told = Plain(4, "", "UnknownSender");

pub(crate) const REUSED: Told = Plain(5, "transaction", "Other");

pub(crate) const BODY: Told = Plain(7, "body", "Other");

const TYPE: Told = Plain(8, "type", "Other");

/// A frame that a gateway heard: when its last symbol ended, its frequency, its data rate, its octets as hexadecimal
/// digits, and the verdict.
#[derive(Clone, Copy)]
pub(crate) struct Heard {
    pub(crate) gateway: &'static str,
    pub(crate) time: u64,
    pub(crate) freq: u32,
    pub(crate) rate: u8,
    pub(crate) octets: &'static str,
    pub(crate) verdict: &'static str,
}

/// A downlink: the uplink that it answers, the gateway that is to send it, its receive window, and its octets as
/// hexadecimal digits.
#[derive(Clone, Copy)]
pub(crate) struct Down {
    pub(crate) uplink: u64,
    pub(crate) gateway: &'static str,
    pub(crate) window: u8,
    pub(crate) octets: &'static str,
}

/// What is delivered, and what it is told.
#[derive(Clone, Copy)]
pub(crate) enum Exchange {
    /// A request of a sender: its transaction number, its type, and the members of the type.
    Asks(&'static str, u32, &'static str, &'static str, Told),
    /// A JoinHeard of a sender: its transaction number, and the join request.
    Joins(&'static str, u32, Heard, Told),
    /// A FrameHeard of a sender: its transaction number, and the data frame.
    Frames(&'static str, u32, Heard, Told),
    /// A DownBook of a sender: its transaction number, and the downlink.
    Books(&'static str, u32, Down, Told),
    /// A whole text, the number of its refusal (0: it is heard), and the whole text that goes back.
    Letters(&'static str, u8, &'static str),
}

/// A text, the number of its refusal (0: it is heard), and the text that goes back.
#[derive(Drop)]
pub(crate) struct Delivery {
    pub(crate) text: String,
    pub(crate) number: u8,
    pub(crate) wanted: String,
}

/// The deliveries of the rows. Each row is delivered twice: whatever it is told, it is told again.
pub(crate) fn deliveries_of(alloc: Global, rows: &[Exchange]) -> Result<Vec<Delivery>, AllocError> {
    let mut deliveries = Vec::new(alloc);
    for row in rows {
        for _ in 0..2 {
            deliveries.push(delivery_of(alloc, row)?)?;
        }
    }
    Ok(deliveries)
}

pub(crate) fn delivery_of(alloc: Global, row: &Exchange) -> Result<Delivery, AllocError> {
    match *row {
        Asks(sender, transaction, type_name, members, told) => {
            asked(alloc, sender, transaction, type_name, members, told)
        }
        Joins(sender, transaction, heard, told) => {
            let members = heard_members(alloc, JOIN_MEMBERS, &heard)?;
            asked(
                alloc,
                sender,
                transaction,
                "JoinHeard",
                members.as_str(),
                told,
            )
        }
        Frames(sender, transaction, heard, told) => {
            let members = heard_members(alloc, FRAME_MEMBERS, &heard)?;
            asked(
                alloc,
                sender,
                transaction,
                "FrameHeard",
                members.as_str(),
                told,
            )
        }
        Books(sender, transaction, down, told) => {
            let members = down_members(alloc, &down)?;
            asked(
                alloc,
                sender,
                transaction,
                "DownBook",
                members.as_str(),
                told,
            )
        }
        Letters(text, number, wanted) => Ok(Delivery {
            text: text.to_string(alloc)?,
            number,
            wanted: wanted.to_string(alloc)?,
        }),
    }
}

fn asked(
    alloc: Global,
    sender: &'static str,
    transaction: u32,
    type_name: &'static str,
    members: &str,
    told: Told,
) -> Result<Delivery, AllocError> {
    Ok(Delivery {
        text: request(alloc, sender, transaction, type_name, members)?,
        number: number_of(told),
        wanted: answer(alloc, sender, transaction, type_name, told)?,
    })
}

// Texts with a # where a value stands. They are statics: a proof goes through all letters of a constant where it is used.

static REQUEST_FORM: &str =
    r##"{"ProtocolVersion":"1.0","SenderID":"#","ReceiverID":"desk","TransactionID":#,"MessageType":"#",#}"##;

/// The members of a report, the verdict a text.
static JOIN_MEMBERS: &str =
    r##""Gateway":"#","Time":#,"Freq":#,"DataRate":#,"PHYPayload":"#","Verdict":"#""##;

/// The same, the verdict as it stands.
static FRAME_MEMBERS: &str =
    r##""Gateway":"#","Time":#,"Freq":#,"DataRate":#,"PHYPayload":"#","Verdict":#"##;

static DOWN_MEMBERS: &str = r##""Uplink":#,"Gateway":"#","Window":#,"PHYPayload":"#""##;

static PLAIN_ANSWER: &str =
    r##"{"MessageType":"#Ans","ProtocolVersion":"1.0","ReceiverID":"#","Result":{"Description":"#","ResultCode":"#"},"SenderID":"desk","TransactionID":#}"##;

static JOINED_ANSWER: &str =
    r##"{"Airtime":#,"Band":"#","Copy":#,"DevAddr":"#","MessageType":"#Ans","ProtocolVersion":"1.0","ReceiverID":"#","Result":{"Description":"","ResultCode":"Success"},"SenderID":"desk","TransactionID":#,"Uplink":#}"##;

static FRAMED_ANSWER: &str =
    r##"{"Airtime":#,"Band":"#","Copy":#,"Counter":#,"DevEUI":"#","MessageType":"#Ans","ProtocolVersion":"1.0","ReceiverID":"#","Result":{"Description":"","ResultCode":"Success"},"SenderID":"desk","TransactionID":#,"Uplink":#}"##;

static BOOKED_ANSWER: &str =
    r##"{"Airtime":#,"Band":"#","Booking":#,"MessageType":"#Ans","ProtocolVersion":"1.0","ReceiverID":"#","Result":{"Description":"","ResultCode":"Success"},"SenderID":"desk","Start":#,"TransactionID":#}"##;

/// What stands in the place of a #.
#[derive(Clone, Copy)]
enum Value<'a> {
    Text(&'a str),
    Number(u64),
}

/// The text with its values, in order.
fn filled(alloc: Global, form: &str, values: &[Value<'_>]) -> Result<String, AllocError> {
    let mut text = String::new(alloc);
    for (place, part) in form.split('#').enumerate() {
        text.push_str(part)?;
        match values.get(place) {
            Some(Text(value)) => text.push_str(value)?,
            Some(Number(value)) => text.push_str(value.to_string(alloc)?.as_str())?,
            None => {}
        }
    }
    Ok(text)
}

fn heard_members(alloc: Global, form: &str, heard: &Heard) -> Result<String, AllocError> {
    let values = [
        Text(heard.gateway),
        Number(heard.time),
        Number(u64::from(heard.freq)),
        Number(u64::from(heard.rate)),
        Text(heard.octets),
        Text(heard.verdict),
    ];
    filled(alloc, form, &values)
}

fn down_members(alloc: Global, down: &Down) -> Result<String, AllocError> {
    let values = [
        Number(down.uplink),
        Text(down.gateway),
        Number(u64::from(down.window)),
        Text(down.octets),
    ];
    filled(alloc, DOWN_MEMBERS, &values)
}

fn request<'a>(
    alloc: Global,
    sender: &'a str,
    transaction: u32,
    type_name: &'a str,
    members: &'a str,
) -> Result<String, AllocError> {
    let values = [
        Text(sender),
        Number(u64::from(transaction)),
        Text(type_name),
        Text(members),
    ];
    filled(alloc, REQUEST_FORM, &values)
}

fn answer(
    alloc: Global,
    receiver: &'static str,
    transaction: u32,
    type_name: &'static str,
    told: Told,
) -> Result<String, AllocError> {
    let (receiver, transaction) = (Text(receiver), Number(u64::from(transaction)));
    let type_name = Text(type_name);
    match told {
        Plain(_, description, code) => {
            let values = [
                type_name,
                receiver,
                Text(description),
                Text(code),
                transaction,
            ];
            filled(alloc, PLAIN_ANSWER, &values)
        }
        Joined(airtime, band, copy, addr, uplink) => {
            let values = [
                Number(u64::from(airtime)),
                Text(band),
                truth(copy),
                Text(addr),
                type_name,
                receiver,
                transaction,
                Number(uplink),
            ];
            filled(alloc, JOINED_ANSWER, &values)
        }
        Framed(airtime, band, copy, counter, dev_eui, uplink) => {
            let values = [
                Number(u64::from(airtime)),
                Text(band),
                truth(copy),
                Number(u64::from(counter)),
                Text(dev_eui),
                type_name,
                receiver,
                transaction,
                Number(uplink),
            ];
            filled(alloc, FRAMED_ANSWER, &values)
        }
        Booked(airtime, band, booking, start) => {
            let values = [
                Number(u64::from(airtime)),
                Text(band),
                Number(booking),
                type_name,
                receiver,
                Number(start),
                transaction,
            ];
            filled(alloc, BOOKED_ANSWER, &values)
        }
    }
}

fn truth(is_so: bool) -> Value<'static> {
    Text(if is_so { "true" } else { "false" })
}

fn number_of(told: Told) -> u8 {
    match told {
        Plain(number, _, _) => number,
        Joined(..) | Framed(..) | Booked(..) => 0,
    }
}

/// The worked request, letter for letter.
pub(crate) const REQUEST: &str =
    r#"{"ProtocolVersion":"1.0","SenderID":"office","ReceiverID":"desk","TransactionID":1,"MessageType":"OwnerAdd","Owner":"town"}"#;

/// Another owner under its number.
pub(crate) const OTHER_OWNER: &str =
    r#"{"ProtocolVersion":"1.0","SenderID":"office","ReceiverID":"desk","TransactionID":1,"MessageType":"OwnerAdd","Owner":"city"}"#;

/// The answer of the worked request.
pub(crate) const ADDED: &str =
    r#"{"MessageType":"OwnerAddAns","ProtocolVersion":"1.0","ReceiverID":"office","Result":{"Description":"","ResultCode":"Success"},"SenderID":"desk","TransactionID":1}"#;

pub(crate) const MALFORMED: &str =
    r#"{"ProtocolVersion":"1.0","Result":{"Description":"malformed","ResultCode":"Other"},"SenderID":"desk"}"#;

pub(crate) const TOWN: &str = r#""Owner":"town""#;

pub(crate) const CITY: &str = r#""Owner":"city""#;

pub(crate) const PORT: &str = r#""Owner":"port""#;

pub(crate) const LONG_OWNER: &str = r#""Owner":"abcdefghijklmnopqrstuvwxyzabcdefg""#;

// The tables are statics: a proof goes through all rows of a constant where it is used, which takes minutes.

/// Owners, and each fault of a text.
pub(crate) static OWNERS: [Exchange; 12] = [
    Letters(REQUEST, 0, ADDED),
    Asks("office", 1, "OwnerAdd", TOWN, SUCCESS),
    Asks("office", 2, "OwnerAdd", TOWN, EXISTS),
    Asks("office", 1, "OwnerAdd", CITY, REUSED),
    Letters(
        r#"{"X":[1],"Owner":"town","MessageType":"OwnerAdd","TransactionID":1,"ReceiverID":"desk","SenderID":"office","ProtocolVersion":"1.0"}"#,
        0,
        ADDED,
    ),
    Letters("{", 1, MALFORMED),
    Asks("nobody", 1, "OwnerAdd", TOWN, UNKNOWN_SENDER),
    Letters(
        r#"{"ProtocolVersion":"1.0","SenderID":"office","ReceiverID":"other","TransactionID":1,"MessageType":"OwnerAdd","Owner":"town"}"#,
        3,
        r#"{"MessageType":"OwnerAddAns","ProtocolVersion":"1.0","ReceiverID":"office","Result":{"Description":"","ResultCode":"UnknownReceiver"},"SenderID":"desk","TransactionID":1}"#,
    ),
    Letters(
        r#"{"ProtocolVersion":"1.1","SenderID":"office","ReceiverID":"desk","TransactionID":1,"MessageType":"OwnerAdd","Owner":"town"}"#,
        2,
        r#"{"MessageType":"OwnerAddAns","ProtocolVersion":"1.0","ReceiverID":"office","Result":{"Description":"","ResultCode":"InvalidProtocolVersion"},"SenderID":"desk","TransactionID":1}"#,
    ),
    Asks("office", 1, "OwnerDrop", TOWN, TYPE),
    Asks("office", 1, "OwnerAdd", LONG_OWNER, BODY),
    // the used number's other owner was not added
    Asks("office", 3, "OwnerAdd", CITY, SUCCESS),
];

pub(crate) const BRIDGE: &str = r#""Sender":"bridge","Role":"radio""#;

pub(crate) const OFFICE: &str = r#""Sender":"office","Role":"operator""#;

const STRANGER: &str = r#""Sender":"stranger","Role":"operator""#;

pub(crate) const GATEWAY_A: &str = r#""Gateway":"gw-a""#;

pub(crate) const GATEWAY_B: &str = r#""Gateway":"gw-b""#;

const GATEWAY_C: &str = r#""Gateway":"gw-c""#;

pub(crate) const DEVICE: &str =
    r#""DevEUI":"0004a30b001a2b3c","JoinEUI":"70b3d57ed0000001","Owner":"town""#;

const DEVICE_IN_CAPITALS: &str =
    r#""DevEUI":"0x0004A30B001A2B3C","JoinEUI":"70B3D57ED0000001","Owner":"town""#;

const DEVICE_OF_CITY: &str =
    r#""DevEUI":"0004a30b001a2b3c","JoinEUI":"70b3d57ed0000001","Owner":"city""#;

pub(crate) const OTHER: &str =
    r#""DevEUI":"0004a30b001a2b3d","JoinEUI":"70b3d57ed0000001","Owner":"town""#;

const OTHER_OF_CITY: &str =
    r#""DevEUI":"0004a30b001a2b3d","JoinEUI":"70b3d57ed0000001","Owner":"city""#;

pub(crate) const DEVICE_TO_TOWN: &str = r#""DevEUI":"0004a30b001a2b3c","Owner":"town""#;

pub(crate) const DEVICE_TO_CITY: &str = r#""DevEUI":"0004a30b001a2b3c","Owner":"city""#;

pub(crate) const DEVICE_TO_PORT: &str = r#""DevEUI":"0004a30b001a2b3c","Owner":"port""#;

const OTHER_TO_TOWN: &str = r#""DevEUI":"0004a30b001a2b3d","Owner":"town""#;

pub(crate) const OTHER_TO_CITY: &str = r#""DevEUI":"0004a30b001a2b3d","Owner":"city""#;

pub(crate) const AS_ADMIN: &str = r#""Sender":"third","Role":"admin""#;

const WITHOUT_ROLE: &str = r#""Sender":"third""#;

const AS_RADIO: &str = r#""Sender":"third","Role":"radio""#;

pub(crate) const TWO_WORDS: &str = r#""Gateway":"gw d""#;

/// A DevEUI of 15 digits.
pub(crate) const SHORT_DEVICE: &str =
    r#""DevEUI":"0004a30b001a2b3","JoinEUI":"70b3d57ed0000001","Owner":"town""#;

/// A JoinEUI behind `0X`.
const PREFIX_IN_CAPITALS: &str =
    r#""DevEUI":"0004a30b001a2b3e","JoinEUI":"0X70b3d57ed0000001","Owner":"town""#;

/// A DevEUI of 15 digits.
pub(crate) const SHORT_TO_TOWN: &str = r#""DevEUI":"0004a30b001a2b3","Owner":"town""#;

/// A DevEUI of 18 digits.
const LONG_TO_TOWN: &str = r#""DevEUI":"0004a30b001a2b3c00","Owner":"town""#;

/// A sender, an owner and two gateways.
pub(crate) static SETUP: [Exchange; 4] = [
    Asks("office", 900_000, "SenderAdd", BRIDGE, SUCCESS),
    Asks("office", 900_001, "OwnerAdd", TOWN, SUCCESS),
    Asks("office", 900_002, "GatewayAdd", GATEWAY_A, SUCCESS),
    Asks("office", 900_003, "GatewayAdd", GATEWAY_B, SUCCESS),
];

/// After the setup: the worked device.
pub(crate) static DEVICE_ADDED: [Exchange; 1] = [Asks(
    "office",
    900_004,
    "DeviceAdd",
    DEVICE,
    SUCCESS,
)];

/// After the setup: senders, owners, gateways and devices, with each refusal that their messages may have.
pub(crate) static REGISTRY: [Exchange; 45] = [
    Asks("office", 2, "DeviceAdd", DEVICE, SUCCESS),
    Asks("office", 3, "DeviceAdd", DEVICE, EXISTS),
    Asks("office", 2, "DeviceAdd", OTHER, REUSED),
    Asks("office", 2, "DeviceAdd", DEVICE_IN_CAPITALS, SUCCESS),
    Asks("office", 4, "DeviceMove", DEVICE_TO_TOWN, SUCCESS),
    Asks("office", 5, "DeviceAdd", OTHER_OF_CITY, UNKNOWN_OWNER),
    Asks("office", 6, "DeviceAdd", DEVICE_OF_CITY, UNKNOWN_OWNER),
    // neither the used number's device nor the refused one was added
    Asks("office", 7, "DeviceMove", OTHER_TO_TOWN, UNKNOWN_DEVICE),
    Asks("office", 8, "DeviceMove", DEVICE_TO_CITY, UNKNOWN_OWNER),
    Asks("office", 9, "DeviceMove", OTHER_TO_CITY, UNKNOWN_DEVICE),
    Asks("office", 10, "SenderAdd", BRIDGE, EXISTS),
    Asks("office", 11, "SenderAdd", OFFICE, EXISTS),
    Asks("office", 12, "OwnerAdd", TOWN, EXISTS),
    Asks("office", 13, "GatewayAdd", GATEWAY_A, EXISTS),
    // the role is looked at first, and what it forbids isn't done
    Asks("bridge", 2, "SenderAdd", STRANGER, ROLE),
    Asks("bridge", 3, "OwnerAdd", TOWN, ROLE),
    Asks("bridge", 4, "GatewayAdd", GATEWAY_C, ROLE),
    Asks("bridge", 5, "DeviceAdd", OTHER, ROLE),
    Asks("bridge", 6, "DeviceMove", DEVICE_TO_TOWN, ROLE),
    Asks("bridge", 7, "DeviceMove", OTHER_TO_CITY, ROLE),
    Asks("office", 14, "GatewayAdd", GATEWAY_C, SUCCESS),
    Asks("office", 15, "DeviceAdd", OTHER, SUCCESS),
    Asks("office", 16, "DeviceMove", OTHER_TO_TOWN, SUCCESS),
    // a stranger's message isn't heard, and the same text is once its sender is known
    Asks("stranger", 1, "OwnerAdd", CITY, UNKNOWN_SENDER),
    Asks("office", 17, "DeviceMove", OTHER_TO_CITY, UNKNOWN_OWNER),
    Asks("office", 18, "SenderAdd", STRANGER, SUCCESS),
    Asks("stranger", 1, "OwnerAdd", CITY, SUCCESS),
    Asks("office", 19, "DeviceMove", OTHER_TO_CITY, SUCCESS),
    Asks("stranger", 2, "DeviceMove", DEVICE_TO_CITY, SUCCESS),
    // what was refused is refused again, though it would be done now
    Asks("office", 7, "DeviceMove", OTHER_TO_TOWN, UNKNOWN_DEVICE),
    Asks("office", 8, "DeviceMove", DEVICE_TO_CITY, UNKNOWN_OWNER),
    // a used number with a message of another type
    Asks("office", 2, "DeviceMove", DEVICE_TO_TOWN, REUSED),
    Asks("office", 4, "OwnerAdd", TOWN, REUSED),
    Asks("office", 900_000, "GatewayAdd", GATEWAY_A, REUSED),
    Asks("office", 900_002, "SenderAdd", STRANGER, REUSED),
    Asks("bridge", 3, "DeviceAdd", DEVICE, REUSED),
    // members that aren't in their form, and a type that there isn't
    Asks("office", 30, "SenderAdd", AS_ADMIN, BODY),
    Asks("office", 30, "SenderAdd", WITHOUT_ROLE, BODY),
    Asks("office", 30, "GatewayAdd", TWO_WORDS, BODY),
    Asks("office", 30, "DeviceAdd", SHORT_DEVICE, BODY),
    Asks("office", 30, "DeviceAdd", PREFIX_IN_CAPITALS, BODY),
    Asks("office", 30, "DeviceMove", SHORT_TO_TOWN, BODY),
    Asks("office", 30, "DeviceMove", LONG_TO_TOWN, BODY),
    Asks("office", 30, "DeviceDrop", DEVICE_TO_TOWN, TYPE),
    // none of them used its number
    Asks("office", 30, "SenderAdd", AS_RADIO, SUCCESS),
];
