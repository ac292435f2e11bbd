//! Whole responses.

pub(crate) const ADDED: &str =
    "HTTP/1.1 200 OK\r\ncontent-type: application/json\r\ncontent-length: 162\r\nconnection: close\r\n\r\n{\"MessageType\":\"OwnerAddAns\",\"ProtocolVersion\":\"1.0\",\"ReceiverID\":\"office\",\"Result\":{\"Description\":\"\",\"ResultCode\":\"Success\"},\"SenderID\":\"desk\",\"TransactionID\":1}";

pub(crate) const REUSED: &str =
    "HTTP/1.1 409 Conflict\r\ncontent-type: application/json\r\ncontent-length: 171\r\nconnection: close\r\n\r\n{\"MessageType\":\"OwnerAddAns\",\"ProtocolVersion\":\"1.0\",\"ReceiverID\":\"office\",\"Result\":{\"Description\":\"transaction\",\"ResultCode\":\"Other\"},\"SenderID\":\"desk\",\"TransactionID\":1}";

pub(crate) const DEVICE_ADDED: &str =
    "HTTP/1.1 200 OK\r\ncontent-type: application/json\r\ncontent-length: 163\r\nconnection: close\r\n\r\n{\"MessageType\":\"DeviceAddAns\",\"ProtocolVersion\":\"1.0\",\"ReceiverID\":\"office\",\"Result\":{\"Description\":\"\",\"ResultCode\":\"Success\"},\"SenderID\":\"desk\",\"TransactionID\":2}";

pub(super) const DEVICE_REUSED: &str =
    "HTTP/1.1 409 Conflict\r\ncontent-type: application/json\r\ncontent-length: 172\r\nconnection: close\r\n\r\n{\"MessageType\":\"DeviceAddAns\",\"ProtocolVersion\":\"1.0\",\"ReceiverID\":\"office\",\"Result\":{\"Description\":\"transaction\",\"ResultCode\":\"Other\"},\"SenderID\":\"desk\",\"TransactionID\":2}";

pub(super) const DEVICE_EXISTS: &str =
    "HTTP/1.1 200 OK\r\ncontent-type: application/json\r\ncontent-length: 167\r\nconnection: close\r\n\r\n{\"MessageType\":\"DeviceAddAns\",\"ProtocolVersion\":\"1.0\",\"ReceiverID\":\"office\",\"Result\":{\"Description\":\"exists\",\"ResultCode\":\"Other\"},\"SenderID\":\"desk\",\"TransactionID\":3}";

pub(super) const UNKNOWN_SENDER: &str =
    "HTTP/1.1 400 Bad Request\r\ncontent-type: application/json\r\ncontent-length: 170\r\nconnection: close\r\n\r\n{\"MessageType\":\"OwnerAddAns\",\"ProtocolVersion\":\"1.0\",\"ReceiverID\":\"stranger\",\"Result\":{\"Description\":\"\",\"ResultCode\":\"UnknownSender\"},\"SenderID\":\"desk\",\"TransactionID\":1}";

pub(super) const MALFORMED: &str =
    "HTTP/1.1 400 Bad Request\r\ncontent-type: application/json\r\ncontent-length: 101\r\nconnection: close\r\n\r\n{\"ProtocolVersion\":\"1.0\",\"Result\":{\"Description\":\"malformed\",\"ResultCode\":\"Other\"},\"SenderID\":\"desk\"}";

pub(super) const NO_HEAD: &str =
    "HTTP/1.1 400 Bad Request\r\ncontent-type: text/plain\r\ncontent-length: 5\r\nconnection: close\r\n\r\nhead\n";

pub(super) const CROSS_ORIGIN: &str =
    "HTTP/1.1 403 Forbidden\r\ncontent-type: text/plain\r\ncontent-length: 7\r\nconnection: close\r\n\r\norigin\n";

pub(super) const NO_ROUTE: &str =
    "HTTP/1.1 404 Not Found\r\ncontent-type: text/plain\r\ncontent-length: 6\r\nconnection: close\r\n\r\nroute\n";

pub(super) const NOT_BY_GET: &str =
    "HTTP/1.1 405 Method Not Allowed\r\ncontent-type: text/plain\r\ncontent-length: 7\r\nallow: POST\r\nconnection: close\r\n\r\nmethod\n";

pub(super) const NOT_BY_POST: &str =
    "HTTP/1.1 405 Method Not Allowed\r\ncontent-type: text/plain\r\ncontent-length: 7\r\nallow: GET\r\nconnection: close\r\n\r\nmethod\n";

pub(super) const NO_LENGTH: &str =
    "HTTP/1.1 411 Length Required\r\ncontent-type: text/plain\r\ncontent-length: 7\r\nconnection: close\r\n\r\nlength\n";

pub(crate) const TOO_LONG: &str =
    "HTTP/1.1 413 Payload Too Large\r\ncontent-type: text/plain\r\ncontent-length: 5\r\nconnection: close\r\n\r\nsize\n";

pub(super) const CUT_BODY: &str =
    "HTTP/1.1 400 Bad Request\r\ncontent-type: text/plain\r\ncontent-length: 5\r\nconnection: close\r\n\r\nbody\n";

pub(super) const BAD_MONTH: &str =
    "HTTP/1.1 400 Bad Request\r\ncontent-type: text/plain\r\ncontent-length: 5\r\nconnection: close\r\n\r\ntime\n";

pub(super) const NO_NUMBER: &str =
    "HTTP/1.1 400 Bad Request\r\ncontent-type: text/plain\r\ncontent-length: 7\r\nconnection: close\r\n\r\nnumber\n";

pub(super) const NO_OWNER: &str =
    "HTTP/1.1 404 Not Found\r\ncontent-type: text/plain\r\ncontent-length: 6\r\nconnection: close\r\n\r\nowner\n";

pub(crate) const NO_GATEWAY: &str =
    "HTTP/1.1 404 Not Found\r\ncontent-type: text/plain\r\ncontent-length: 8\r\nconnection: close\r\n\r\ngateway\n";

pub(crate) const UNAVAILABLE: &str =
    "HTTP/1.1 503 Service Unavailable\r\ncontent-type: text/plain\r\ncontent-length: 12\r\nconnection: close\r\n\r\nunavailable\n";

pub(crate) const EMPTY_REPORT: &str =
    "HTTP/1.1 200 OK\r\ncontent-type: text/csv\r\ncontent-length: 118\r\nconnection: close\r\n\r\ndev_eui,uplinks,b1_us,b1_peak_us,b2_us,b2_peak_us,b3_us,b3_peak_us,b4_us,b4_peak_us,b5_us,b5_peak_us,b6_us,b6_peak_us\n";

pub(crate) const OWNER_REPORT: &str =
    "HTTP/1.1 200 OK\r\ncontent-type: text/csv\r\ncontent-length: 171\r\nconnection: close\r\n\r\ndev_eui,uplinks,b1_us,b1_peak_us,b2_us,b2_peak_us,b3_us,b3_peak_us,b4_us,b4_peak_us,b5_us,b5_peak_us,b6_us,b6_peak_us\n0004a30b001a2b3c,2,0,0,0,0,102912,102912,0,0,0,0,0,0\n";

pub(crate) const UNUSED_BANDS: &str =
    "HTTP/1.1 200 OK\r\ncontent-type: text/csv\r\ncontent-length: 148\r\nconnection: close\r\n\r\nband,limit_us,bookings,booked_us,peak_us\nB1,3600000,0,0,0\nB2,36000000,0,0,0\nB3,36000000,0,0,0\nB4,3600000,0,0,0\nB5,360000000,0,0,0\nB6,36000000,0,0,0\n";

pub(crate) const BAND_REPORT: &str =
    "HTTP/1.1 200 OK\r\ncontent-type: text/csv\r\ncontent-length: 156\r\nconnection: close\r\n\r\nband,limit_us,bookings,booked_us,peak_us\nB1,3600000,0,0,0\nB2,36000000,0,0,0\nB3,36000000,1,46336,46336\nB4,3600000,0,0,0\nB5,360000000,0,0,0\nB6,36000000,0,0,0\n";

pub(super) const UNUSED_ROOM: &str =
    "HTTP/1.1 200 OK\r\ncontent-type: text/csv\r\ncontent-length: 161\r\nconnection: close\r\n\r\nband,limit_us,used_us,room_us\nB1,3600000,0,3000000\nB2,36000000,0,3000000\nB3,36000000,0,3000000\nB4,3600000,0,3000000\nB5,360000000,0,3000000\nB6,36000000,0,3000000\n";

pub(super) const ROOM_OF_ONE: &str =
    "HTTP/1.1 200 OK\r\ncontent-type: text/csv\r\ncontent-length: 125\r\nconnection: close\r\n\r\nband,limit_us,used_us,room_us\nB1,3600000,0,1\nB2,36000000,0,1\nB3,36000000,0,1\nB4,3600000,0,1\nB5,360000000,0,1\nB6,36000000,0,1\n";

pub(super) const NO_ROOM: &str =
    "HTTP/1.1 200 OK\r\ncontent-type: text/csv\r\ncontent-length: 125\r\nconnection: close\r\n\r\nband,limit_us,used_us,room_us\nB1,3600000,0,0\nB2,36000000,0,0\nB3,36000000,0,0\nB4,3600000,0,0\nB5,360000000,0,0\nB6,36000000,0,0\n";

pub(super) const ROOM_AFTER: &str =
    "HTTP/1.1 200 OK\r\ncontent-type: text/csv\r\ncontent-length: 165\r\nconnection: close\r\n\r\nband,limit_us,used_us,room_us\nB1,3600000,0,3000000\nB2,36000000,0,3000000\nB3,36000000,46336,3000000\nB4,3600000,0,3000000\nB5,360000000,0,3000000\nB6,36000000,0,3000000\n";

pub(crate) const NINTH_OF_LOG: &str =
    "HTTP/1.1 200 OK\r\ncontent-type: application/x-ndjson\r\ncontent-length: 199\r\nconnection: close\r\n\r\n{\"Gateway\":\"gw-a\",\"MessageType\":\"DownBook\",\"PHYPayload\":\"20000102030405060708090a0b0c0d0e0f\",\"ProtocolVersion\":\"1.0\",\"ReceiverID\":\"desk\",\"SenderID\":\"bridge\",\"TransactionID\":13,\"Uplink\":1,\"Window\":1}\n";

pub(crate) const NO_DEVICE: &str =
    "HTTP/1.1 404 Not Found\r\ncontent-type: text/plain\r\ncontent-length: 7\r\nconnection: close\r\n\r\ndevice\n";

pub(crate) const SENDERS: &str =
    "HTTP/1.1 200 OK\r\ncontent-type: text/csv\r\ncontent-length: 63\r\nconnection: close\r\n\r\nsender,role,last_transaction\nbridge,radio,13\noffice,operator,5\n";

pub(crate) const OWNERS: &str =
    "HTTP/1.1 200 OK\r\ncontent-type: text/csv\r\ncontent-length: 21\r\nconnection: close\r\n\r\nowner,devices\ntown,1\n";

pub(crate) const GATEWAYS: &str =
    "HTTP/1.1 200 OK\r\ncontent-type: text/csv\r\ncontent-length: 196\r\nconnection: close\r\n\r\ngateway,b1_limit_us,b2_limit_us,b3_limit_us,b4_limit_us,b5_limit_us,b6_limit_us\ngw-a,3600000,36000000,36000000,3600000,360000000,36000000\ngw-b,3600000,36000000,36000000,3600000,360000000,36000000\n";

pub(crate) const DEVICES: &str =
    "HTTP/1.1 200 OK\r\ncontent-type: text/csv\r\ncontent-length: 174\r\nconnection: close\r\n\r\ndev_eui,join_eui,owner,sessions,dev_addr,last_nonce,last_counter,next_downlink_counter,last_start_us\n0004a30b001a2b3c,70b3d57ed0000001,town,1,01a00000,0,0,0,1706745700000000\n";

pub(super) const NEW_SENDERS: &str =
    "HTTP/1.1 200 OK\r\ncontent-type: text/csv\r\ncontent-length: 46\r\nconnection: close\r\n\r\nsender,role,last_transaction\noffice,operator,\n";

pub(super) const NEW_OWNERS: &str =
    "HTTP/1.1 200 OK\r\ncontent-type: text/csv\r\ncontent-length: 14\r\nconnection: close\r\n\r\nowner,devices\n";

pub(super) const NEW_GATEWAYS: &str =
    "HTTP/1.1 200 OK\r\ncontent-type: text/csv\r\ncontent-length: 80\r\nconnection: close\r\n\r\ngateway,b1_limit_us,b2_limit_us,b3_limit_us,b4_limit_us,b5_limit_us,b6_limit_us\n";

pub(super) const NEW_DEVICES: &str =
    "HTTP/1.1 200 OK\r\ncontent-type: text/csv\r\ncontent-length: 101\r\nconnection: close\r\n\r\ndev_eui,join_eui,owner,sessions,dev_addr,last_nonce,last_counter,next_downlink_counter,last_start_us\n";

pub(crate) const RECEPTIONS: &str =
    "HTTP/1.1 200 OK\r\ncontent-type: text/csv\r\ncontent-length: 393\r\nconnection: close\r\n\r\nuplink,session,kind,counter,gateway,end_us,freq_hz,dr,start_us,airtime_us,band,phy\n1,1,join,0,gw-a,1706745600061696,868100000,5,1706745600000000,61696,B3,00010000d07ed5b3703c2b1a000ba304000000a1b2c3d4\n2,1,data,0,gw-a,1706745700041216,868300000,5,1706745700000000,41216,B3,400000a00100000011223344\n2,1,data,0,gw-b,1706745700041220,868300000,5,1706745700000000,41216,B3,400000a00100000011223344\n";

pub(crate) const DOWNLINKS: &str =
    "HTTP/1.1 200 OK\r\ncontent-type: text/csv\r\ncontent-length: 93\r\nconnection: close\r\n\r\nbooking,uplink,kind,band,start_us,airtime_us,state\n1,1,join,B3,1706745605061696,46336,booked\n";

pub(super) const NO_RECEPTIONS: &str =
    "HTTP/1.1 200 OK\r\ncontent-type: text/csv\r\ncontent-length: 83\r\nconnection: close\r\n\r\nuplink,session,kind,counter,gateway,end_us,freq_hz,dr,start_us,airtime_us,band,phy\n";

pub(super) const NO_DOWNLINKS: &str =
    "HTTP/1.1 200 OK\r\ncontent-type: text/csv\r\ncontent-length: 51\r\nconnection: close\r\n\r\nbooking,uplink,kind,band,start_us,airtime_us,state\n";
