//! That a decision looks at hours by one sweep.
use super::holding::holds;
use duty_core::Span;
use radio_core::{Band, DataRate, Name, Octets, Rate};
use registry_core::{
    Answer, BandLimit, JsonInteger, Kind, Message, Reception, Refusal, Role, Uplink, UplinkView,
    View, Window, decide,
};
use std::alloc::Global;
use std::test::Fail;

/// When the uplink ended, in microseconds.
const END: u64 = 1_706_745_600_000_000;

/// A million spans of half a second, one for each twenty seconds.
fn million(alloc: Global) -> Result<Vec<Span>, Fail> {
    let mut spans = Vec::new(alloc);
    for i in 0..1_000_000_u32 {
        spans.push(Span::new(i64::from(i) * 20_000_000, 500_000).ok_or("out of range")?)?;
    }
    Ok(spans)
}

/// A data uplink that a gateway heard.
fn uplink() -> Result<UplinkView, Fail> {
    let rate = Rate {
        freq: 868_100_000,
        dr: DataRate::Dr5,
    };
    Ok(UplinkView {
        number: 1,
        uplink: Uplink {
            session: 1,
            kind: Kind::Data,
            counter: 0,
            octets: Octets::new(&[]).ok_or("too long")?,
            start: JsonInteger::new(END - 41_216).ok_or("too great")?,
            airtime: 41_216,
            band: Band::B3,
        },
        at_gateway: Some(Reception {
            end: JsonInteger::new(END).ok_or("too great")?,
            rate,
        }),
    })
}

/// What no registry holds: a gateway with a million downlinks near a new one.
fn view(alloc: Global) -> Result<View, Fail> {
    Ok(View {
        role: Role::Radio,
        base: 0x01a0_0000,
        addresses: 65_536,
        sessions: 1,
        uplinks: 1,
        bookings: 1_000_000,
        sender_known: false,
        owner_known: false,
        gateway_known: true,
        device: None,
        last_nonce: None,
        session: None,
        uplink: Some(uplink()?),
        answered: false,
        next_down: 0,
        booking: None,
        limit: 360_000_000,
        near: million(alloc)?,
        in_band: million(alloc)?,
    })
}

/// No contract speaks of time. Hour by hour a million downlinks would take 2,000,000,000,000 sums, and a test has a minute.
#[test]
fn a_million_downlinks_are_swept(rt: HostRuntime) -> Result<(), Fail> {
    let octets = [
        0x60, 0x00, 0x00, 0xa0, 0x01, 0x00, 0x00, 0x00, 0x55, 0x66, 0x77, 0x88,
    ];
    let message = Message::DownBook {
        uplink: JsonInteger::new(1).ok_or("too great")?,
        gateway: Name::new(b"gw-a").ok_or("no name")?,
        window: Window::Second,
        octets: Octets::new(&octets).ok_or("too long")?,
    };
    let (_, answer) = decide(&message, &view(rt.alloc())?);
    let Answer::DownSuccess {
        airtime,
        band,
        booking,
        start,
    } = answer
    else {
        return Err("refused".into());
    };
    holds(&rt, airtime == 991_232 && band == Band::B5, "the airtime");
    holds(&rt, booking == 1_000_001, "the booking");
    holds(&rt, start == END + 2_000_000, "the start");
    Ok(())
}

/// A limit of the band for the gateway of the same view, decided.
fn limit_answer(view: &View, most: u64) -> Result<Answer, Fail> {
    let message = Message::LimitSet {
        gateway: Name::new(b"gw-a").ok_or("no name")?,
        limit: BandLimit::new(Band::B5, most).ok_or("too great")?,
    };
    let (_, answer) = decide(&message, view);
    Ok(answer)
}

/// No hour holds more than 180 of the million, which is 90,000,000 microseconds.
#[test]
fn a_limit_of_a_million_downlinks_is_swept(rt: HostRuntime) -> Result<(), Fail> {
    let mut view = view(rt.alloc())?;
    view.role = Role::Operator;
    let answer = limit_answer(&view, 90_000_000)?;
    holds(&rt, matches!(answer, Answer::Success), "that it is set");
    let answer = limit_answer(&view, 89_999_999)?;
    let is_duty = matches!(answer, Answer::Refused(Refusal::Duty));
    holds(&rt, is_duty, "that it is refused");
    Ok(())
}
