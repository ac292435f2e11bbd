//! Laws of the definitions, each as the contract of a function whose body is empty, calls other laws, or only reads the ranges of its arguments.
ghost use Rattle.std.specs.Prelude.{ℕ, ◌<◌, ◌^◌, IfSome, get_or};
ghost use Rattle.registry_core.specs.AdministrationLaws.{DevicesAddedAlone, DevicesAddedExactly, DevicesMovedAlone, DevicesMovedExactly, DownlinksEndedAlone, DownlinksEndedExactly, GatewaysAddedAlone, GatewaysAddedExactly, OwnersAddedAlone, OwnersAddedExactly, SendersAddedAlone, SendersAddedExactly};
ghost use Rattle.registry_core.specs.AirtimeLaws.{BookingsAreDownlinks, UplinksAreReceived};
ghost use Rattle.registry_core.specs.ReceptionLaws.{CopiesAddOneAtMost, ReceptionsStay};
ghost use Rattle.registry_core.specs.Counts.{FactsAreNoMoreThanMessages};
ghost use Rattle.registry_core.specs.DownlinkLaws.{BookedExactly, DownlinksAreShort, DownlinksHaveBands, GatewaysSendOneAtATime, ReceptionsLieInBands, UplinksAreAnsweredOnce};
ghost use Rattle.registry_core.specs.Fits.{DecisionsFit};
ghost use Rattle.registry_core.specs.Heard.{FirstAnswersStay, HeardListsStay, NewNumbersAreDecided, NothingIsHeard, UsedNumbersAreRefused};
ghost use Rattle.registry_core.specs.Laws.{AddressesAreApart, AddressesLieInBlock, CopiesBookNothing, CountersAgreeWithFrames, CountersRise, DataCopiesAreFound, JoinCopiesAreFound, NoncesRise, OperatorsKeepTheRegister, RefusalsChangeNothing, SendersStay, SessionsAreFound, SessionsHaveJoins, StepsRefuseByNumber, UplinksHaveReceptions, UplinksHaveSessions, UplinksStay};
ghost use Rattle.registry_core.specs.LimitLaws.{LastLimitStands, LimitsAreWithin, OtherLimitsStay, SetExactly, SetLimitsStand};
ghost use Rattle.registry_core.specs.NumberedLaws.{FirstIsFirst, GreatestIsMost, OneIsChanged};
ghost use Rattle.registry_core.specs.Ranges.{IsEnvelope, IsMessage, IsName, IsOctets, IsReport, IsSettings};
ghost use Rattle.registry_core.specs.ReportOrder.{DataInAnyOrder, JoinsInAnyOrder};
ghost use Rattle.registry_core.specs.Rules.{RulesAreKept};
ghost use Rattle.registry_core.specs.Same.{SameMessageTells};
ghost use Rattle.registry_core.specs.UplinkLaws.{FramesBookedExactly, JoinedExactly};

use crate::configuration::Config;
use crate::messages::{Envelope, Message, Report};
use duty_core::laws::computed_forms_tell;
use radio_core::laws::{airtime_is_bounded, airtime_is_computed, band_is_found, frame_is_found};
use radio_core::{Name, Octets};

/// The comparison of two messages returns whether they are equal.
#[tactic(auto, using(crate::proofs::Sameness::same_message_tells))]
pub fn same_message_tells()
    ensures { SameMessageTells }
{}

/// Whatever was heard, the effect of a step adds only what isn't there, and names only what is.
#[tactic(auto, using(crate::proofs::Decisions::decisions_fit))]
pub fn decisions_fit()
    ensures { DecisionsFit }
{}

/// What the definitions of numbers and places mean: the greatest of some numbers, the first uplink that passes a test, and the bookings
/// after one of them is changed.
pub fn numbered_items_are_meant()
    ensures greatest { GreatestIsMost }
    ensures first { FirstIsFirst }
    ensures changed { OneIsChanged }
{}

/// The empty list is a log: the one that a new store represents.
pub fn nothing_is_heard()
    ensures { NothingIsHeard }
{}

/// A log with one more message is a log, as long as it has fewer messages than it may have.
pub fn heard_lists_stay()
    ensures { HeardListsStay }
{}

/// How messages are answered. A message that was heard gets the answer of its step, whatever was heard after it. Another message of its
/// sender with its transaction number is refused. A message with a new transaction number gets the answer of its step now.
#[tactic(auto, using(crate::proofs::Replies::first_answers_stay, crate::proofs::Replies::new_numbers_are_decided, crate::proofs::Replies::used_numbers_are_refused))]
pub fn first_answers_stay()
    ensures first { FirstAnswersStay }
    ensures used { UsedNumbersAreRefused }
    ensures new { NewNumbersAreDecided }
{}

/// Whatever was heard, the address of each session is in the block.
#[tactic(auto, using(crate::proofs::SessionLaws::addresses_lie_in_block))]
pub fn addresses_lie_in_block()
    ensures { AddressesLieInBlock }
{}

/// Whatever was heard, no two sessions have one address.
#[tactic(auto, using(crate::proofs::SessionLaws::addresses_are_apart))]
pub fn addresses_are_apart()
    ensures { AddressesAreApart }
{}

/// Whatever was heard, a device's nonces rise from session to session.
#[tactic(auto, using(crate::proofs::SessionLaws::nonces_rise))]
pub fn nonces_rise()
    ensures { NoncesRise }
{}

/// Which frames are booked as new uplinks, whatever was heard. A join request makes a session if and only if it is of a known device with
/// its JoinEUI, its integrity code is right, its DevNonce is above those of the device's sessions, and an address is left. A data frame is
/// booked if and only if it has a session's address, no later session of the device has a data uplink, and the counter at which its
/// integrity code is right is the one that FCnt gives after the session's last.
pub fn frames_are_booked_exactly()
    ensures joins { JoinedExactly }
    ensures data { FramesBookedExactly }
{}

/// Whatever was heard, the counters of a session's data uplinks rise from uplink to uplink.
#[tactic(auto, using(crate::proofs::UplinkLaws::counters_rise))]
pub fn counters_rise()
    ensures { CountersRise }
{}

/// Whatever was heard, the octets of a data uplink are a data frame of its session's address, whose FCnt agrees with its
/// counter modulo 65,536.
#[tactic(auto, using(crate::proofs::UplinkLaws::counters_agree_with_frames))]
pub fn counters_agree_with_frames()
    ensures { CountersAgreeWithFrames }
{}

/// Whatever was heard, the session that is looked up by an address is the one that has it.
#[tactic(auto, using(crate::proofs::SessionLaws::sessions_are_found))]
pub fn sessions_are_found()
    ensures { SessionsAreFound }
{}

/// Whatever was heard, what is found as a copy of a join is the one join uplink of the device with the nonce and the octets.
pub fn join_copies_are_found()
    ensures { JoinCopiesAreFound }
{}

/// Whatever was heard, what is found as a copy of a data frame is the one data uplink of the session with the counter and
/// the octets.
pub fn data_copies_are_found()
    ensures { DataCopiesAreFound }
{}

/// Whatever was heard, each session has the join uplink that made it, and each uplink is one of a session that is there. A session's nonce
/// is the counter of its join.
#[tactic(auto, using(crate::proofs::SessionJoins::sessions_have_joins, crate::proofs::SessionJoins::uplinks_have_sessions))]
pub fn sessions_have_joins()
    ensures sessions { SessionsHaveJoins }
    ensures uplinks { UplinksHaveSessions }
{}

/// Whatever was heard, each uplink has a reception at some gateway.
#[tactic(auto, using(crate::proofs::UplinkLaws::uplinks_have_receptions))]
pub fn uplinks_have_receptions()
    ensures { UplinksHaveReceptions }
{}

/// No message changes an uplink that is booked.
#[tactic(auto, using(crate::proofs::UplinkLaws::uplinks_stay))]
pub fn uplinks_stay()
    ensures { UplinksStay }
{}

/// Whatever was heard, a message that is answered as a copy adds no session and no uplink, and changes no booking. It is a report, and adds
/// at most its gateway's reception of the uplink in the answer, if that gateway had none.
#[tactic(auto, using(crate::proofs::ReceptionLaws::copies_book_nothing, crate::proofs::KeptReceptions::copies_add_one_at_most))]
pub fn copies_book_nothing()
    ensures nothing { CopiesBookNothing }
    ensures copy { CopiesAddOneAtMost }
{}

/// Whatever was heard, no message changes a reception that is stored.
#[tactic(auto, using(crate::proofs::KeptReceptions::receptions_stay))]
pub fn receptions_stay()
    ensures { ReceptionsStay }
{}

/// Whatever was heard, two gateways may report a frame in either order: the states after them differ only in which reception came first.
pub fn reports_in_any_order()
    ensures joins { JoinsInAnyOrder }
    ensures data { DataInAnyOrder }
{}

/// Whatever was heard, each booking is a downlink in a receive window of the uplink that it answers. Its length is the time on air, as a
/// downlink at the window's data rate, of the octets of a frame that the uplink's kind asks for, and the window is in its band. A join
/// accept has 17 or 33 octets, and a data frame from 12 up to what the data rate can carry.
#[tactic(auto, using(crate::proofs::BookedDownlinks::bookings_are_downlinks))]
pub fn bookings_are_downlinks()
    ensures { BookingsAreDownlinks }
{
    airtime_is_computed();
    band_is_found();
    frame_is_found();
}

/// Whatever was heard, each uplink is as one of its gateways received it: its time on air is that of its octets at the reception's data
/// rate, as an uplink, up to the end of the reception, and in the reception's band.
#[tactic(auto, using(crate::proofs::ReceivedUplinks::uplinks_are_received))]
pub fn uplinks_are_received()
    ensures { UplinksAreReceived }
{
    airtime_is_computed();
    airtime_is_bounded();
    band_is_found();
}

/// Whatever was heard, no two sessions have one device and one nonce, no two uplinks have one session, one kind and one counter, and no
/// hour of any gateway's band has more booked airtime than its limit.
pub fn rules_are_kept()
    ensures { RulesAreKept }
{
    airtime_is_bounded();
    computed_forms_tell();
}

/// Whatever was heard, no two downlinks of a gateway that aren't dropped are on the air at once, in any bands.
#[tactic(auto, using(crate::proofs::BookingsApart::gateways_send_one_at_a_time))]
pub fn gateways_send_one_at_a_time()
    ensures { GatewaysSendOneAtATime }
{
    computed_forms_tell();
}

/// Whatever was heard, no two downlinks that aren't dropped answer one uplink.
#[tactic(auto, using(crate::proofs::BookingsApart::uplinks_are_answered_once))]
pub fn uplinks_are_answered_once()
    ensures { UplinksAreAnsweredOnce }
{}

/// Whatever was heard, no downlink is longer than 3,000,000 microseconds.
#[tactic(auto, using(crate::proofs::DownlinkLaws::downlinks_are_short))]
pub fn downlinks_are_short()
    ensures { DownlinksAreShort }
{
    airtime_is_bounded();
    computed_forms_tell();
}

/// A downlink is booked if and only if every check passes, it shares no microsecond with a downlink of the gateway that isn't dropped, and
/// every sliding hour of the gateway's band stays within the limit.
pub fn booked_exactly()
    ensures { BookedExactly }
{
    computed_forms_tell();
}

/// A limit is set if and only if an operator sends it, the gateway is known, and every sliding hour of its band is within it already.
pub fn limits_are_set_exactly()
    ensures { SetExactly }
{
    computed_forms_tell();
}

/// A limit that is set is its gateway's band's limit, in place of a lower or a higher one, and no other gateway's or band's.
#[tactic(auto, using(crate::proofs::LimitLaws::set_limits_stand, crate::proofs::LimitLaws::other_limits_stay))]
pub fn set_limits_stand()
    ensures set { SetLimitsStand }
    ensures others { OtherLimitsStay }
{}

/// Whatever was heard, the limit of a gateway's band is the one that the last accepted LimitSet for it has set, and the band's own if there
/// is none.
#[tactic(auto, using(crate::proofs::LimitLaws::last_limit_stands))]
pub fn last_limit_stands()
    ensures { LastLimitStands }
{}

/// Whatever was heard, no limit is above the band's own.
#[tactic(auto, using(crate::proofs::LimitLaws::limits_are_within))]
pub fn limits_are_within()
    ensures { LimitsAreWithin }
{}

/// Whatever was heard, each reception of an uplink is in a band.
#[tactic(auto, using(crate::proofs::DownlinkLaws::receptions_lie_in_bands))]
pub fn receptions_lie_in_bands()
    ensures { ReceptionsLieInBands }
{}

/// Whatever was heard, no downlink is refused for its band.
#[tactic(auto, using(crate::proofs::DownlinkLaws::downlinks_have_bands))]
pub fn downlinks_have_bands()
    ensures { DownlinksHaveBands }
{}

/// Whatever was heard, a message that is refused changes nothing.
pub fn refusals_change_nothing()
    ensures { RefusalsChangeNothing }
{}

/// There are at most as many owners, gateways, devices and receptions as messages were heard, and one more sender; at most as many sessions
/// as uplinks; and at most as many uplinks and bookings together as messages.
#[tactic(auto, using(crate::proofs::Counts::facts_are_no_more_than_messages))]
pub fn facts_are_no_more_than_messages()
    ensures { FactsAreNoMoreThanMessages }
{}

/// A refusal of a step has the number 6 or one from 9 to 31.
#[tactic(auto, using(crate::proofs::StepRefusals::steps_refuse_by_number))]
pub fn steps_refuse_by_number()
    ensures { StepsRefuseByNumber }
{}

/// Only messages of operators change senders, owners, gateways, devices and limits.
#[tactic(auto, using(crate::proofs::EveryMessage::operators_keep_the_register))]
pub fn operators_keep_the_register()
    ensures { OperatorsKeepTheRegister }
{}

/// A SenderAdd is answered Success if and only if an operator sends it and no sender has the name. Then there is a sender with the name and
/// the role, and nothing else differs.
pub fn senders_are_added_exactly()
    ensures accepted { SendersAddedExactly }
    ensures alone { SendersAddedAlone }
{}

/// An OwnerAdd is answered Success if and only if an operator sends it and no owner has the name. Then there is an owner with the name, and
/// nothing else differs.
pub fn owners_are_added_exactly()
    ensures accepted { OwnersAddedExactly }
    ensures alone { OwnersAddedAlone }
{}

/// A GatewayAdd is answered Success if and only if an operator sends it and no gateway has the name. Then there is a gateway with the name,
/// and nothing else differs.
pub fn gateways_are_added_exactly()
    ensures accepted { GatewaysAddedExactly }
    ensures alone { GatewaysAddedAlone }
{}

/// A DeviceAdd is answered Success if and only if an operator sends it, the owner is known, and no device has the DevEUI. Then the device
/// has the JoinEUI and the owner, and nothing else differs.
pub fn devices_are_added_exactly()
    ensures accepted { DevicesAddedExactly }
    ensures alone { DevicesAddedAlone }
{}

/// A DeviceMove is answered Success if and only if an operator sends it, and both the device and the owner are known. Then the device has
/// the owner, its JoinEUI, its last nonce and the floor of its sessions are the same, and nothing else differs.
pub fn devices_are_moved_exactly()
    ensures accepted { DevicesMovedExactly }
    ensures alone { DevicesMovedAlone }
{}

/// A DownDone is answered Success if and only if the booking is there and was neither sent nor dropped. Then the booking is sent or
/// dropped, its uplink, gateway, band and span are the same, and nothing else differs.
pub fn downlinks_are_ended_exactly()
    ensures accepted { DownlinksEndedExactly }
    ensures alone { DownlinksEndedAlone }
{}

/// A message that adds no sender leaves the senders as they are.
#[tactic(auto, using(crate::proofs::EveryMessage::senders_stay))]
pub fn senders_stay()
    ensures { SendersStay }
{}

/// A configuration has a receiver, an operator and a block in their forms.
pub fn configs_keep_ranges(config: &Config)
    ensures { IsSettings config.now }
{
    let _receiver = config.receiver().get();
    let _operator = config.operator().get();
    let _addresses = config.addresses();
}

/// An envelope has its values in the ranges of their types.
pub fn envelopes_keep_ranges(envelope: &Envelope)
    ensures { IsEnvelope envelope.now }
{
    name_keeps_form(&envelope.sender);
    let _transaction = envelope.transaction;
    message_keeps_ranges(&envelope.message);
}

fn message_keeps_ranges(message: &Message)
    ensures { IsMessage message.now }
{
    match message {
        Message::SenderAdd { sender, role: _ } => name_keeps_form(sender),
        Message::OwnerAdd { owner } => name_keeps_form(owner),
        Message::GatewayAdd { gateway } => name_keeps_form(gateway),
        Message::DeviceAdd {
            dev_eui,
            join_eui,
            owner,
        } => {
            let _numbers = (dev_eui.get(), join_eui.get());
            name_keeps_form(owner);
        }
        Message::DeviceMove { dev_eui, owner } => {
            let _dev_eui = dev_eui.get();
            name_keeps_form(owner);
        }
        Message::JoinHeard { report, verdict: _ } => report_keeps_ranges(report),
        Message::FrameHeard { report, verdict } => {
            report_keeps_ranges(report);
            counter_fits(verdict);
        }
        Message::DownBook {
            uplink,
            gateway,
            window: _,
            octets,
        } => {
            let _uplink = uplink.get();
            name_keeps_form(gateway);
            octets_keep_ranges(octets);
        }
        Message::DownDone { booking, sent: _ } => {
            let _booking = booking.get();
        }
        Message::LimitSet { gateway, limit } => {
            name_keeps_form(gateway);
            let _most = limit.most();
        }
    }
}

fn report_keeps_ranges(report: &Report)
    ensures { IsReport report.now }
{
    name_keeps_form(&report.gateway);
    let _time = report.time.get();
    let _freq = report.rate.freq;
    octets_keep_ranges(&report.octets);
}

fn name_keeps_form(name: &Name)
    ensures { IsName name.now }
{
    let _octets = name.get();
}

fn octets_keep_ranges(octets: &Octets)
    ensures { IsOctets octets.now }
{
    octets_fit(octets.get());
}

/// A frame counter has 32 bits.
fn counter_fits(counter: &Option<u32>)
    ensures { IfSome counter.now (λ n. n < 2 ^ 32) }
{
    if let Some(n) = counter {
        let _n = *n;
    }
}

/// An octet has eight bits.
fn octets_fit(octets: &[u8])
    ensures { (i : ℕ) → get_or octets.now i 0 < 2 ^ 8 }
{
    let _ = octets;
}
