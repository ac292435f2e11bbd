//! Laws of the definitions, each as the contract of a function whose body is empty or calls other laws.
ghost use Rattle.desk_engine.specs.Laws.{AsManyEntriesAsMessages, CallsHearInOrder, DeliveriesAddAtTheEnd, DeliveriesLeaveHeardLists, HeardAgain, KeptAnswersStay, MessagesAreDelivered, NewListsAreInOrder, NoCallHearsNothing, ReadsHearNothing};
ghost use Rattle.desk_engine.specs.Lines.{InputsAreCut};
ghost use Rattle.desk_engine.specs.Log.{LogIsTheDesk, LogLinesAreTheDesk};
ghost use Rattle.desk_engine.specs.Reports.{OwnerReportsAgree};
ghost use Rattle.desk_engine.specs.Rooms.{RoomAgrees, RoomPassesChecks};
ghost use Rattle.desk_engine.specs.steps.Hearing.{KeepsRules};

use desk_store::Keeper;
use desk_wire::laws::{message_reads_back, messages_are_lines, messages_fit, reads_in_range};
use duty_core::laws::{computed_forms_tell, peak_has_an_edge};
use registry_core::laws::{
    downlinks_are_short, first_answers_stay, heard_lists_stay, rules_are_kept, same_message_tells,
    senders_stay,
};

/// A log with one more delivery is a log, as long as it has fewer messages than it may have.
#[tactic(auto, using(crate::proofs::HeardTexts::deliveries_leave_heard_lists))]
pub fn deliveries_leave_heard_lists()
    ensures { DeliveriesLeaveHeardLists }
{
    heard_lists_stay();
    reads_in_range();
}

/// Deliveries add to a log at its end only.
#[tactic(auto, using(crate::proofs::HeardTexts::deliveries_add_at_the_end))]
pub fn deliveries_add_at_the_end()
    ensures { DeliveriesAddAtTheEnd }
{}

/// What a store represents after a log has as many entries as the log has messages.
#[tactic(auto, using(crate::proofs::KeptAfter::as_many_entries))]
pub fn as_many_entries_as_messages()
    ensures { AsManyEntriesAsMessages }
{}

/// New lists of a configuration represent the empty log.
#[tactic(auto, using(crate::proofs::NewLists::was_made))]
pub fn new_lists_are_in_order()
    ensures { NewListsAreInOrder }
{}

/// Calls of a store one after another hear what each of them hears, in order. Calls that only read hear nothing.
pub fn calls_hear_in_order<K: Keeper>()
    ensures order { CallsHearInOrder K.meaning }
    ensures reads { ReadsHearNothing K.meaning }
    ensures none { NoCallHearsNothing K.meaning }
{
    stores_keep_rules::<K>();
}

/// What a store represents satisfies the registry's rules.
pub(crate) fn stores_keep_rules<K: Keeper>()
    ensures { KeepsRules K.meaning }
{
    rules_are_kept();
}

/// Whatever is delivered, the answer that was given to an envelope stays at its place in the log.
#[tactic(auto, using(crate::proofs::HearingAgain::kept_answers_stay))]
pub fn kept_answers_stay()
    ensures { KeptAnswersStay }
{}

/// The text that `write_message` writes for an envelope is answered as `hear` answers the envelope, and the log after the text is the log
/// after the envelope.
pub fn messages_are_delivered()
    ensures { MessagesAreDelivered }
{
    message_reads_back();
    messages_fit();
}

/// If no text adds a sender and the texts are delivered again at once, each gets the answer that it got and the log stays the same, unless
/// one of them is answered Unavailable.
pub fn heard_again()
    ensures { HeardAgain }
{
    same_message_tells();
    senders_stay();
}

/// The log is the desk. Take a part of a desk's log, and another desk that has heard what comes before the part, and maybe more of the log.
/// If the other desk hears the part, it answers each message as the first desk did, and has then heard the part too.
pub fn log_is_the_desk()
    ensures { LogIsTheDesk }
{
    first_answers_stay();
    message_reads_back();
    messages_fit();
}

/// The log is the desk, by lines. The lines that `write_log` writes of a part's messages are an input for `run_lines`. The other desk writes
/// for it the lines that `write_log` writes of the answers, and has then heard the messages of the part too.
pub fn log_lines_are_the_desk()
    ensures { LogLinesAreTheDesk }
{
    inputs_are_cut();
    messages_are_lines();
    log_is_the_desk();
}

/// An input of lines is split in the only way that there is: the lines, each with an LF, and what follows the last LF make the input, and
/// none of them has an LF.
pub fn inputs_are_cut()
    ensures { InputsAreCut }
{}

/// Two states that agree on an owner, on its devices and on their uplinks give the same report on it.
pub fn owner_reports_agree()
    ensures { OwnerReportsAgree }
{
    peak_has_an_edge();
}

/// The room of a gateway's band at a time agrees with the answer of a DownBook. Of the lengths from 1 to 3,000,000 microseconds, exactly
/// those up to the room pass the last two checks for a downlink that begins at the time. So if each other check of a DownBook passes, it is
/// booked if and only if its airtime is at most the room at its start; otherwise it is refused as `Collision` or `Duty`.
pub fn room_agrees()
    ensures checks { RoomPassesChecks }
    ensures answers { RoomAgrees }
{
    computed_forms_tell();
    downlinks_are_short();
    rules_are_kept();
}
