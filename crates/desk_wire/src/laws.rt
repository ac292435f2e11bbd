//! Laws of the definitions, each as the contract of a function with an empty body.
ghost use Rattle.desk_wire.specs.Laws.{MessageReadsBack, MessagesAreLines, MessagesFit, ReadsInRange, ReadsNoMemory};

/// The text that `write_message` writes for an envelope is read as the same envelope.
#[tactic(auto, using(crate::proofs::ReadBack::message_reads_back))]
pub fn message_reads_back()
    ensures { MessageReadsBack }
{}

/// The text of an envelope has at most 65,536 octets, which is as many as a desk reads of one message.
#[tactic(auto, using(crate::proofs::Fitting::messages_fit))]
pub fn messages_fit()
    ensures { MessagesFit }
{}

/// The text of an envelope is one line: it is not empty and has no LF.
#[tactic(auto, using(crate::proofs::OneLine::messages_are_lines))]
pub fn messages_are_lines()
    ensures { MessagesAreLines }
{}

/// An envelope that is read has its values in the ranges of their types.
pub fn reads_in_range()
    ensures { ReadsInRange }
{}

/// In the definition no text is read as `Memory`.
#[tactic(auto, using(crate::proofs::FirstFaults::reads_no_memory))]
pub fn reads_no_memory()
    ensures { ReadsNoMemory }
{}
