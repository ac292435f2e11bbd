//! Commits a message: its effect and its answer together, or neither.
ghost use Rattle.std.specs.Prelude.{◌<◌};
ghost use Rattle.registry_core.specs.Heard.{most_heard};
ghost use Rattle.desk_tables.specs.Store.{common_law, meaning_of, one_law, own_law};
ghost use Rattle.desk_tables.specs.steps.Keeper.{CountsWith, IsCommit, IsNoted};

use crate::checked_faults::is_size;
use crate::committing::commit_rows;
use crate::effects::input::Known;
use crate::tables::Tables;
use desk_rows::RowFault;
use desk_rows::order::{changed_rows_are_there, keys_are_free, rows_follow_facts};
use desk_store::{Counts, Keeper, StoreFault};
use registry_core::laws::numbered_items_are_meant;
use registry_core::{Effect, Envelope, MOST_HEARD};
use sqlite::Alter;

/// Returns the counts after the effect.
fn counts_with(counts: Counts, effect: &Effect) -> Counts
    ensures { CountsWith effect.now counts result }
{
    numbered_items_are_meant();
    match effect {
        Effect::AddsSession { .. } => Counts {
            sessions: counts.sessions.saturating_add(1),
            uplinks: counts.uplinks.saturating_add(1),
            ..counts
        },
        Effect::AddsUplink { .. } => Counts {
            uplinks: counts.uplinks.saturating_add(1),
            ..counts
        },
        Effect::AddsBooking { .. } => Counts {
            bookings: counts.bookings.saturating_add(1),
            ..counts
        },
        _ => counts,
    }
}

impl<S: Alter> Tables<S> {
    /// Notes how a transaction ended: one more message was heard, or the error for which it wasn't.
    fn note_outcome(
        &mut self,
        effect: &Effect,
        answer: Result<(), RowFault>,
    ) -> Result<(), StoreFault>
        requires { self.old.heard < most_heard }
        ensures { IsNoted S.Store effect.now self.old self.new answer result }
    {
        match answer {
            Ok(()) => {
                self.out_of_space = false;
                self.heard += 1;
                self.counts = counts_with(self.counts, effect);
                self.seen = self.seen.after_commit();
                Ok(())
            }
            Err(fault) => {
                let told = self.fail(fault);
                self.out_of_space = is_size(told);
                Err(told)
            }
        }
    }

    /// Applies the effect to the facts and adds an entry at the end of the log, or does neither.
    fn commit_message(
        &mut self,
        envelope: &Envelope,
        message: &[u8],
        effect: &Effect,
        answer: &[u8],
    ) -> Result<(), StoreFault>
        ensures { IsCommit (meaning_of S.Store) self.old self.new envelope.now message.now effect.now answer.now result }
    {
        rows_follow_facts();
        keys_are_free();
        changed_rows_are_there();
        if self.failed {
            return Err(StoreFault::Disk);
        }
        // A store that represents something has committed everything.
        if !self.conn.is_autocommit() {
            return Err(self.fail(RowFault::Refused));
        }
        if self.heard >= MOST_HEARD as u64 {
            return Err(StoreFault::Size);
        }
        let known = Known {
            uplinks: self.counts.uplinks,
            seen: self.seen,
        };
        let done = commit_rows(&mut self.conn, &known, envelope, message, effect, answer);
        self.note_outcome(effect, done)
    }
}

impl<S: Alter> Keeper for Tables<S> {
    ghost own = { own_law _ S.settled };

    ghost one = { one_law _ };

    ghost common = { common_law _ _ S.survives };

    fn commit(
        &mut self,
        envelope: &Envelope,
        message: &[u8],
        effect: &Effect,
        answer: &[u8],
    ) -> Result<(), StoreFault> {
        self.commit_message(envelope, message, effect, answer)
    }
}
