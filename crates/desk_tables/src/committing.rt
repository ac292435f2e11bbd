//! Commits an effect and a message with its answer in one transaction.
ghost use Rattle.std.specs.Prelude.{◌≡◌, ◌≢◌, false, Err};
ghost use Rattle.sqlite.specs.Held.{state};
ghost use Rattle.desk_rows.specs.declared.faults.RowFault.TheVariants.{Size};
ghost use Rattle.desk_rows.specs.order.Changes.{rows_with};
ghost use Rattle.desk_tables.specs.steps.Calls.{Asks, Commits, Makes};
ghost use Rattle.desk_tables.specs.steps.Effects.{AreJsonIntegers, IsInput, IsOpenToBoth, IsThereAndKnown, reply_row};

use crate::checked_faults::reading_fault;
use crate::effects::input::{EffectInput, Known, input_of};
use crate::effects::writing::write_effect;
use desk_rows::{RowFault, fault_of, insert_reply};
use registry_core::{Effect, Envelope};
use sqlite::{Alter, Connection, Transaction};

/// Writes the rows of the effect and the row of the message.
fn write_all<S: Alter>(
    tx: &mut Transaction<'_, S>,
    envelope: &Envelope,
    message: &[u8],
    effect: &Effect,
    answer: &[u8],
    input: EffectInput,
) -> Result<(), RowFault>
    ensures same_reference { tx.new.conn.ghost_name ≡ tx.old.conn.ghost_name }
    ensures makes { Makes (state S.Store tx.old.conn.now) (state S.Store tx.new.conn.now) result (λ r. IsInput effect.now r input)
        (IsOpenToBoth effect.now envelope.now) (rows_with effect.now (reply_row envelope.now message.now answer.now)) }
{
    write_effect(tx, effect, input)?;
    insert_reply(tx, &envelope.sender, envelope.transaction, message, answer)
}

/// Runs one transaction, with what was read before it.
fn transact<S: Alter>(
    conn: &mut Connection<S>,
    envelope: &Envelope,
    message: &[u8],
    effect: &Effect,
    answer: &[u8],
    input: EffectInput,
) -> Result<(), RowFault>
    requires { conn.old.in_transaction ≡ false }
    ensures { Commits (state S.Store conn.old) (state S.Store conn.new) result (λ r. IsInput effect.now r input)
        (IsOpenToBoth effect.now envelope.now) (rows_with effect.now (reply_row envelope.now message.now answer.now)) }
{
    let mut tx = conn.transaction();
    write_all(&mut tx, envelope, message, effect, answer, input)?;
    match tx.commit() {
        Ok(()) => Ok(()),
        Err(error) => Err(fault_of(error)),
    }
}

/// Reads what the effect's rows need. No error of this is `Size`.
fn input_read<S: Alter>(
    conn: &mut Connection<S>,
    known: &Known,
    effect: &Effect,
) -> Result<EffectInput, RowFault>
    ensures asks { Asks (state S.Store conn.old) (state S.Store conn.new) result (IsThereAndKnown effect.now known.now) (AreJsonIntegers effect.now) (IsInput effect.now) }
    ensures no_size { result ≢ Err Size }
{
    match input_of(conn, known, effect) {
        Ok(input) => Ok(input),
        Err(fault) => Err(reading_fault(fault)),
    }
}

/// Commits the effect and the message, or neither, given what is known of the rows.
pub(crate) fn commit_rows<S: Alter>(
    conn: &mut Connection<S>,
    known: &Known,
    envelope: &Envelope,
    message: &[u8],
    effect: &Effect,
    answer: &[u8],
) -> Result<(), RowFault>
    requires { conn.old.in_transaction ≡ false }
    ensures { Commits (state S.Store conn.old) (state S.Store conn.new) result (IsThereAndKnown effect.now known.now)
        (IsOpenToBoth effect.now envelope.now) (rows_with effect.now (reply_row envelope.now message.now answer.now)) }
{
    let input = input_read(conn, known, effect)?;
    transact(conn, envelope, message, effect, answer, input)
}
