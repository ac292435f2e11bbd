//! Look-ups of the texts of a message and of its answer. No message has a number of 2^53 or more.
ghost use Rattle.std.specs.Prelude.{◌≡◌, find, option_map};
ghost use Rattle.registry_core.specs.Numbered.{item_at};
ghost use Rattle.desk_store.specs.Kept.{entry_of, texts_of};
ghost use Rattle.desk_store.specs.Looks as store;
ghost use Rattle.desk_rows.specs.Replies as rows;
ghost use Rattle.desk_rows.specs.Calls.{Reads};
ghost use Rattle.desk_rows.specs.Rows.{is_reply};
ghost use Rattle.desk_tables.specs.steps.LookUps.{OfKept};

use desk_rows::RowFault;
use desk_store::EntryTexts;
use registry_core::{Envelope, JsonInteger};
use sqlite::{Alter, Connection};

fn shown(found: Option<desk_rows::ReplyTexts>) -> Option<EntryTexts>
    ensures { option_map store.texts_shown result ≡ option_map rows.kept_texts found }
{
    let texts = found?;
    Some(EntryTexts {
        message: texts.message,
        answer: texts.answer,
    })
}

/// Returns the texts of the row with the envelope's sender and transaction number.
fn row_texts<S: Alter>(
    conn: &mut Connection<S>,
    envelope: &Envelope,
) -> Result<Option<desk_rows::ReplyTexts>, RowFault>
    ensures { Reads S.Store conn.old conn.new result
        (λ r texts. option_map rows.kept_texts texts ≡ option_map rows.reply_texts (find (is_reply envelope.now.sender envelope.now.transaction) r.replies)) }
{
    desk_rows::texts_of(conn, &envelope.sender, envelope.transaction)
}

pub(crate) fn texts_of<S: Alter>(
    conn: &mut Connection<S>,
    envelope: &Envelope,
) -> Result<Option<EntryTexts>, RowFault>
    ensures { Reads S.Store conn.old conn.new result
        (OfKept (λ kept texts. option_map store.texts_shown texts ≡ option_map texts_of (entry_of envelope.now kept.entries))) }
{
    let found = row_texts(conn, envelope)?;
    Ok(shown(found))
}

/// Returns the texts of the row with the number.
fn numbered_row_texts<S: Alter>(
    conn: &mut Connection<S>,
    number: u64,
) -> Result<Option<desk_rows::ReplyTexts>, RowFault>
    ensures { Reads S.Store conn.old conn.new result
        (OfKept (λ kept texts. option_map rows.kept_texts texts ≡ option_map texts_of (item_at kept.entries number))) }
{
    match JsonInteger::new(number) {
        Some(number) => desk_rows::texts_at(conn, number),
        None => Ok(None),
    }
}

pub(crate) fn entry<S: Alter>(
    conn: &mut Connection<S>,
    number: u64,
) -> Result<Option<EntryTexts>, RowFault>
    ensures { Reads S.Store conn.old conn.new result
        (OfKept (λ kept texts. option_map store.texts_shown texts ≡ option_map texts_of (item_at kept.entries number))) }
{
    let found = numbered_row_texts(conn, number)?;
    Ok(shown(found))
}
