//! The table of messages that were heard, with their answers.
ghost use Rattle.std.specs.Prelude.{◌≡◌, [], ◌∷◌, ℕ, List, codes};
ghost use Rattle.desk_rows.specs.Calls.{Changes, ReadsFirst, Returns};
ghost use Rattle.sqlite_value.specs.declared.value.Value.TheVariants.{Blob};
ghost use Rattle.desk_rows.specs.Replies.{ReturnsTexts, kept_texts};
ghost use Rattle.desk_rows.specs.Rows.{last_number};
ghost use Rattle.desk_rows.specs.Schema.{reply_tree};
ghost use Rattle.desk_rows.specs.steps.Latest.{last_transaction_asked};
ghost use Rattle.desk_rows.specs.steps.Texts.{AsksFor, by_rowid, is, reply_asked};
ghost use Rattle.sqlite_sql.specs.Term.{col};
ghost use Rattle.desk_rows.specs.Written.{reply_added};
ghost use Rattle.desk_rows.specs.Found.{last_transaction_of, texts_found, texts_numbered};

use crate::columns::octets_at;
use crate::faults::RowFault;
use crate::queries::{FromRow, find};
use crate::values::{blob, json_integer, text, word};
use crate::writes::write;
use radio_core::Name;
use registry_core::JsonInteger;
use sqlite::{Alter, Connection, Row, Transaction};

/// The texts of a message that was heard and of its answer.
#[derive(Drop)]
pub struct ReplyTexts {
    pub message: Vec<u8>,
    pub answer: Vec<u8>,
}

impl FromRow for ReplyTexts {
    ghost Seen = { List ℕ × List ℕ };

    ghost seen = { kept_texts };

    ghost shows = { λ t. Blob t.0 ∷ Blob t.1 ∷ [] };

    ghost InRange = { λ t. Unit {0} };

    fn from_row(row: &Row) -> Result<ReplyTexts, RowFault> {
        let message = octets_at(row, 0)?;
        let answer = octets_at(row, 1)?;
        Ok(ReplyTexts { message, answer })
    }
}

/// Returns the SQL text of the look-up of a message.
#[tactic(auto, unfolding(sqlite::specs::Listing::understood, sqlite_tied::specs::Compute::everything))]
fn reply_text() -> &'static str
    ensures { AsksFor result.now 2 reply_asked (codes "message" ∷ codes "answer" ∷ []) }
{
    "SELECT message, answer FROM reply WHERE sender = ?1 AND number = ?2 ORDER BY seq"
}

/// Returns the texts of the message with this sender and transaction number, `None` if there is none.
pub fn texts_of<S: Alter>(
    conn: &mut Connection<S>,
    sender: &Name,
    number: u32,
) -> Result<Option<ReplyTexts>, RowFault>
    ensures { ReturnsTexts S.Store conn.old conn.new result (texts_found sender.now number) }
{
    find(conn, reply_text(), &[text(sender), word(number)])
}

/// Returns the SQL text of the look-up of a message by its number.
#[tactic(auto, unfolding(sqlite::specs::Listing::understood, sqlite_tied::specs::Compute::everything))]
fn numbered_reply_text() -> &'static str
    ensures { AsksFor result.now 1 (by_rowid reply_tree (is 0 0 ∷ []) (col 1 4 ∷ col 1 5 ∷ [])) (codes "message" ∷ codes "answer" ∷ []) }
{
    "SELECT message, answer FROM reply WHERE seq = ?1 ORDER BY seq"
}

/// Returns the texts of the message with this number, from 1 in the order of hearing; `None` if there is none.
pub fn texts_at<S: Alter>(
    conn: &mut Connection<S>,
    number: JsonInteger,
) -> Result<Option<ReplyTexts>, RowFault>
    ensures { ReturnsTexts S.Store conn.old conn.new result (texts_numbered number) }
{
    find(conn, numbered_reply_text(), &[json_integer(number)])
}

/// Returns the number of the last message that was heard, `None` if there is none.
pub fn last_reply<S: Alter>(conn: &mut Connection<S>) -> Result<Option<u64>, RowFault>
    ensures second { Returns S.Store conn.old conn.new result (λ r. last_number r.replies) }
    ensures first { ReadsFirst S.Store conn.old conn.new result (λ r number. number ≡ last_number r.replies) }
{
    find(conn, "SELECT seq FROM reply ORDER BY seq DESC LIMIT 1", &[])
}

/// Returns the SQL text of the look-up of a sender's last transaction number.
#[tactic(auto, unfolding(sqlite::specs::Listing::understood, sqlite_tied::specs::Compute::everything))]
fn last_transaction_text() -> &'static str
    ensures { AsksFor result.now 1 last_transaction_asked (codes "number" ∷ []) }
{
    "SELECT number FROM reply WHERE sender = ?1 ORDER BY number DESC, seq DESC LIMIT 1"
}

/// Returns the greatest transaction number with which a message of the sender was heard, `None` if none was.
pub fn last_transaction<S: Alter>(
    conn: &mut Connection<S>,
    sender: &Name,
) -> Result<Option<u64>, RowFault>
    ensures { Returns S.Store conn.old conn.new result (last_transaction_of sender.now) }
{
    find(conn, last_transaction_text(), &[text(sender)])
}

/// Adds a message that was heard, with its answer, at the end.
pub fn insert_reply<S: Alter>(
    tx: &mut Transaction<'_, S>,
    sender: &Name,
    number: u32,
    message: &[u8],
    answer: &[u8],
) -> Result<(), RowFault>
    ensures same_reference { tx.new.conn.ghost_name ≡ tx.old.conn.ghost_name }
    ensures changes { Changes S.Store tx.old tx.new result (reply_added sender.now number message.now answer.now) }
{
    write(
        tx,
        "INSERT INTO reply (sender, number, message, answer) VALUES (?1, ?2, ?3, ?4)",
        &[text(sender), word(number), blob(message), blob(answer)],
    )
}
