//! Tables as texts: a header, and a text for each item.
ghost use Rattle.std.specs.Prelude.{◌≡◌, ℕ, List};
ghost use Rattle.std.specs.String.{string_bytes};
ghost use Rattle.registry_core.specs.Settings.{Settings};
ghost use Rattle.desk_store.specs.Calls.{IsRead, Tells, fault_in};
ghost use Rattle.desk_store.specs.Kept.{Kept};
ghost use Rattle.desk_engine.specs.Listing.{table_text};

use desk_store::{Keeper, StoreFault};
use std::alloc::Global;

/// Writes the text of an item: a line of a table, or a column of a line.
pub(crate) trait TextOf<T> {
    /// The item's text, by the configuration and what the store represents.
    ghost written: { Self → Settings → Kept → T → List ℕ };

    /// Returns the item's text.
    fn text<K: Keeper>(&self, alloc: Global, keeper: &mut K, item: &T) -> Result<String, StoreFault>
        ensures read { IsRead K.meaning keeper.old keeper.new (fault_in result) }
        ensures told { Tells K.meaning keeper.old keeper.new result
            (λ kept text. string_bytes text ≡ written self.now (K.meaning.configuration keeper.old) kept item.now) };
}

/// Returns the header, and the text of each item.
pub(crate) fn table<K: Keeper, T, W: TextOf<T>>(
    alloc: Global,
    keeper: &mut K,
    header: &str,
    items: &[T],
    writer: &W,
) -> Result<String, StoreFault>
    ensures read { IsRead K.meaning keeper.old keeper.new (fault_in result) }
    ensures told { Tells K.meaning keeper.old keeper.new result
        (λ kept text. string_bytes text ≡ table_text header.now (W.written writer.now (K.meaning.configuration keeper.old) kept) items.now) }
{
    let mut text = String::new(alloc);
    text.push_str(header)?;
    for item in items {
        let part = writer.text(alloc, keeper, item)?;
        text.push_str(part.as_str())?;
    }
    Ok(text)
}
