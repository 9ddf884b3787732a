//! The entries of a batch.

ghost use Rattle.std.specs.Prelude.{◌≡◌, ◌++◌, map, OnOk, IfOk};
ghost use Rattle.std.specs.Option.{option_to_list};
ghost use Rattle.must_entry.specs.declared.entry.Entry.TheVariants.{Row, Wave};

use must_base::NoMemory;
use must_coll::WaveItem;
use must_entry::{Entry, ItemList};
use must_find::Finding;

/// Puts rows behind other entries.
fn push_rows(entries: &mut Vec<Entry>, rows: &[Finding]) -> Result<(), NoMemory>
    ensures { OnOk result (entries.new.items ≡ entries.old.items ++ map Row rows.now) }
{
    for row in rows {
        entries.push(Entry::Row { finding: *row })?;
    }
    Ok(())
}

/// Some entries, and rows behind them.
pub fn with_rows(entries: Vec<Entry>, rows: &[Finding]) -> Result<ItemList, NoMemory>
    ensures { IfOk result (λ list. list ≡ entries.items ++ map Row rows.now) }
{
    let mut entries = entries;
    push_rows(&mut entries, rows)?;
    Ok(ItemList::from_vec(entries))
}

/// Some entries, and behind them rows, and what a call gives to a wave.
pub fn with_rows_and_wave(
    entries: Vec<Entry>,
    rows: &[Finding],
    wave: Option<WaveItem>,
) -> Result<ItemList, NoMemory>
    ensures { IfOk result (λ list. list ≡ (entries.items ++ map Row rows.now) ++ map Wave (option_to_list wave)) }
{
    let mut entries = entries;
    push_rows(&mut entries, rows)?;
    if let Some(item) = wave {
        entries.push(Entry::Wave { item })?;
    }
    Ok(ItemList::from_vec(entries))
}
