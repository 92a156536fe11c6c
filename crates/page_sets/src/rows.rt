//! Looks at the rows of a block of a list.

ghost use Rattle.std.specs.Prelude.{◌≡◌, ◌≤◌, ◌<◌, ◌+◌, ◌++◌, ℕ, List, map, length, OnOk, IfOk, IfErr, Some};
ghost use Rattle.std.specs.Option.{option_copied, option_and_then};
ghost use Rattle.vec_names.specs.Params.{IsInRange};
ghost use Rattle.page_bytes.specs.Content.{item_at};
ghost use Rattle.vec_tuples.specs.Reading.{entry};
ghost use Rattle.page_redo.specs.PageTuples.{in_whole};
ghost use Rattle.vec_steps.specs.declared.fault.StepFault.TheVariants.{Memory};
ghost use Rattle.vec_steps.specs.declared.told.Word.TheVariants.{Rows};
ghost use Rattle.vec_steps.specs.Telling.{row_told};
ghost use Rattle.page_sets.specs.Telling.{entry_shown, all_shown, items_on, next_on};

use page_bytes::Page;
use std::alloc::{AllocError, Global};
use vec_names::{Listed, Params};
use vec_steps::{RowSeen, StepFault, Told, Word};
use vec_tuples::{EntryRow, TupleFault, read_entry};

/// Tells the entries of a page by their offsets, and its next block. It wants memory for the values.
pub fn tell_rows(
    alloc: Global,
    page: Option<&Page>,
    params: &Params,
    told: &mut Told,
) -> Result<(), StepFault>
    requires { IsInRange params.now }
    ensures rows { OnOk result (map row_told told.new.rows ≡ all_shown (entry_shown params.now) 1 (items_on (option_copied page.entry))) }
    ensures next { OnOk result (told.new.next ≡ next_on (option_copied page.entry)) }
    ensures word { OnOk result (told.new.word ≡ Rows) }
    ensures memory { IfErr result (λ fault. fault ≡ Memory) }
    ensures at { told.new.at ≡ told.old.at }
    ensures bits { told.new.bits ≡ told.old.bits }
{
    told.word = Word::Rows;
    told.rows.clear();
    told.next = None;
    if let Some(page) = page {
        told.next = page.next();
        fill_rows(alloc, page, params, &mut told.rows)?;
    }
    Ok(())
}

fn fill_rows(
    alloc: Global,
    page: &Page,
    params: &Params,
    rows: &mut Listed<RowSeen>,
) -> Result<(), AllocError>
    requires { IsInRange params.now }
    ensures { OnOk result (map row_told rows.new ≡ map row_told rows.old ++ all_shown (entry_shown params.now) 1 page.now.items) }
{
    'items: for before in 0..page.count() {
        add_row(alloc, page, params, before + 1, rows)?;
    }
    Ok(())
}

fn add_row(
    alloc: Global,
    page: &Page,
    params: &Params,
    off: u16,
    rows: &mut Listed<RowSeen>,
) -> Result<(), AllocError>
    requires { IsInRange params.now }
    ensures { (x : List ℕ) → item_at page.now.items off ≡ Some x
        → OnOk result (map row_told rows.new ≡ map row_told rows.old ++ entry_shown params.now off x) }
{
    match page.item(off) {
        Some(item) => add_entry(alloc, item, params, off, rows),
        None => Ok(()),
    }
}

fn add_entry(
    alloc: Global,
    item: &[u8],
    params: &Params,
    off: u16,
    rows: &mut Listed<RowSeen>,
) -> Result<(), AllocError>
    requires { IsInRange params.now }
    ensures { OnOk result (map row_told rows.new ≡ map row_told rows.old ++ entry_shown params.now off item.now) }
{
    let Some(row) = entry_of(alloc, item, params)? else {
        return Ok(());
    };
    rows.push(RowSeen {
        off,
        id: row.id,
        bits: row.bits,
    })
}

/// The entry that an item is as a whole, if it is one.
fn entry_of(alloc: Global, item: &[u8], params: &Params) -> Result<Option<EntryRow>, AllocError>
    requires { IsInRange params.now }
    ensures { IfOk result (λ row. row ≡ in_whole (entry params.now item.now)) }
{
    match read_entry(alloc, item, params) {
        Ok(row) => Ok(Some(row)),
        Err(TupleFault::Memory) => Err(AllocError),
        Err(TupleFault::Bad { .. }) => Ok(None),
    }
}
