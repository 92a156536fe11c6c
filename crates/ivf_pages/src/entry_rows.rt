//! The rows of the blocks behind those of list tuples, each page decoded once.

ghost use Rattle.std.specs.Prelude.{◌≡◌, ℕ, ◌≤◌, ◌<◌, ◌^◌, List, None, Some, IfOk, length, slice_get};
ghost use Rattle.std.specs.Option.{option_map};
ghost use Rattle.vec_names.specs.Params.{IsInRange};
ghost use Rattle.page_bytes.specs.Content.{item_at};
ghost use Rattle.vec_tuples.specs.Reading.{entry};
ghost use Rattle.page_redo.specs.PageTuples.{in_whole};
ghost use Rattle.ivf_pages.specs.Standing.{row_in, lists_end};
ghost use Rattle.ivf_pages.specs.Walking.{all_rows, AreMarked, AreRowsFrom, AreAllRows};

use crate::list_blocks::lists_end;
use crate::marks::{Mark, is_in_one};
use bit_code::Bits;
use index_sizes::MOST_BLOCKS;
use page_bytes::Page;
use page_redo::{GraphFault, holds_entries};
use std::alloc::{AllocError, Global};
use vec_names::{HeapId, Listed, Params};
use vec_tuples::{TupleFault, read_entry};

/// The rows of each block, none of those of block 0 and of list tuples; or the first block behind these that breaks a rule.
pub fn rows_of_pages(
    alloc: Global,
    pages: &[Page],
    params: &Params,
    marks: &Listed<Mark>,
) -> Result<Listed<Listed<(HeapId, Bits)>>, GraphFault>
    requires few { length pages.now ≤ MOST_BLOCKS }
    requires in_range { IsInRange params.now }
    requires marked { AreMarked params.now pages.now params.now.lists marks.now }
    ensures { AreAllRows params.now pages.now result }
{
    let end = lists_end(params);
    let mut rows = Vec::new(alloc);
    rows.reserve(pages.len())?;
    for block in 0..pages.len() {
        match rows_from(alloc, pages, params, marks, end, block as u32) {
            Ok(on_block) => rows.push(on_block)?,
            Err(fault) => return Err(fault),
        }
    }
    Ok(Listed::from_vec(rows))
}

/// The rows of a block, none where it is not behind those of list tuples, so many.
fn rows_from(
    alloc: Global,
    pages: &[Page],
    params: &Params,
    marks: &Listed<Mark>,
    end: u64,
    block: u32,
) -> Result<Listed<(HeapId, Bits)>, GraphFault>
    requires in_range { IsInRange params.now }
    requires marked { AreMarked params.now pages.now params.now.lists marks.now }
    requires end { end ≡ lists_end params.now }
    requires there { block < length pages.now }
    ensures { AreRowsFrom params.now pages.now block result }
{
    if u64::from(block) <= end {
        return Ok(Listed::new(alloc));
    }
    rows_of(alloc, pages, params, marks, block)
}

fn rows_of(
    alloc: Global,
    pages: &[Page],
    params: &Params,
    marks: &Listed<Mark>,
    block: u32,
) -> Result<Listed<(HeapId, Bits)>, GraphFault>
    requires in_range { IsInRange params.now }
    requires marked { AreMarked params.now pages.now params.now.lists marks.now }
    requires behind { lists_end params.now < block }
    requires there { block < length pages.now }
    ensures { AreRowsFrom params.now pages.now block result }
{
    let page = &pages[block as usize];
    if !holds_entries(page) || !is_in_one(marks, block) {
        return Err(GraphFault::Bad { block });
    }
    match rows_on(alloc, page, params)? {
        Some(rows) => Ok(rows),
        None => Err(GraphFault::Bad { block }),
    }
}

/// The rows of a page, where all of its items are entries.
fn rows_on(
    alloc: Global,
    page: &Page,
    params: &Params,
) -> Result<Option<Listed<(HeapId, Bits)>>, AllocError>
    requires { IsInRange params.now }
    ensures { IfOk result (λ rows. rows ≡ all_rows params.now page.now.items) }
{
    let mut rows = Listed::new(alloc);
    for i in 0..page.count() {
        let Some(row) = row_at(alloc, page, params, i + 1)? else {
            return Ok(None);
        };
        rows.push(row)?;
    }
    Ok(Some(rows))
}

/// The row of the item at an offset, if that is an entry.
fn row_at(
    alloc: Global,
    page: &Page,
    params: &Params,
    off: u16,
) -> Result<Option<(HeapId, Bits)>, AllocError>
    requires { IsInRange params.now }
    ensures { IfOk result (λ row. (x : List ℕ) → item_at page.now.items off ≡ Some x → row ≡ row_in params.now x) }
{
    match page.item(off) {
        Some(item) => row_in(alloc, item, params),
        None => Ok(None),
    }
}

/// The row of the entry that an item is as a whole, if it is one.
fn row_in(alloc: Global, item: &[u8], params: &Params) -> Result<Option<(HeapId, Bits)>, AllocError>
    requires { IsInRange params.now }
    ensures { IfOk result (λ row. row ≡ row_in params.now item.now) }
{
    match read_entry(alloc, item, params) {
        Ok(row) => Ok(Some((row.id, row.bits))),
        Err(TupleFault::Memory) => Err(AllocError),
        Err(TupleFault::Bad { .. }) => Ok(None),
    }
}
