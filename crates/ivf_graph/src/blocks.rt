//! The rows of a block, and the room beside them.

ghost use Rattle.std.specs.Prelude.{◌≡◌, ◌==◌, ◌≤◌, ◌↔◌, IsTrue, All, Some, find, length};
ghost use Rattle.std.specs.Option.{option_copied, option_map};
ghost use Rattle.ivf_graph.specs.Graph.{row_need as need_of_row, rows_on as rows_of_block, HasRoom, last_block};

use crate::graph::IvfGraph;
use crate::list::IvfList;
use bit_code::Bits;
use index_sizes::{MOST_BITS, PAGE_ROOM, entry_size, item_need};
use vec_names::{HeapId, Listed};

/// The rows of a block, if it stands in the chain.
fn chain_rows(
    chain: &[(u32, Listed<(HeapId, Bits)>)],
    block: u32,
) -> Option<&Listed<(HeapId, Bits)>>
    ensures { option_copied result ≡ option_map (λ p. p.1) (find (λ p. p.0 == block) chain.now) }
{
    chain
        .iter()
        .find(|part| part.0 == block)
        .map(|part| &part.1)
}

/// The rows of a block, if it stands in a chain.
pub(crate) fn rows_on(index: &IvfGraph, block: u32) -> Option<&Listed<(HeapId, Bits)>>
    ensures { option_copied result ≡ rows_of_block index.now block }
{
    let lists = index.lists.as_slice();
    for list in lists {
        if let Some(rows) = chain_rows(list.chain.as_slice(), block) {
            return Some(rows);
        }
    }
    None
}

/// What the row of a value of so many places takes of a page.
fn row_need(places: u32) -> u64
    requires { places ≤ MOST_BITS }
    ensures { result ≡ need_of_row places }
{
    item_need(entry_size(places))
}

/// Whether a row with a value of so many places fits beside these.
pub(crate) fn has_room(rows: &[(HeapId, Bits)], places: u32) -> bool
    requires { places ≤ MOST_BITS }
    ensures { IsTrue result ↔ HasRoom rows.now places }
{
    let mut left = PAGE_ROOM as u64;
    for row in rows {
        let need = row_need(row.1.count());
        if left < need {
            return false;
        }
        left -= need;
    }
    row_need(places) <= left
}

/// Whether every centre has so many places.
pub(crate) fn is_as_long(lists: &[IvfList], places: u32) -> bool
    ensures { IsTrue result ↔ All (λ l. length l.centre ≡ places) lists.now }
{
    lists.iter().all(|list| list.centre.count() == places)
}

/// Whether the block ends the chain.
pub(crate) fn is_last(chain: &[(u32, Listed<(HeapId, Bits)>)], block: u32) -> bool
    ensures { IsTrue result ↔ (last_block chain.now ≡ Some block) }
{
    match chain.last() {
        Some(part) => part.0 == block,
        None => false,
    }
}
