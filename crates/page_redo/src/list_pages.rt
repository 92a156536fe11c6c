//! The changes of events on the pages of an index of lists.

ghost use Rattle.std.specs.Prelude.{◌≡◌, ◌<◌, ◌≤◌, ◌+◌, ◌*◌, ◌/◌, ◌%◌, ◌==◌, ◌&&◌, All, nat_lt, nat_le, Some, None, length};
ghost use Rattle.std.specs.List.Sorted.{IsStrictlyIncreasing};
ghost use Rattle.vec_names.specs.Params.{IsInRange};
ghost use Rattle.page_bytes.specs.Content.{item_at, round8};
ghost use Rattle.vec_tuples.specs.Spelling.{entry_bytes, row_with, centre_bytes};
ghost use Rattle.vec_tuples.specs.declared.centre.CentreTuple.{CentreTuple};
ghost use Rattle.page_redo.specs.PageTuples.{added, centre_at};
ghost use Rattle.page_redo.specs.PageChanges.{entry_added, grown, chained, rises, entries_dropped, list_block, list_offset, aimed};
ghost use Rattle.page_redo.specs.OfParts.{IsMade};

use crate::items::centre_head_at;
use crate::new_node::append;
use crate::page_kinds::{is_on_entries, is_on_lists};
use crate::tuple_changes::put_aim;
use bit_code::Bits;
use index_sizes::{MOST_ITEM, centres_on_page, entry_size};
use page_bytes::Page;
use vec_names::{HeapId, Params};
use vec_tuples::fill_entry;

/// A page more of a list: the chain's last page before, the new one, and the new page's entry.
#[derive(Clone, Copy)]
pub struct Growth<'a> {
    pub last: u32,
    pub new: u32,
    pub id: HeapId,
    pub bits: &'a Bits,
}

/// An entry behind the last one of a page.
pub fn add_entry(page: &mut Page, params: &Params, id: HeapId, bits: &Bits) -> Option<()>
    ensures { IsMade (entry_added params.now id bits.now page.old) page.old page.new result }
{
    if !is_on_entries(page, params) {
        return None;
    }
    if bits.count() != params.bits {
        return None;
    }
    append_entry(page, id, bits)
}

fn append_entry(page: &mut Page, id: HeapId, bits: &Bits) -> Option<()>
    ensures { IsMade (added (entry_bytes (row_with id bits.now)) page.old) page.old page.new result }
{
    let mut buffer = [0; MOST_ITEM];
    let long = entry_size(bits.count()) as usize;
    let item = &mut buffer[..long];
    fill_entry(id, bits, item);
    append(page, item)
}

/// A page without items is made fresh, with one entry.
pub fn grow(page: &mut Page, params: &Params, id: HeapId, bits: &Bits) -> Option<()>
    ensures { IsMade (grown params.now id bits.now page.old) page.old page.new result }
{
    if !is_on_entries(page, params) {
        return None;
    }
    if page.count() != 0 || bits.count() != params.bits {
        return None;
    }
    append_entry(page, id, bits)?;
    page.set_next(None);
    Some(())
}

/// The chain goes on at a block behind the page.
pub fn chain(page: &mut Page, params: &Params, block: u32, bits: &Bits) -> Option<()>
    ensures { IsMade (chained params.now block bits.now page.old) page.old page.new result }
{
    if !is_on_entries(page, params) {
        return None;
    }
    if block == u32::MAX || bits.count() != params.bits {
        return None;
    }
    page.set_next(Some(block));
    Some(())
}

/// The entries at some offsets go, which rise and are there.
pub fn drop_entries(page: &mut Page, params: &Params, gone: &[u16]) -> Option<()>
    ensures { IsMade (entries_dropped params.now gone.now page.old) page.old page.new result }
{
    if !is_on_entries(page, params) {
        return None;
    }
    if !rise(gone, page.count()) {
        return None;
    }
    page.drop_items(gone);
    Some(())
}

/// Whether offsets rise, from 1 on up to a count.
fn rise(gone: &[u16], count: u16) -> bool
    ensures told { result ≡ rises 0 count gone.now }
{
    let mut low = 0;
    'offsets: for off in gone {
        if !is_next(low, *off, count) {
            return false;
        }
        low = *off;
    }
    true
}

fn is_next(low: u16, off: u16, count: u16) -> bool
    ensures { result ≡ (nat_lt low off && nat_le off count) }
{
    low < off && off <= count
}

/// A list looks for room at another block first.
pub fn aim(page: &mut Page, params: &Params, list: u32, to: u32) -> Option<()>
    requires { IsInRange params.now }
    ensures { IsMade (aimed params.now list to page.old) page.old page.new result }
{
    if !is_on_lists(page, params) {
        return None;
    }
    let off = list_offset(params, list);
    let _head = centre_head_at(page, params, off)?;
    put_aim(page, off, to);
    Some(())
}

/// The block on which the tuple of a list stands, lists being counted from 0: each such block is full but for the last.
pub fn list_block(params: &Params, list: u32) -> u64
    requires { IsInRange params.now }
    ensures { result ≡ list_block params.now list }
{
    1 + u64::from(list) / centres_on_page(params.bits)
}

/// The offset, from 1, at which the tuple of a list stands on its page.
pub fn list_offset(params: &Params, list: u32) -> u16
    requires { IsInRange params.now }
    ensures { result ≡ list_offset params.now list }
{
    (1 + u64::from(list) % centres_on_page(params.bits)) as u16
}
