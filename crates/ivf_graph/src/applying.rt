//! What each event changes, in place.

ghost use Rattle.std.specs.Prelude.{◌≡◌, ◌==◌, ◌<◌, ◌^◌, ℕ, Bool, List, OnOk};
ghost use Rattle.std.specs.List.{list_any};
ghost use Rattle.vec_names.specs.declared.heap_id.HeapId.{HeapId as HeapIds};
ghost use Rattle.ivf_graph.specs.Effect.{effect, row_change, changed_part, with_rows, changed, grown, aimed, others};
ghost use Rattle.std.specs.Prelude.{map};

use crate::graph::IvfGraph;
use crate::list::IvfList;
use bit_code::Bits;
use index_sizes::MOST_BLOCKS;
use std::alloc::{AllocError, Global};
use std::mem;
use vec_history::Event;
use vec_names::{HeapId, Listed};

/// Whether the offset is named.
fn is_named(gone: &[u16], offset: usize) -> bool
    ensures { result ≡ list_any (λ g. g == offset) gone.now }
{
    gone.iter().any(|g| usize::from(*g) == offset)
}

/// The rows at these offsets go, and the rest close up.
fn drop_rows(gone: &[u16], rows: &mut Listed<(HeapId, Bits)>)
    ensures { rows.new ≡ others gone.now 1 rows.old }
{
    for at in (0..rows.len()).rev() {
        if is_named(gone, at + 1) {
            let _ = rows.remove(at);
        }
    }
}

/// Changes the rows of the event's block.
fn change_rows(event: &Event, rows: &mut Listed<(HeapId, Bits)>) -> Result<(), AllocError>
    ensures { OnOk result (rows.new ≡ row_change event.now rows.old) }
{
    match event {
        Event::IvfAdd { block: _, id, bits } => {
            rows.push((*id, bits.copied()?))?;
            Ok(())
        }
        Event::IvfDrop { block: _, gone } => {
            drop_rows(gone.as_slice(), rows);
            Ok(())
        }
        _ => Ok(()),
    }
}

fn change_part(
    block: u32,
    event: &Event,
    part: &mut (u32, Listed<(HeapId, Bits)>),
) -> Result<(), AllocError>
    ensures { OnOk result (part.new ≡ changed_part block (row_change event.now) part.old) }
{
    if part.0 == block {
        change_rows(event, &mut part.1)?;
    }
    Ok(())
}

fn change_list(
    alloc: Global,
    block: u32,
    event: &Event,
    list: &mut IvfList,
) -> Result<(), AllocError>
    ensures { OnOk result (list.new ≡ with_rows block (row_change event.now) list.old) }
{
    let mut chain = mem::replace(&mut list.chain, Listed::new(alloc)).into_vec();
    for part in chain.iter_mut() {
        change_part(block, event, part)?;
    }
    list.chain = Listed::from_vec(chain);
    Ok(())
}

/// Changes the rows of a block.
fn change_block(
    alloc: Global,
    block: u32,
    event: &Event,
    lists: &mut Listed<IvfList>,
) -> Result<(), AllocError>
    ensures { OnOk result (lists.new ≡ map (with_rows block (row_change event.now)) lists.old) }
{
    let mut whole = mem::replace(lists, Listed::new(alloc)).into_vec();
    for list in whole.iter_mut() {
        change_list(alloc, block, event, list)?;
    }
    *lists = Listed::from_vec(whole);
    Ok(())
}

/// A new block ends the list's chain.
fn grow(
    alloc: Global,
    lists: &mut Listed<IvfList>,
    list: u32,
    block: u32,
    row: (HeapId, Bits),
) -> Result<(), AllocError>
    ensures { OnOk result (lists.new ≡ changed lists.old list (grown block row)) }
{
    let mut rows = Listed::new(alloc);
    rows.push(row)?;
    let mut whole = mem::replace(lists, Listed::new(alloc)).into_vec();
    let at = list as usize;
    if at < whole.len() {
        whole[at].chain.push((block, rows))?;
    }
    *lists = Listed::from_vec(whole);
    Ok(())
}

/// The list aims at the block.
fn aim(alloc: Global, lists: &mut Listed<IvfList>, list: u32, block: u32)
    ensures { lists.new ≡ changed lists.old list (aimed block) }
{
    let mut whole = mem::replace(lists, Listed::new(alloc)).into_vec();
    let at = list as usize;
    if at < whole.len() {
        whole[at].aim = block;
    }
    *lists = Listed::from_vec(whole);
}

impl IvfGraph {
    /// Makes of this index what the event makes of it. Only memory can be wanting; the index may then be anything.
    pub fn apply(&mut self, event: &Event, alloc: Global) -> Result<(), AllocError>
        requires { (list last block : ℕ) (id : HeapIds) (bits : List Bool) → event.now ≡ Event.IvfGrow list last block id bits
            → block < MOST_BLOCKS }
        ensures { OnOk result (self.new ≡ effect event.now self.old) }
    {
        match event {
            Event::IvfAdd {
                block,
                id: _,
                bits: _,
            } => change_block(alloc, *block, event, &mut self.lists),
            Event::IvfDrop { block, gone: _ } => {
                change_block(alloc, *block, event, &mut self.lists)
            }
            Event::IvfGrow {
                list,
                last: _,
                block,
                id,
                bits,
            } => {
                grow(alloc, &mut self.lists, *list, *block, (*id, bits.copied()?))?;
                self.blocks = self.blocks.max(*block + 1);
                Ok(())
            }
            Event::IvfHint { list, block } => {
                aim(alloc, &mut self.lists, *list, *block);
                Ok(())
            }
            _ => Ok(()),
        }
    }
}
