//! Copies of an index.

ghost use Rattle.std.specs.Prelude.{◌≡◌, IfOk};

use crate::graph::IvfGraph;
use crate::list::IvfList;
use bit_code::Bits;
use std::alloc::{AllocError, Global};
use vec_names::{HeapId, Listed};

fn copied_rows(alloc: Global, rows: &[(HeapId, Bits)]) -> Result<Listed<(HeapId, Bits)>, AllocError>
    ensures { IfOk result (λ copy. copy ≡ rows.now) }
{
    let mut copy = Listed::new(alloc);
    for row in rows {
        copy.push((row.0, row.1.copied()?))?;
    }
    Ok(copy)
}

fn copied_chain(
    alloc: Global,
    chain: &[(u32, Listed<(HeapId, Bits)>)],
) -> Result<Listed<(u32, Listed<(HeapId, Bits)>)>, AllocError>
    ensures { IfOk result (λ copy. copy ≡ chain.now) }
{
    let mut copy = Listed::new(alloc);
    for part in chain {
        copy.push((part.0, copied_rows(alloc, part.1.as_slice())?))?;
    }
    Ok(copy)
}

fn copied_list(alloc: Global, list: &IvfList) -> Result<IvfList, AllocError>
    ensures { IfOk result (λ copy. copy ≡ list.now) }
{
    Ok(IvfList {
        centre: list.centre.copied()?,
        aim: list.aim,
        chain: copied_chain(alloc, list.chain.as_slice())?,
    })
}

fn copied_lists(alloc: Global, lists: &[IvfList]) -> Result<Listed<IvfList>, AllocError>
    ensures { IfOk result (λ copy. copy ≡ lists.now) }
{
    let mut copy = Listed::new(alloc);
    for list in lists {
        copy.push(copied_list(alloc, list)?)?;
    }
    Ok(copy)
}

impl IvfGraph {
    /// An equal index, in memory of its own.
    pub fn try_clone(&self, alloc: Global) -> Result<IvfGraph, AllocError>
        ensures { IfOk result (λ copy. copy ≡ self.now) }
    {
        Ok(IvfGraph {
            lists: copied_lists(alloc, self.lists.as_slice())?,
            blocks: self.blocks,
        })
    }
}
