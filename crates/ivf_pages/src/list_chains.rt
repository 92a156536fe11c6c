//! The lists of an index of which no block breaks a rule, built from their tuples, their chains and the rows of their blocks.

ghost use Rattle.std.specs.Prelude.{◌≡◌, ◌==◌, ℕ, ◌≤◌, ◌<◌, ◌^◌, [], true, List, Some, IfOk, length, map, slice_get, vec_len};
ghost use Rattle.vec_names.specs.declared.params.Params.{Params as AnyParams};
ghost use Rattle.page_bytes.specs.Content.{Content};
ghost use Rattle.ivf_pages.specs.Standing.{is_among, chain_from, part_in, list_with};
ghost use Rattle.ivf_pages.specs.Walking.{is_in_some, chains_of, HasRowsOf, AreOthersKept, AreDistinct, AreChainsApart};

use bit_code::Bits;
use ivf_graph::IvfList;
use std::alloc::{AllocError, Global};
use std::mem;
use vec_names::{HeapId, Listed};
use vec_tuples::CentreTuple;

/// The lists that have these tuples and these chains. The rows of their blocks are moved from where they were read to, and not copied.
pub fn lists_of(
    alloc: Global,
    tuples: Listed<CentreTuple>,
    chains: &[Listed<u32>],
    rows: &mut Vec<Listed<(HeapId, Bits)>>,
) -> Result<Listed<IvfList>, AllocError>
    requires count { length chains.now ≡ length tuples }
    requires apart { AreChainsApart chains.now }
    requires there { (block : ℕ) → is_in_some block chains.now ≡ true → block < vec_len rows.old }
    ensures { IfOk result (λ lists. (p : AnyParams) (pages : List Content) → chains.now ≡ chains_of pages tuples
        → HasRowsOf p pages (λ block. is_in_some block chains.now) rows.old.items → lists ≡ map (list_with p pages) tuples) }
{
    let mut lists = Listed::new(alloc);
    let mut i = 0;
    for tuple in tuples.into_vec() {
        let list = list_of(alloc, tuple, chains[i].as_slice(), rows)?;
        lists.push(list)?;
        i += 1;
    }
    Ok(lists)
}

fn list_of(
    alloc: Global,
    tuple: CentreTuple,
    blocks: &[u32],
    rows: &mut Vec<Listed<(HeapId, Bits)>>,
) -> Result<IvfList, AllocError>
    requires apart { AreDistinct blocks.now }
    requires there { (block : ℕ) → is_among block blocks.now ≡ true → block < vec_len rows.old }
    ensures list { IfOk result (λ list. (p : AnyParams) (pages : List Content) → blocks.now ≡ chain_from pages tuple.first
        → HasRowsOf p pages (λ block. is_among block blocks.now) rows.old.items → list ≡ list_with p pages tuple) }
    ensures others { AreOthersKept (λ block. is_among block blocks.now) rows.old.items rows.new.items }
    ensures long { vec_len rows.new ≡ vec_len rows.old }
{
    let chain = chain_of(alloc, blocks, rows)?;
    Ok(IvfList {
        centre: tuple.bits,
        aim: tuple.aim,
        chain,
    })
}

/// The blocks of a chain with their rows.
fn chain_of(
    alloc: Global,
    blocks: &[u32],
    rows: &mut Vec<Listed<(HeapId, Bits)>>,
) -> Result<Listed<(u32, Listed<(HeapId, Bits)>)>, AllocError>
    requires apart { AreDistinct blocks.now }
    requires there { (block : ℕ) → is_among block blocks.now ≡ true → block < vec_len rows.old }
    ensures chain { IfOk result (λ chain. (p : AnyParams) (pages : List Content)
        → HasRowsOf p pages (λ block. is_among block blocks.now) rows.old.items → chain ≡ map (part_in p pages) blocks.now) }
    ensures others { AreOthersKept (λ block. is_among block blocks.now) rows.old.items rows.new.items }
    ensures long { vec_len rows.new ≡ vec_len rows.old }
{
    let mut chain = Listed::new(alloc);
    for i in 0..blocks.len() {
        let block = blocks[i];
        let taken = take_rows(alloc, rows, block);
        chain.push((block, taken))?;
    }
    Ok(chain)
}

/// Moves the rows of a block from where they were read to.
fn take_rows(
    alloc: Global,
    rows: &mut Vec<Listed<(HeapId, Bits)>>,
    block: u32,
) -> Listed<(HeapId, Bits)>
    requires { block < vec_len rows.old }
    ensures taken { slice_get rows.old.items block ≡ Some result }
    ensures others { AreOthersKept (λ b. block == b) rows.old.items rows.new.items }
    ensures long { vec_len rows.new ≡ vec_len rows.old }
{
    mem::replace(&mut rows[block as usize], Listed::new(alloc))
}
