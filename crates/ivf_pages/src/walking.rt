//! The chains of the lists, followed one after the other.

ghost use Rattle.std.specs.Prelude.{◌≡◌, ◌≤◌, ◌<◌, ◌++◌, ◌∷◌, [], ℕ, true, false, None, Some, OnOk, IfOk, IfSome, IfNone, MatchOption, length, map};
ghost use Rattle.std.specs.Prelude.{replicate, slice_get};
ghost use Rattle.std.specs.Option.{is_some};
ghost use Rattle.vec_names.specs.Params.{IsInRange};
ghost use Rattle.ivf_pages.specs.declared.marks.Mark.TheVariants.{Nowhere};
ghost use Rattle.ivf_pages.specs.Standing.{centre_in, chain_from, has_aim};
ghost use Rattle.ivf_pages.specs.Walking.{link_of, arrived, is_cut, stopped, is_aim_met, comes_to, marked_by, visited_at, AreChanged, AreBelow};
ghost use Rattle.ivf_pages.specs.Walking.{AreClosed, AreMarked, AreFirstTuples, IsFirstAimless, AreChainsApart, IsNew, chains_of};

use crate::links::{Link, behind, leads, links_of};
use crate::marks::{Mark, is_met, is_new, is_shared, shorten, visit};
use page_bytes::Page;
use std::alloc::{AllocError, Global};
use vec_names::{Listed, Params};
use vec_tuples::CentreTuple;

// ---- all lists

/// Follows the chains of the lists, of which these are the tuples, and marks their blocks. It stops at the first list that has no tuple,
/// or whose aim is not in its chain. `chains` is empty before, and has the blocks of each chain in their order after, where no block
/// stands in two of them.
pub fn first_aimless(
    alloc: Global,
    pages: &[Page],
    params: &Params,
    tuples: &[CentreTuple],
    marks: &mut Listed<Mark>,
    chains: &mut Listed<Listed<u32>>,
) -> Result<Option<u32>, AllocError>
    requires tuples { AreFirstTuples params.now pages.now tuples.now }
    requires fresh { marks.old ≡ replicate (length pages.now) Mark.Nowhere }
    requires none { chains.old ≡ [] }
    ensures first { IfOk result (IsFirstAimless params.now pages.now) }
    ensures marked { IfOk result (λ first. first ≡ None → AreMarked params.now pages.now params.now.lists marks.new) }
    ensures all { IfOk result (λ first. first ≡ None → length tuples.now ≡ params.now.lists) }
    ensures chains { IfOk result (λ first. first ≡ None → AreChainsApart (chains_of pages.now tuples.now)
        → chains.new ≡ chains_of pages.now tuples.now) }
{
    let links = links_of(alloc, pages)?;
    match follow_all(alloc, pages, &links, params, tuples, marks, chains)? {
        Some(list) => Ok(Some(list)),
        None => Ok(first_missing(tuples.len(), params.lists)),
    }
}

/// The number of the first list without a tuple, where so many of the lists have one.
fn first_missing(count: usize, lists: u32) -> Option<u32>
    requires { count ≤ lists }
    ensures { MatchOption result (count ≡ lists) (λ first. (first ≡ count) × (first < lists)) }
{
    if count < lists as usize {
        Some(count as u32)
    } else {
        None
    }
}

/// Follows the chains of the lists that have a tuple, and answers the first whose aim is not in its chain.
fn follow_all(
    alloc: Global,
    pages: &[Page],
    links: &Listed<Link>,
    params: &Params,
    tuples: &[CentreTuple],
    marks: &mut Listed<Mark>,
    chains: &mut Listed<Listed<u32>>,
) -> Result<Option<u32>, AllocError>
    requires links { links.now ≡ map link_of pages.now }
    requires tuples { AreFirstTuples params.now pages.now tuples.now }
    requires fresh { marks.old ≡ replicate (length pages.now) Mark.Nowhere }
    requires none { chains.old ≡ [] }
    ensures { IfOk result (λ first. MatchOption first
        (AreMarked params.now pages.now (length tuples.now) marks.new
        × ((list : ℕ) → list < length tuples.now → has_aim pages.now (centre_in params.now pages.now list) ≡ true)
        × (AreChainsApart (chains_of pages.now tuples.now) → chains.new ≡ chains_of pages.now tuples.now))
        (λ first. (first < length tuples.now) × (has_aim pages.now (centre_in params.now pages.now first) ≡ false)
        × ((list : ℕ) → list < first → has_aim pages.now (centre_in params.now pages.now list) ≡ true))) }
{
    let _lists = params.lists;
    for list in 0..tuples.len() {
        let tuple = &tuples[list];
        let chain = follow(alloc, pages, links, marks, list as u32, tuple.first)?;
        if !has_aim(links, marks, list as u32, tuple) {
            return Ok(Some(list as u32));
        }
        chains.push(chain)?;
    }
    Ok(None)
}

// ---- one list

/// Follows the chain of a list from its first block on: to the last page, or to one that is not there, has no entries, was met before, or
/// is shared by two chains already. So each block is passed twice at most, whatever the number of lists. Tells its blocks in their order,
/// but for those where another chain came by before.
fn follow(
    alloc: Global,
    pages: &[Page],
    links: &Listed<Link>,
    marks: &mut Listed<Mark>,
    list: u32,
    first: u32,
) -> Result<Listed<u32>, AllocError>
    requires links { links.now ≡ map link_of pages.now }
    requires long { length marks.old ≡ length pages.now }
    requires below { AreBelow list marks.old }
    requires closed { AreClosed pages.now marks.old }
    ensures marked { OnOk result (AreChanged (marked_by pages.now list (chain_from pages.now first)) marks.old marks.new) }
    ensures told { IfOk result (λ chain. IsNew marks.old (chain_from pages.now first) → chain ≡ chain_from pages.now first) }
{
    let mut chain = Listed::new(alloc);
    let mut from = None;
    let mut to = Some(first);
    for i in 0..pages.len() {
        let Some(block) = arrived(links, marks, list, to) else {
            stop(marks, from, to);
            return Ok(chain);
        };
        come_by(marks, list, block, &mut chain)?;
        to = behind(links, block);
        from = Some(block);
    }
    stop(marks, from, to);
    Ok(chain)
}

/// The block that the chain goes on to, where it can and has to: it has entries, the chain has not met it before, and no two have.
fn arrived(links: &Listed<Link>, marks: &Listed<Mark>, list: u32, to: Option<u32>) -> Option<u32>
    ensures { result ≡ arrived links.now list marks.now to }
{
    match to {
        Some(block) => {
            if leads(links, block) && !(is_met(marks, list, block) || is_shared(marks, block)) {
                Some(block)
            } else {
                None
            }
        }
        None => None,
    }
}

/// The chain comes by the block, and has it as its next one where no chain came by before.
fn come_by(
    marks: &mut Listed<Mark>,
    list: u32,
    block: u32,
    chain: &mut Listed<u32>,
) -> Result<(), AllocError>
    ensures visited { AreChanged (visited_at list block) marks.old marks.new }
    ensures told { OnOk result (slice_get marks.old block ≡ Some Nowhere → chain.new ≡ chain.old ++ block ∷ []) }
{
    let new = is_new(marks, block);
    visit(marks, list, block);
    if !new {
        return Ok(());
    }
    chain.push(block)?;
    Ok(())
}

/// The chain ends at the block that it came from last, which stops it short where that names a next one, but for one that is shared.
fn stop(marks: &mut Listed<Mark>, from: Option<u32>, to: Option<u32>)
    ensures { AreChanged (stopped from (is_cut marks.old to)) marks.old marks.new }
{
    let Some(block) = from else {
        return;
    };
    if !is_cut(marks, to) {
        return;
    }
    shorten(marks, block);
}

/// Whether there is a next block, which is not shared.
fn is_cut(marks: &Listed<Mark>, to: Option<u32>) -> bool
    ensures { result ≡ is_cut marks.now to }
{
    match to {
        Some(block) => !is_shared(marks, block),
        None => false,
    }
}

// ---- the aim of a list

/// Whether the aim stands in the chain of the list, which was followed last. Where the aim is shared it is looked for, block by block.
fn has_aim(links: &Listed<Link>, marks: &Listed<Mark>, list: u32, tuple: &CentreTuple) -> bool
    ensures { result ≡ is_aim_met links.now list marks.now tuple.now }
{
    if is_shared(marks, tuple.aim) {
        comes_to(links, tuple.first, tuple.aim)
    } else {
        is_met(marks, list, tuple.aim)
    }
}

/// Whether the block is reached from the first one, over blocks of entries. It takes a step for each block at most.
fn comes_to(links: &Listed<Link>, first: u32, block: u32) -> bool
    ensures { result ≡ comes_to links.now (length links.now) block (Some first) }
{
    let mut to = Some(first);
    for i in 0..links.len() {
        let Some(met) = to else {
            return false;
        };
        if !leads(links, met) {
            return false;
        }
        if met == block {
            return true;
        }
        to = behind(links, met);
    }
    false
}
