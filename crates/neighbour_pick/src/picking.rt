//! The choice of neighbours among the elements that a search found.

ghost use Rattle.std.specs.Prelude.{◌≡◌, ◌+◌, ◌^◌, ◌<◌, ◌≤◌, [], ◌++◌, map, take, length, OnOk, IfOk, vec_len};
ghost use Rattle.std.specs.List.{All};
ghost use Rattle.std.specs.List.Sorted.{IsSortedBy};
ghost use Rattle.neighbour_pick.specs.Order.{candidate_of, is_nearer, HaveOneLength};
ghost use Rattle.neighbour_pick.specs.Selection.{is_far, picked};
ghost use Rattle.neighbour_pick.specs.Sifting.{candidates_at, IsSifted, IsEnough};

use crate::farther::is_farther;
use crate::{Found, PickFault};
use bit_dist::distance;
use std::alloc::{AllocError, Global};
use vec_names::Ops;

/// The places in `found` of the neighbours picked, at most `count`, in the order of their choice: the HNSW paper's
/// Algorithm 4, as pgvector follows it, with the pruned candidates kept and without extending the candidates.
///
/// Each element is chosen, in order, where its distance to every one chosen before is greater than its own to what was
/// looked for; else it is set aside. Once `count` are chosen it ends. Else those set aside follow in order, up to `count`.
///
/// The one error is `Memory`. It takes room for the answer, and while it runs for as many places as were found.
pub fn pick(alloc: Global, ops: Ops, found: &[Found], count: u32) -> Result<Vec<u32>, PickFault>
    requires rising { IsSortedBy is_nearer (map candidate_of found.now) }
    requires few { length found.now < 2 ^ 32 }
    requires one_length { HaveOneLength found.now }
    ensures { IfOk result (λ places. places.items ≡ picked ops (map candidate_of found.now) count) }
{
    let count = count as usize;
    let mut chosen = Vec::with_capacity(alloc, count.min(found.len()))?;
    let mut aside = Vec::with_capacity(alloc, found.len())?;
    sift(ops, found, count, &mut chosen, &mut aside)?;
    fill(&aside, count, &mut chosen)?;
    Ok(chosen)
}

// Goes through the elements up to where `count` are chosen.
fn sift(
    ops: Ops,
    found: &[Found],
    count: usize,
    chosen: &mut Vec<u32>,
    aside: &mut Vec<u32>,
) -> Result<(), PickFault>
    requires few { length found.now < 2 ^ 32 }
    requires one_length { HaveOneLength found.now }
    requires none_chosen { chosen.old.items ≡ [] }
    requires none_aside { aside.old.items ≡ [] }
    ensures few_chosen { OnOk result (vec_len chosen.new ≤ count) }
    ensures enough { OnOk result (IsEnough ops found.now count chosen.new.items aside.new.items) }
{
    for place in 0..found.len() {
        if chosen.len() == count {
            return Ok(());
        }
        sift_one(ops, found, place as u32, chosen, aside)?;
    }
    Ok(())
}

// One element more is chosen or set aside.
fn sift_one(
    ops: Ops,
    found: &[Found],
    place: u32,
    chosen: &mut Vec<u32>,
    aside: &mut Vec<u32>,
) -> Result<(), PickFault>
    requires within { place < length found.now }
    requires one_length { HaveOneLength found.now }
    requires before { IsSifted ops found.now place chosen.old.items aside.old.items }
    ensures after { OnOk result (IsSifted ops found.now (place + 1) chosen.new.items aside.new.items) }
    ensures one_more { OnOk result (vec_len chosen.new ≤ vec_len chosen.old + 1) }
{
    if is_far_from(ops, found, chosen, &found[place as usize]) {
        chosen.push(place)?;
    } else {
        aside.push(place)?;
    }
    Ok(())
}

// Whether an element is farther from each chosen one than from what was looked for.
fn is_far_from(ops: Ops, found: &[Found], chosen: &[u32], one: &Found) -> bool
    requires inside { All (λ k. k < length found.now) chosen.now }
    requires one_length { All (λ other. length other.bits ≡ length one.now.bits) found.now }
    ensures { result ≡ is_far ops (candidates_at found.now chosen.now) (candidate_of one.now) }
{
    for place in chosen {
        let between = distance(ops, &found[*place as usize].bits, &one.bits);
        if !is_farther(between, one.dist) {
            return false;
        }
    }
    true
}

// Those set aside follow, up to `count`.
fn fill(aside: &[u32], count: usize, chosen: &mut Vec<u32>) -> Result<(), AllocError>
    requires { vec_len chosen.old ≤ count }
    ensures { OnOk result (chosen.new.items ≡ take count (chosen.old.items ++ aside.now)) }
{
    let wanted = aside.len().min(count - chosen.len());
    chosen.extend_from_slice(&aside[..wanted])?;
    Ok(())
}
