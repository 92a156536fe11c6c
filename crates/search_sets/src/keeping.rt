// The parts of a frontier, one by one.
#![tactic(auto)]

ghost use Rattle.std.specs.Prelude.{◌≡◌, ◌+◌, ◌<◌, ◌≤◌, ◌^◌, ◌++◌, ◌||◌, [], OnOk, IfOk, length, if◌then◌else◌};
ghost use Rattle.std.specs.FinSet as set;
ghost use Rattle.vec_names.specs.declared.tid.Tid.{Tid as Place};
ghost use Rattle.list_values.specs.Ranking.{placed};
ghost use Rattle.graph_search.specs.Search.{filled, is_among, is_most};
ghost use Rattle.graph_search.specs.ByHolding.{unnamed};
ghost use Rattle.search_sets.specs.Keys.{is_before};
ghost use Rattle.search_sets.specs.Naming.{is_past, named_by, new_by};
ghost use Rattle.search_sets.specs.Standing.{element_in, spot_of};

use crate::candidates::Candidates;
use crate::key::Key;
use crate::nearest::Nearest;
use crate::places::Places;
use crate::spot::Spot;
use bit_dist::Dist;
use neighbour_pick::Found;
use std::alloc::AllocError;
use vec_names::{Listed, Tid};

pub fn is_ended(least: Option<Key>, last: Option<Key>, most: Option<u64>, count: usize) -> bool
    ensures { result ≡ (is_past least last || is_most most count) }
{
    is_past(least, last) || is_many(most, count)
}

#[inline(always)]
fn is_past(least: Option<Key>, last: Option<Key>) -> bool
    ensures { result ≡ is_past least last }
{
    let Some(least) = least else {
        return true;
    };
    match last {
        None => false,
        Some(last) => last.is_nearer(&least),
    }
}

fn is_many(most: Option<u64>, count: usize) -> bool
    ensures { result ≡ is_most most count }
{
    match most {
        None => false,
        Some(most) => most <= count as u64,
    }
}

// The key of the element that comes after so many. A key has room for 2^32 numbers.
pub fn key_for(count: usize, at: Tid, dist: Dist) -> Result<Key, AllocError>
    ensures key { IfOk result (λ key. key ≡ record { dist = dist; at = at; index = count }) }
    ensures few { OnOk result (count + 1 ≤ 2 ^ 32) }
{
    if count > u32::MAX as usize {
        return Err(AllocError);
    }
    Ok(Key {
        dist,
        at,
        index: count as u32,
    })
}

// Puts a live one among those that were found. Whether it may be taken in this batch is for speed alone.
#[inline(always)]
pub fn keep(found: &mut Nearest, key: Key, is_live: bool) -> Result<bool, AllocError>
    ensures { OnOk result (found.new ≡ (if is_live then (found.old.0, placed is_before key found.old.1) else found.old)) }
{
    if is_live {
        let wanted = found.put(key)?;
        return Ok(wanted);
    }
    Ok(found.wants(&key))
}

#[inline(always)]
pub fn queue(ahead: &mut Candidates, key: Key, wanted: bool) -> Result<(), AllocError>
    ensures { OnOk result (ahead.new ≡ placed is_before key ahead.old) }
{
    if wanted {
        ahead.push(key)?;
        return Ok(());
    }
    ahead.push_far(key)?;
    Ok(())
}

pub fn spot_in(known: &[Found], key: Key) -> Spot
    requires { key.index < length known.now }
    ensures { result ≡ spot_of (element_in known.now key) }
{
    let element = &known[key.index as usize];
    Spot {
        at: element.at,
        list_at: element.list_at,
        level: element.level,
        version: element.version,
    }
}

pub fn name_all(
    named: &mut Places,
    slots: &[Option<Tid>],
    fresh: &mut Listed<Tid>,
) -> Result<(), AllocError>
    requires { fresh.old ≡ [] }
    ensures fresh { OnOk result (fresh.new ≡ unnamed (set.contains named.old) (filled slots.now)) }
    ensures named { OnOk result ((q : Place) → set.contains named.new q ≡ (set.contains named.old q || is_among (filled slots.now) q)) }
{
    for slot in slots {
        name_one(named, *slot, fresh)?;
    }
    Ok(())
}

#[inline(always)]
fn name_one(
    named: &mut Places,
    slot: Option<Tid>,
    fresh: &mut Listed<Tid>,
) -> Result<(), AllocError>
    ensures named { OnOk result (named.new ≡ named_by slot named.old) }
    ensures fresh { OnOk result (fresh.new ≡ fresh.old ++ new_by slot named.old) }
{
    let Some(at) = slot else {
        return Ok(());
    };
    if named.insert(at)? {
        fresh.push(at)?;
    }
    Ok(())
}
