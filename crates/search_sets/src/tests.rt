ghost use Rattle.std.specs.Prelude.{◌≤◌};

use crate::*;
use arrayvec::ArrayVec;
use bit_code::read_bits;
use bit_dist::Dist;
use neighbour_pick::Found;
use std::alloc::Global;
use std::test::Fail;
use vec_names::{HeapId, Listed, Tid};

fn tid(off: u16) -> Tid
    requires { 1 ≤ off }
{
    Tid { block: 1, off }
}

fn key(num: u32, off: u16, index: u32) -> Key
    requires { 1 ≤ off }
{
    Key {
        dist: Dist { num, den: 1 },
        at: tid(off),
        index,
    }
}

fn has_numbers(keys: &[Key], numbers: &[u32]) -> bool {
    for (key, number) in keys.iter().zip(numbers) {
        if key.index != *number {
            return false;
        }
    }
    keys.len() == numbers.len()
}

fn is_number(key: Option<Key>, number: u32) -> bool {
    match key {
        None => false,
        Some(key) => key.index == number,
    }
}

// The two nearest of four, and then the two others. Of equal distances the lower place goes first.
#[test]
fn the_nearest_ones_are_at_hand(rt: HostRuntime) -> Result<(), Fail> {
    let mut nearest = Nearest::new(rt.alloc(), 2);
    assert!(rt; nearest.put(key(3, 1, 0))? && nearest.last().is_none());
    assert!(rt; nearest.put(key(1, 3, 1))? && is_number(nearest.last(), 0));
    assert!(rt; nearest.put(key(1, 2, 2))? && is_number(nearest.last(), 1));
    assert!(rt; !nearest.put(key(5, 4, 3))? && !nearest.wants(&key(1, 5, 4)));
    assert!(rt; has_numbers(nearest.wanted(), &[2, 1]));
    nearest.drop_wanted()?;
    assert!(rt; has_numbers(nearest.wanted(), &[0, 3]));
    nearest.clear(1);
    assert!(rt; nearest.wanted().is_empty());
    Ok(())
}

// Whether they were pushed as likely or not, they are taken in order.
#[test]
fn candidates_are_taken_in_order(rt: HostRuntime) -> Result<(), Fail> {
    let mut candidates = Candidates::new(rt.alloc());
    candidates.push_far(key(4, 1, 0))?;
    candidates.push(key(2, 2, 1))?;
    candidates.push_far(key(3, 3, 2))?;
    candidates.push(key(5, 4, 3))?;
    assert!(rt; is_number(candidates.first(), 1));
    assert!(rt; is_number(candidates.take_first()?, 1) && is_number(candidates.take_first()?, 2));
    assert!(rt; is_number(candidates.take_first()?, 0) && is_number(candidates.take_first()?, 3));
    assert!(rt; candidates.take_first()?.is_none());
    candidates.push(key(1, 1, 0))?;
    candidates.clear();
    assert!(rt; candidates.first().is_none());
    Ok(())
}

fn name_blocks(places: &mut Places, count: u32) -> Result<(), Fail> {
    for block in 0..count {
        if let Some(at) = Tid::new(block, 1) {
            places.insert(at)?;
        }
    }
    Ok(())
}

fn has_block(places: &Places, block: u32) -> bool {
    match Tid::new(block, 1) {
        None => false,
        Some(at) => places.contains(at),
    }
}

// More places than the table begins with, so that it grows; and then another round.
#[test]
fn a_table_of_places_grows_and_is_cleared(rt: HostRuntime) -> Result<(), Fail> {
    let mut places = Places::new(rt.alloc())?;
    assert!(rt; places.insert(tid(1))? && !places.insert(tid(1))?);
    name_blocks(&mut places, 9_000)?;
    assert!(rt; has_block(&places, 0) && has_block(&places, 8_999) && !has_block(&places, 9_000));
    places.clear();
    assert!(rt; !has_block(&places, 0) && !places.contains(tid(1)) && places.insert(tid(1))?);
    Ok(())
}

// An element at a distance over 1, live or without rows.
fn element(alloc: Global, off: u16, num: u32, is_live: bool) -> Result<Found, Fail>
    requires { 1 ≤ off }
{
    let mut ids = ArrayVec::new();
    if is_live {
        if let Some(id) = HeapId::new(5, 6) {
            let _ = ids.try_push(id);
        }
    }
    Ok(Found {
        at: tid(off),
        list_at: tid(9),
        level: 0,
        version: 1,
        dist: Dist { num, den: 1 },
        ids,
        bits: read_bits(alloc, "0110")?,
    })
}

fn stands_at(spot: Option<Spot>, at: Tid) -> bool {
    match spot {
        None => false,
        Some(spot) => spot.at == at,
    }
}

fn are_at(found: &[Found], places: &[Tid]) -> bool {
    for (element, at) in found.iter().zip(places) {
        if element.at != *at {
            return false;
        }
    }
    found.len() == places.len()
}

// With ef 1, from an element at 1 and a nearer one without rows: this is expanded first and not found. It names a third one, at 2,
// twice. Once the first is expanded too the search is over, since the third comes after the one that is found.
#[test]
fn a_frontier_of_three(rt: HostRuntime) -> Result<(), Fail> {
    let from = [
        element(rt.alloc(), 1, 1, true)?,
        element(rt.alloc(), 2, 0, false)?,
    ];
    let third = element(rt.alloc(), 3, 2, true)?;
    let mut frontier = Frontier::new(rt.alloc(), 1)?;
    frontier.begin(&from)?;
    assert!(rt; !frontier.is_over(None) && !frontier.is_over(Some(3)) && frontier.is_over(Some(2)));
    assert!(rt; stands_at(frontier.take_least()?, tid(2)));

    let mut fresh = Listed::new(rt.alloc());
    frontier.name(
        &[Some(tid(1)), None, Some(tid(3)), Some(tid(3))],
        &mut fresh,
    )?;
    assert!(rt; fresh.as_slice() == [tid(3)].as_slice());
    let spot = Spot {
        at: third.at,
        list_at: third.list_at,
        level: third.level,
        version: third.version,
    };
    frontier.add(spot, third.dist, &third.ids, &third.bits)?;
    assert!(rt; stands_at(frontier.take_least()?, tid(1)) && frontier.is_over(None));
    let found = frontier.found(rt.alloc())?;
    assert!(rt; are_at(found.as_slice(), &[tid(1)]));
    frontier.clear(2);
    assert!(rt; frontier.is_over(None) && frontier.take_least()?.is_none());
    Ok(())
}

// Of three found one is wanted, then two: the number may change on the way.
#[test]
fn another_number_is_wanted(rt: HostRuntime) -> Result<(), Fail> {
    let mut nearest = Nearest::new(rt.alloc(), 1);
    assert!(rt;
        nearest.put(key(3, 1, 0))? && nearest.put(key(1, 3, 1))? && !nearest.put(key(2, 2, 2))?
    );
    nearest.want(2)?;
    assert!(rt; has_numbers(nearest.wanted(), &[1, 2]));
    nearest.want(1)?;
    assert!(rt; has_numbers(nearest.wanted(), &[1]) && is_number(nearest.last(), 1));
    Ok(())
}

fn are_marked(batch: &[(Found, bool)], wanted: &[(Tid, bool)]) -> bool {
    for (element, (at, earlier)) in batch.iter().zip(wanted) {
        if element.0.at != *at || element.1 != *earlier {
            return false;
        }
    }
    batch.len() == wanted.len()
}

// Two elements are found; one is taken. A third comes in the next batch, which takes it before the one that was left: that one alone an
// earlier batch knew.
#[test]
fn batches_are_taken(rt: HostRuntime) -> Result<(), Fail> {
    let from = [
        element(rt.alloc(), 1, 1, true)?,
        element(rt.alloc(), 2, 3, true)?,
    ];
    let third = element(rt.alloc(), 3, 2, true)?;
    let mut frontier = Frontier::new(rt.alloc(), 1)?;
    frontier.begin(&from)?;
    let first = frontier.take_batch(rt.alloc())?;
    assert!(rt; are_marked(first.as_slice(), &[(tid(1), false)]));
    frontier.begin_batch();
    frontier.want(2)?;
    let spot = Spot {
        at: third.at,
        list_at: third.list_at,
        level: third.level,
        version: third.version,
    };
    frontier.add(spot, third.dist, &third.ids, &third.bits)?;
    let second = frontier.take_batch(rt.alloc())?;
    assert!(rt; are_marked(second.as_slice(), &[(tid(3), false), (tid(2), true)]));
    let none = frontier.take_batch(rt.alloc())?;
    assert!(rt; none.is_empty());
    Ok(())
}
