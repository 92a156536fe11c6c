ghost use Rattle.std.specs.Prelude.{◌≡◌, map, length, IsTrue};
ghost use Rattle.std.specs.List.{All};
ghost use Rattle.std.specs.List.Sorted.{IsSortedBy};
ghost use Rattle.neighbour_pick.specs.Order.{candidate_of, is_nearer, HaveOneLength};

use super::*;
use arrayvec::ArrayVec;
use bit_code::read_bits;
use bit_dist::Dist;
use std::alloc::Global;
use std::test::Fail;
use vec_names::{Ops, Tid};

// The laws need nothing.
#[test]
fn laws_of_choice() {
    law_selection();
    law_slots();
    law_equal_members();
}

// An element: the block on which it stands, its value, and its distance to what is looked for, over the last number.
type Element = (u32, &'static str, u32, u32);

// Elements in order, with the places that are picked of them for each count. All distances were worked out by hand.
const PICKS: [(Ops, &[Element], &[(u32, &[u32])]); 9] = [
    // For 0000. 0010 is as near as 0001 and 2 from it; 0011 is 1 and 1111 is 3 from 0001, which is no more than their own 2 and 4.
    (
        Ops::Hamming,
        &[
            (1, "0001", 1, 1),
            (2, "0010", 1, 1),
            (3, "0011", 2, 1),
            (4, "1111", 4, 1),
        ],
        &[
            (0, &[]),
            (1, &[0]),
            (2, &[0, 1]),
            (3, &[0, 1, 2]),
            (4, &[0, 1, 2, 3]),
            (9, &[0, 1, 2, 3]),
        ],
    ),
    // For 0000. 0011 is 1 from 0001, 1100 is 3 from it, and 0111 is 2 from it: the second and the fourth are set aside.
    (
        Ops::Hamming,
        &[
            (1, "0001", 1, 1),
            (2, "0011", 2, 1),
            (3, "1100", 2, 1),
            (4, "0111", 3, 1),
        ],
        &[
            (1, &[0]),
            (2, &[0, 2]),
            (3, &[0, 2, 1]),
            (4, &[0, 2, 1, 3]),
            (u32::MAX, &[0, 2, 1, 3]),
        ],
    ),
    // For 000000. 110010 is 3 from 000011, which is its own distance, but that one was set aside; it is 4 from 000001.
    (
        Ops::Hamming,
        &[
            (1, "000001", 1, 1),
            (2, "000011", 2, 1),
            (3, "110010", 3, 1),
        ],
        &[(2, &[0, 2]), (3, &[0, 2, 1])],
    ),
    // For 0000. 0110 is 2 from 0011, which is its own distance and so not greater; 1100 is 4 from 0011.
    (
        Ops::Hamming,
        &[(1, "0011", 2, 1), (2, "0110", 2, 1), (3, "1100", 2, 1)],
        &[(2, &[0, 2]), (3, &[0, 2, 1])],
    ),
    // For 0000. All are 1 from it, and 2 from each other.
    (
        Ops::Hamming,
        &[(3, "0100", 1, 1), (5, "0001", 1, 1), (8, "0010", 1, 1)],
        &[(2, &[0, 1]), (3, &[0, 1, 2]), (4, &[0, 1, 2])],
    ),
    // For 0000. Each is one place more than the one before, so none is far but the first.
    (
        Ops::Hamming,
        &[
            (1, "0001", 1, 1),
            (2, "0011", 2, 1),
            (3, "0111", 3, 1),
            (4, "1111", 4, 1),
        ],
        &[(1, &[0]), (3, &[0, 1, 2])],
    ),
    // For 0000. What is looked for is there: each other one is as far from it as its own distance.
    (
        Ops::Hamming,
        &[(7, "0000", 0, 1), (1, "0001", 1, 1), (2, "0010", 1, 1)],
        &[(1, &[0]), (2, &[0, 1])],
    ),
    // For 1111. 1100 is 1/3 from 1110, which is less than its own 2/4; 0011 is 3/4 from it.
    (
        Ops::Jaccard,
        &[(1, "1110", 1, 4), (2, "1100", 2, 4), (3, "0011", 2, 4)],
        &[(2, &[0, 2]), (3, &[0, 2, 1])],
    ),
    (Ops::Hamming, &[], &[(0, &[]), (3, &[])]),
];

fn found_at(alloc: Global, element: Element) -> Result<Found, Fail> {
    let (block, value, num, den) = element;
    let at = place(block)?;
    Ok(Found {
        at,
        list_at: at,
        level: 0,
        version: 1,
        dist: dist_of(num, den)?,
        ids: ArrayVec::new(),
        bits: read_bits(alloc, value)?,
    })
}

fn all_found(alloc: Global, elements: &[Element]) -> Result<Vec<Found>, Fail> {
    let mut found = Vec::new(alloc);
    for element in elements {
        found.push(found_at(alloc, *element)?)?;
    }
    Ok(found)
}

fn place(block: u32) -> Result<Tid, Fail> {
    match Tid::new(block, 1) {
        Some(at) => Ok(at),
        None => Err(Fail::new("no place")),
    }
}

fn dist_of(num: u32, den: u32) -> Result<Dist, Fail> {
    if den == 0 {
        return Err(Fail::new("no fraction"));
    }
    Ok(Dist { num, den })
}

fn are_in_order(found: &[Found]) -> bool
    ensures { IsTrue result → IsSortedBy is_nearer (map candidate_of found.now) }
{
    for i in 1..found.len() {
        if is_before(&found[i], &found[i - 1]) {
            return false;
        }
    }
    true
}

fn is_before(one: &Found, other: &Found) -> bool
    ensures { result ≡ is_nearer (candidate_of one.now) (candidate_of other.now) }
{
    one.dist
        .cmp(&other.dist)
        .then(one.at.cmp(&other.at))
        .is_lt()
}

fn have_one_length(found: &[Found]) -> bool
    ensures { IsTrue result → HaveOneLength found.now }
{
    match found.first() {
        Some(first) => have_length(found, first.bits.count()),
        None => true,
    }
}

fn have_length(found: &[Found], places: u32) -> bool
    ensures { IsTrue result → All (λ one. length one.bits ≡ places) found.now }
{
    found.iter().all(|one| one.bits.count() == places)
}

#[test]
fn neighbours_are_picked(rt: HostRuntime) -> Result<(), Fail> {
    for (ops, elements, counts) in PICKS {
        let found = all_found(rt.alloc(), elements)?;
        assert!(rt; are_in_order(&found) && have_one_length(&found) && found.len() < 9);
        for (count, want) in counts {
            let picked = pick(rt.alloc(), ops, &found, *count)?;
            assert!(rt; picked.as_slice() == *want, "{count} of {elements:?}");
        }
    }
    Ok(())
}

// A slot: the block of its member, if it has one, whether that is live, its value, and its distance to the owner.
type Slot = (Option<u32>, bool, &'static str, u32, u32);

// Slots and an entrant, with the slot that it takes.
const SLOTS: [(Ops, &[Slot], Element, Option<u16>); 17] = [
    // The owner is 0000. A slot names the entrant, and another one is empty.
    (
        Ops::Hamming,
        &[(None, false, "0", 0, 1), (Some(9), true, "0001", 1, 1)],
        (9, "0001", 1, 1),
        None,
    ),
    // The lowest empty slot, also where a lower one's member is not live.
    (
        Ops::Hamming,
        &[
            (Some(1), true, "0001", 1, 1),
            (None, false, "0", 0, 1),
            (None, false, "0", 0, 1),
        ],
        (9, "0010", 1, 1),
        Some(1),
    ),
    (
        Ops::Hamming,
        &[(Some(1), false, "0", 0, 1), (None, false, "0", 0, 1)],
        (9, "0010", 1, 1),
        Some(1),
    ),
    // The lowest slot whose member is not live.
    (
        Ops::Hamming,
        &[
            (Some(1), true, "0001", 1, 1),
            (Some(2), false, "0", 0, 1),
            (Some(3), false, "0", 0, 1),
        ],
        (9, "0010", 1, 1),
        Some(1),
    ),
    // 0001 and 0010 are 2 from each other; the entrant 0011 is 1 from both, no more than its own 2.
    (
        Ops::Hamming,
        &[(Some(1), true, "0001", 1, 1), (Some(2), true, "0010", 1, 1)],
        (9, "0011", 2, 1),
        None,
    ),
    // 0100, the entrant 0001 and then 0011, which is 1 from the entrant.
    (
        Ops::Hamming,
        &[(Some(1), true, "0011", 2, 1), (Some(2), true, "0100", 1, 1)],
        (9, "0001", 1, 1),
        Some(0),
    ),
    // All are far, and the last by place is left out: the entrant, or a member where the entrant's place comes first.
    (
        Ops::Hamming,
        &[(Some(1), true, "0001", 1, 1), (Some(2), true, "0010", 1, 1)],
        (9, "0100", 1, 1),
        None,
    ),
    (
        Ops::Hamming,
        &[(Some(3), true, "0001", 1, 1), (Some(2), true, "0010", 1, 1)],
        (1, "0100", 1, 1),
        Some(0),
    ),
    // Of two equal members the later one gives way.
    (
        Ops::Hamming,
        &[(Some(1), true, "0011", 2, 1), (Some(1), true, "0011", 2, 1)],
        (9, "0001", 1, 1),
        Some(1),
    ),
    // 0001, the entrant 1000, 0011, 0111: the last two are not far, and the later one of them is left out.
    (
        Ops::Hamming,
        &[
            (Some(1), true, "0111", 3, 1),
            (Some(2), true, "0001", 1, 1),
            (Some(3), true, "0011", 2, 1),
        ],
        (9, "1000", 1, 1),
        Some(0),
    ),
    // The owner is 000000. 000110 is 2 from 000011, its own distance; the others are 4 from it and from each other.
    (
        Ops::Hamming,
        &[
            (Some(1), true, "000011", 2, 1),
            (Some(2), true, "000110", 2, 1),
            (Some(3), true, "110000", 2, 1),
        ],
        (9, "001100", 2, 1),
        Some(1),
    ),
    // 000110 is not far. The entrant is 2 from it, its own distance, and 4 from 000011: only the far ones count.
    (
        Ops::Hamming,
        &[
            (Some(1), true, "000011", 2, 1),
            (Some(2), true, "000110", 2, 1),
        ],
        (9, "001100", 2, 1),
        Some(1),
    ),
    // One slot: its member is left out, or the entrant is, which is near it or, where both are far, comes last.
    (
        Ops::Hamming,
        &[(Some(1), true, "0011", 2, 1)],
        (9, "0001", 1, 1),
        Some(0),
    ),
    (
        Ops::Hamming,
        &[(Some(1), true, "0001", 1, 1)],
        (9, "0011", 2, 1),
        None,
    ),
    (
        Ops::Hamming,
        &[(Some(1), true, "0001", 1, 1)],
        (9, "0010", 1, 1),
        None,
    ),
    // The owner is 1111. 1100 is 1/3 from 1110, less than its own 2/4; the entrant 0011 is 3/4 from 1110, and far.
    (
        Ops::Jaccard,
        &[(Some(1), true, "1110", 1, 4), (Some(2), true, "1100", 2, 4)],
        (9, "0011", 2, 4),
        Some(1),
    ),
    // 1/2 and 2/4 are equal, so place 1 comes before place 9: 1100 is far, and 0110, at 2/3 from it, is too.
    (
        Ops::Jaccard,
        &[(Some(1), true, "1100", 2, 4)],
        (9, "0110", 1, 2),
        None,
    ),
];

fn slot_seen(alloc: Global, slot: Slot) -> Result<SlotSeen, Fail> {
    let (block, live, value, num, den) = slot;
    let at = match block {
        Some(block) => Some(place(block)?),
        None => None,
    };
    Ok(SlotSeen {
        at,
        live,
        dist: dist_of(num, den)?,
        bits: read_bits(alloc, value)?,
    })
}

fn all_seen(alloc: Global, rows: &[Slot]) -> Result<Vec<SlotSeen>, Fail> {
    let mut slots = Vec::new(alloc);
    for row in rows {
        slots.push(slot_seen(alloc, *row)?)?;
    }
    Ok(slots)
}

fn live_are_as_long(slots: &[SlotSeen], entrant: &Found) -> bool
    ensures { IsTrue result → All (λ slot. IsTrue slot.live → length slot.bits ≡ length entrant.now.bits) slots.now }
{
    slots.iter().all(|slot| is_as_long(slot, entrant))
}

fn is_as_long(slot: &SlotSeen, entrant: &Found) -> bool
    ensures { IsTrue result → IsTrue slot.now.live → length slot.now.bits ≡ length entrant.now.bits }
{
    !slot.live || slot.bits.count() == entrant.bits.count()
}

#[test]
fn slots_are_chosen(rt: HostRuntime) -> Result<(), Fail> {
    for (ops, rows, element, want) in SLOTS {
        let slots = all_seen(rt.alloc(), rows)?;
        let entrant = found_at(rt.alloc(), element)?;
        assert!(rt; live_are_as_long(&slots, &entrant) && !slots.is_empty() && slots.len() < 9);
        assert_eq!(rt;
            slot_for(ops, &slots, &entrant),
            want,
            "{element:?} to {rows:?}"
        );
    }
    Ok(())
}

// The owner is 0000, every member 0011, and the entrant 0001: all members are 1 from the entrant. The member of the last
// place gives way: that of the last slot where places rise, and of the first where they fall.
#[test]
fn a_list_may_have_200_slots(rt: HostRuntime) -> Result<(), Fail> {
    for (falls, want) in [(false, 199), (true, 0)] {
        let mut slots = Vec::new(rt.alloc());
        for k in 0..200 {
            let block = if falls { 200 - k } else { k };
            slots.push(slot_seen(rt.alloc(), (Some(block), true, "0011", 2, 1))?)?;
        }
        let entrant = found_at(rt.alloc(), (900, "0001", 1, 1))?;
        assert!(rt; live_are_as_long(&slots, &entrant) && slots.len() == 200);
        assert_eq!(rt; slot_for(Ops::Hamming, &slots, &entrant), Some(want));
    }
    Ok(())
}
