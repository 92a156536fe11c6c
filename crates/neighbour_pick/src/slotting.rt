//! The choice of the slot that a new neighbour takes.

ghost use Rattle.std.specs.Prelude.{◌≡◌, ◌<◌, ◌≤◌, List, ◌∷◌, ◌+◌, map, length, not, is_none, IsTrue, IfSome, IfNone};
ghost use Rattle.std.specs.List.{All, insert, list_any, position};
ghost use Rattle.std.specs.Option.{option_map};
ghost use Rattle.arrayvec.specs.ArrayVec.{array_vec_len};
ghost use Rattle.list_values.specs.Ranking.{placed};
ghost use Rattle.neighbour_pick.specs.Order.{candidate_of};
ghost use Rattle.neighbour_pick.specs.Selection.{is_far};
ghost use Rattle.neighbour_pick.specs.Slots.{Rival, is_named, left_out, rivals, slot_left, slot_of};
ghost use Rattle.neighbour_pick.specs.Standing.{rival_at, is_before, rivals_from, last_near};

use crate::farther::is_farther;
use crate::{Found, SlotSeen};
use arrayvec::ArrayVec;
use bit_code::Bits;
use bit_dist::{Dist, distance};
use vec_names::{Ops, Tid};

// The numbers of rivals: at most 200 members, and the entrant.
type Numbers = ArrayVec<u8, 201>;

/// The slot of a list of neighbours that an entrant takes, if any, as pgvector chooses it. It takes no memory.
///
/// None where a slot names the entrant; else the lowest slot that is empty; else the lowest whose member is not live. Else
/// one of members and entrant is left out, and the answer is its slot, or None where it is the entrant. They are gone
/// through by distance and then by place, equal members in the order of their slots. One is far where its distance to each
/// far one before it is greater than its own; the last that is not far is left out, or the last of all where all are far.
///
/// Distances are to the list's owner. The value and distance of a member that is not live are not looked at.
pub fn slot_for(ops: Ops, slots: &[SlotSeen], entrant: &Found) -> Option<u16>
    requires some { 1 ≤ length slots.now }
    requires few { length slots.now ≤ 200 }
    requires one_length { All (λ slot. IsTrue slot.live → length slot.bits ≡ length entrant.now.bits) slots.now }
    ensures { result ≡ slot_of ops slots.now (candidate_of entrant.now) }
{
    if is_named_by(slots, entrant.at) {
        return None;
    }
    if let Some(empty) = first_empty(slots) {
        return Some(empty as u16);
    }
    if let Some(gone) = first_gone(slots) {
        return Some(gone as u16);
    }
    slot_of_left_out(ops, slots, entrant)
}

// Whether a slot names this place.
fn is_named_by(slots: &[SlotSeen], at: Tid) -> bool
    ensures { result ≡ list_any (λ slot. is_named at slot.at) slots.now }
{
    for slot in slots {
        if names(slot, at) {
            return true;
        }
    }
    false
}

fn names(slot: &SlotSeen, at: Tid) -> bool
    ensures { result ≡ is_named at slot.now.at }
{
    match slot.at {
        Some(other) => at.cmp(&other).is_eq(),
        None => false,
    }
}

// The lowest slot without a member.
fn first_empty(slots: &[SlotSeen]) -> Option<usize>
    ensures first { result ≡ position (λ slot. is_none slot.at) slots.now }
    ensures within { IfSome result (λ k. k < length slots.now) }
{
    slots.iter().position(|slot| slot.at.is_none())
}

// The lowest slot whose member is not live.
fn first_gone(slots: &[SlotSeen]) -> Option<usize>
    ensures first { result ≡ position (λ slot. not slot.live) slots.now }
    ensures within { IfSome result (λ k. k < length slots.now) }
    ensures none { IfNone result (All (λ slot. IsTrue slot.live) slots.now) }
{
    slots.iter().position(|slot| !slot.live)
}

// The slot of the one that is left out, if it has one.
fn slot_of_left_out(ops: Ops, slots: &[SlotSeen], entrant: &Found) -> Option<u16>
    requires few { length slots.now ≤ 200 }
    requires one_length { All (λ slot. length slot.bits ≡ length entrant.now.bits) slots.now }
    ensures { result ≡ slot_left (left_out ops (rivals slots.now (candidate_of entrant.now))) }
{
    let order = rank(slots, entrant);
    match find_left_out(ops, slots, entrant, &order) {
        Some(k) => slot_number(slots, entrant, k),
        None => None,
    }
}

// The numbers of the rivals in order. The slots are placed from the last to the first, so that of equal members that of
// the first slot stands first.
fn rank(slots: &[SlotSeen], entrant: &Found) -> Numbers
    requires { length slots.now ≤ 200 }
    ensures ranked { map (rival_at slots.now (candidate_of entrant.now)) result.items ≡ rivals slots.now (candidate_of entrant.now) }
{
    let mut order = Numbers::new();
    order.push(slots.len() as u8);
    for k in (0..slots.len()).rev() {
        rank_one(slots, entrant, k as u8, &mut order);
    }
    order
}

// Places the member of one slot, if it has one, among those of the slots behind it.
fn rank_one(slots: &[SlotSeen], entrant: &Found, k: u8, order: &mut Numbers)
    requires within { k < length slots.now }
    requires room { array_vec_len order.old < 201 }
    requires before { map (rival_at slots.now (candidate_of entrant.now)) order.old.items
        ≡ rivals_from slots.now (candidate_of entrant.now) (k + 1) }
    ensures one_more { array_vec_len order.new ≤ array_vec_len order.old + 1 }
    ensures after { map (rival_at slots.now (candidate_of entrant.now)) order.new.items
        ≡ rivals_from slots.now (candidate_of entrant.now) k }
{
    if slots[k as usize].at.is_none() {
        return;
    }
    let place = place_in(slots, entrant, order, k);
    order.insert(place, k);
}

// Where a rival stands among these, which are in order: before the first that does not come before it.
fn place_in(slots: &[SlotSeen], entrant: &Found, order: &[u8], k: u8) -> usize
    ensures within { result ≤ length order.now }
    ensures placed { let rival = rival_at slots.now (candidate_of entrant.now) in
        map rival (insert order.now result k) ≡ placed is_before (rival k) (map rival order.now) }
{
    for (i, other) in order.iter().enumerate() {
        if !comes_before(slots, entrant, *other, k) {
            return i;
        }
    }
    order.len()
}

// Whether one rival comes before another: by distance, and where these are equal by place.
fn comes_before(slots: &[SlotSeen], entrant: &Found, one: u8, other: u8) -> bool
    ensures { let rival = rival_at slots.now (candidate_of entrant.now) in result ≡ is_before (rival one) (rival other) }
{
    let (at, dist) = standing(slots, entrant, one);
    let (other_at, other_dist) = standing(slots, entrant, other);
    dist.cmp(&other_dist).then(at.cmp(&other_at)).is_lt()
}

// The number of the one left out: of rivals in order, the last that is not far from the far ones before it, or the last of all.
fn find_left_out(ops: Ops, slots: &[SlotSeen], entrant: &Found, order: &[u8]) -> Option<u8>
    requires few { length order.now ≤ 201 }
    requires one_length { All (λ slot. length slot.bits ≡ length entrant.now.bits) slots.now }
    ensures { let rival = rival_at slots.now (candidate_of entrant.now) in option_map rival result ≡ left_out ops (map rival order.now) }
{
    let mut far = Numbers::new();
    let mut near = None;
    for k in order {
        near = weigh(ops, slots, entrant, *k, &mut far, near);
    }
    match near {
        Some(k) => Some(k),
        None => order.last().copied(),
    }
}

// The last that is not far, once this one is looked at too; where it is far, it joins the far ones.
fn weigh(
    ops: Ops,
    slots: &[SlotSeen],
    entrant: &Found,
    k: u8,
    far: &mut Numbers,
    near: Option<u8>,
) -> Option<u8>
    requires room { array_vec_len far.old < 201 }
    requires one_length { All (λ slot. length slot.bits ≡ length entrant.now.bits) slots.now }
    ensures one_more { array_vec_len far.new ≤ array_vec_len far.old + 1 }
    ensures weighed { (rest : List Rival) → let rival = rival_at slots.now (candidate_of entrant.now) in
        last_near ops (map rival far.new.items) rest (option_map rival result)
        ≡ last_near ops (map rival far.old.items) (rival k ∷ rest) (option_map rival near) }
{
    if !is_far_rival(ops, slots, entrant, far, k) {
        return Some(k);
    }
    far.push(k);
    near
}

// Whether a rival is farther from each of these than from the owner.
fn is_far_rival(ops: Ops, slots: &[SlotSeen], entrant: &Found, others: &[u8], k: u8) -> bool
    requires { All (λ slot. length slot.bits ≡ length entrant.now.bits) slots.now }
    ensures { let rival = rival_at slots.now (candidate_of entrant.now) in
        result ≡ is_far ops (map (λ r. r.is) (map rival others.now)) (rival k).is }
{
    let (_at, dist) = standing(slots, entrant, k);
    let own = value(slots, entrant, k);
    for other in others {
        let between = distance(ops, value(slots, entrant, *other), own);
        if !is_farther(between, dist) {
            return false;
        }
    }
    true
}

// Where a rival stands, and its distance to the owner.
fn standing(slots: &[SlotSeen], entrant: &Found, k: u8) -> (Tid, Dist)
    ensures at { result.0 ≡ (rival_at slots.now (candidate_of entrant.now) k).is.at }
    ensures dist { result.1 ≡ (rival_at slots.now (candidate_of entrant.now) k).is.dist }
{
    if let Some(slot) = slots.get(usize::from(k)) {
        if let Some(at) = slot.at {
            return (at, slot.dist);
        }
    }
    (entrant.at, entrant.dist)
}

// A rival's value.
fn value<'a>(slots: &'a [SlotSeen], entrant: &'a Found, k: u8) -> &'a Bits
    requires { All (λ slot. length slot.bits ≡ length entrant.now.bits) slots.now }
    ensures bits { result.now ≡ (rival_at slots.now (candidate_of entrant.now) k).is.bits }
    ensures one_length { length result.now ≡ length entrant.now.bits }
{
    if let Some(slot) = slots.get(usize::from(k)) {
        if slot.at.is_some() {
            return &slot.bits;
        }
    }
    &entrant.bits
}

// The slot of a rival, which the entrant has none of.
fn slot_number(slots: &[SlotSeen], entrant: &Found, k: u8) -> Option<u16>
    ensures { result ≡ (rival_at slots.now (candidate_of entrant.now) k).slot }
{
    if let Some(slot) = slots.get(usize::from(k)) {
        if slot.at.is_some() {
            return Some(u16::from(k));
        }
    }
    None
}
