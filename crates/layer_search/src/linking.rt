//! The links back to a new node.

ghost use Rattle.std.specs.Prelude.{◌≡◌, ◌<◌, ◌≤◌, [], IfOk, IfErr, OnOk, length};
ghost use Rattle.vec_names.specs.Params.{IsInRange};
ghost use Rattle.vec_names.specs.declared.params.Kind.TheVariants.{Hnsw};
ghost use Rattle.neighbour_pick.specs.Order.{candidate_of};
ghost use Rattle.graph_search.specs.Insert.{entrant_to, most_in};
ghost use Rattle.search_sets.specs.Standing.{spot_of};
ghost use Rattle.vec_steps.specs.Calls.{Goes};
ghost use Rattle.layer_search.specs.Telling.{OverSpots};
ghost use Rattle.layer_search.specs.Looking.{EndedBy};
ghost use Rattle.layer_search.specs.Listing.{ArePicksLong};
ghost use Rattle.layer_search.specs.Linking.{AsksLink, LooksSlot, LooksSlots, OverLink, OverLinks};
ghost use Rattle.layer_search.specs.Linking.{ChoosesSlot, LinksAll, StoppedBy, TriesOne, TriedSo, target_of};

use crate::back::{Back, LinkRoom, Tried};
use crate::found_lists::FoundLists;
use crate::looking::{look_at_list, look_at_node};
use crate::seeing::{held_at, links_of, see_empty, see_told, take_slots, tried_of};
use bit_code::Bits;
use bit_dist::distance;
use neighbour_pick::{Found, slot_for};
use search_sets::Spot;
use std::alloc::Global;
use vec_names::Tid;
use vec_steps::{Ask, OpFault, Steps, Trace, Word};

/// Lets the neighbours of a new node at a place name it: the last part of Algorithm 1 of the HNSW paper. Each neighbour, from the
/// highest layer to the lowest and in the order of the slots, is looked at in its layer with its members, a slot is chosen as
/// pgvector does, and it is asked to name the node there. Where that slot was changed meanwhile the list is read and the choice is
/// made again, at most three times in all; a neighbour that is gone, or is not as it was read, is left out.
///
/// `bits` is the node's value, and `lists` are those that were found for it. Where the desk holds Update, knows the node in the layer
/// of each neighbour, and the neighbours stand as they were told, all that it asks is allowed. It answers the number of links that
/// were made. The looks that it made come to the end of `trace`.
///
/// Its own acts are the links. Its errors are `Memory`; `LogFull` where the log has no room for a link; and `Disk`, which leaves an
/// act. Links that were made before stand.
pub fn link_back<S: Steps>(
    alloc: Global,
    steps: &mut S,
    at: Tid,
    bits: &Bits,
    lists: &FoundLists,
    trace: &mut Trace,
) -> Result<u32, OpFault>
    requires params { IsInRange (S.desk steps.old).params }
    requires nodes { (S.desk steps.old).params.kind ≡ Hnsw }
    requires bits { length bits.now ≡ (S.desk steps.old).params.bits }
    requires long { ArePicksLong (S.desk steps.old).params.bits lists.now.picks }
    ensures goes { Goes S.desk S.stands S.comes_from
        (OverLinks (S.stands steps.old) (S.desk steps.old) (S.seen steps.old) at lists.now.picks) steps.old steps.new }
    ensures ok { IfOk result (LinksAll (OverLinks (S.stands steps.old) (S.desk steps.old) (S.seen steps.old) at lists.now.picks)
        (S.desk steps.old) (S.seen steps.old) (S.seen steps.new) trace.old.reads trace.new.reads
        (record { ops = (S.desk steps.old).params.ops; at = at; bits = bits.now }) lists.now.picks) }
    ensures err { IfErr result (StoppedBy at (OverLinks (S.stands steps.old) (S.desk steps.old) (S.seen steps.old) at lists.now.picks)
        (S.desk steps.old) (S.seen steps.old) (S.seen steps.new)) }
{
    let params = steps.params();
    let mut room = LinkRoom::make(alloc, params, at, bits)?;
    let back = Back {
        ops: params.ops,
        m: params.m,
        at,
        layer: 0,
    };
    let count = link_all(steps, lists.picks.as_slice(), back, &mut room, trace)?;
    Ok(count)
}

// Links the neighbours, each in its layer.
fn link_all<S: Steps>(
    steps: &mut S,
    picks: &[(u8, Found)],
    back: Back,
    room: &mut LinkRoom,
    trace: &mut Trace,
) -> Result<u32, OpFault>
    requires some { 1 ≤ back.m }
    requires few { back.m ≤ 100 }
    requires m { back.m ≡ (S.desk steps.old).params.m }
    requires told { length room.old.told.bits ≡ (S.desk steps.old).params.bits }
    requires at { room.old.entrant.at ≡ back.at }
    requires bits { length room.old.entrant.bits ≡ (S.desk steps.old).params.bits }
    requires long { ArePicksLong (S.desk steps.old).params.bits picks.now }
    ensures goes { Goes S.desk S.stands S.comes_from
        (OverLinks (S.stands steps.old) (S.desk steps.old) (S.seen steps.old) back.at picks.now) steps.old steps.new }
    ensures ok { IfOk result (LinksAll (OverLinks (S.stands steps.old) (S.desk steps.old) (S.seen steps.old) back.at picks.now)
        (S.desk steps.old) (S.seen steps.old) (S.seen steps.new) trace.old.reads trace.new.reads
        (target_of back room.old.entrant.bits) picks.now) }
    ensures err { IfErr result (StoppedBy back.at (OverLinks (S.stands steps.old) (S.desk steps.old) (S.seen steps.old) back.at picks.now)
        (S.desk steps.old) (S.seen steps.old) (S.seen steps.new)) }
{
    let mut count = 0u32;
    for k in 0..picks.len() {
        let pick = &picks[k];
        let here = Back {
            layer: pick.0,
            ..back
        };
        let one = link_one(steps, &pick.1, here, room, trace)?;
        let Some(sum) = count.checked_add(one) else {
            return Err(OpFault::Memory);
        };
        count = sum;
    }
    Ok(count)
}

// Links one neighbour in the layer of `back`.
fn link_one<S: Steps>(
    steps: &mut S,
    element: &Found,
    back: Back,
    room: &mut LinkRoom,
    trace: &mut Trace,
) -> Result<u32, OpFault>
    requires some { 1 ≤ back.m }
    requires few { back.m ≤ 100 }
    requires m { back.m ≡ (S.desk steps.old).params.m }
    requires told { length room.old.told.bits ≡ (S.desk steps.old).params.bits }
    requires at { room.old.entrant.at ≡ back.at }
    requires bits { length room.old.entrant.bits ≡ (S.desk steps.old).params.bits }
    requires long { length element.now.bits ≡ (S.desk steps.old).params.bits }
    ensures goes { Goes S.desk S.stands S.comes_from
        (OverLink (S.stands steps.old) (S.desk steps.old) (S.seen steps.old) back.at back.layer element.now) steps.old steps.new }
    ensures told { length room.new.told.bits ≡ (S.desk steps.old).params.bits }
    ensures at { room.new.entrant.at ≡ room.old.entrant.at }
    ensures bits { room.new.entrant.bits ≡ room.old.entrant.bits }
    ensures ok { IfOk result (TriesOne (OverLink (S.stands steps.old) (S.desk steps.old) (S.seen steps.old) back.at back.layer element.now)
        (S.desk steps.old) (S.seen steps.old) (S.seen steps.new) trace.old.reads trace.new.reads
        (target_of back room.old.entrant.bits) element.now back.layer 3) }
    ensures err { IfErr result (StoppedBy back.at
        (OverLink (S.stands steps.old) (S.desk steps.old) (S.seen steps.old) back.at back.layer element.now)
        (S.desk steps.old) (S.seen steps.old) (S.seen steps.new)) }
{
    room.entrant.dist = distance(back.ops, &element.bits, &room.entrant.bits);
    let made = try_thrice(steps, element, back, room, trace)?;
    Ok(made)
}

// Tries a neighbour at most three times. The entrant is as this one sees it.
fn try_thrice<S: Steps>(
    steps: &mut S,
    element: &Found,
    back: Back,
    room: &mut LinkRoom,
    trace: &mut Trace,
) -> Result<u32, OpFault>
    requires some { 1 ≤ back.m }
    requires few { back.m ≤ 100 }
    requires m { back.m ≡ (S.desk steps.old).params.m }
    requires told { length room.old.told.bits ≡ (S.desk steps.old).params.bits }
    requires bits { length room.old.entrant.bits ≡ (S.desk steps.old).params.bits }
    requires long { length element.now.bits ≡ (S.desk steps.old).params.bits }
    requires entrant { candidate_of room.old.entrant ≡ entrant_to (target_of back room.old.entrant.bits) element.now }
    ensures goes { Goes S.desk S.stands S.comes_from
        (OverLink (S.stands steps.old) (S.desk steps.old) (S.seen steps.old) back.at back.layer element.now) steps.old steps.new }
    ensures told { length room.new.told.bits ≡ (S.desk steps.old).params.bits }
    ensures entrant { room.new.entrant ≡ room.old.entrant }
    ensures ok { IfOk result (TriesOne (OverLink (S.stands steps.old) (S.desk steps.old) (S.seen steps.old) back.at back.layer element.now)
        (S.desk steps.old) (S.seen steps.old) (S.seen steps.new) trace.old.reads trace.new.reads
        (target_of back room.old.entrant.bits) element.now back.layer 3) }
    ensures err { IfErr result (StoppedBy back.at
        (OverLink (S.stands steps.old) (S.desk steps.old) (S.seen steps.old) back.at back.layer element.now)
        (S.desk steps.old) (S.seen steps.old) (S.seen steps.new)) }
{
    let mut left = 3u8;
    'tries: while left > 0 {
        let tried = try_link(steps, element, back, room, trace)?;
        let Tried::Again = tried else {
            return Ok(links_of(tried));
        };
        left -= 1;
    }
    Ok(0)
}

// One try at a neighbour.
fn try_link<S: Steps>(
    steps: &mut S,
    element: &Found,
    back: Back,
    room: &mut LinkRoom,
    trace: &mut Trace,
) -> Result<Tried, OpFault>
    requires some { 1 ≤ back.m }
    requires few { back.m ≤ 100 }
    requires m { back.m ≡ (S.desk steps.old).params.m }
    requires told { length room.old.told.bits ≡ (S.desk steps.old).params.bits }
    requires bits { length room.old.entrant.bits ≡ (S.desk steps.old).params.bits }
    requires long { length element.now.bits ≡ (S.desk steps.old).params.bits }
    requires entrant { candidate_of room.old.entrant ≡ entrant_to (target_of back room.old.entrant.bits) element.now }
    ensures goes { Goes S.desk S.stands S.comes_from
        (OverLink (S.stands steps.old) (S.desk steps.old) (S.seen steps.old) back.at back.layer element.now) steps.old steps.new }
    ensures told { length room.new.told.bits ≡ (S.desk steps.old).params.bits }
    ensures entrant { room.new.entrant ≡ room.old.entrant }
    ensures ok { IfOk result (TriedSo (OverLink (S.stands steps.old) (S.desk steps.old) (S.seen steps.old) back.at back.layer element.now)
        (S.desk steps.old) (S.seen steps.old) (S.seen steps.new) trace.old.reads trace.new.reads
        (target_of back room.old.entrant.bits) element.now back.layer) }
    ensures err { IfErr result (StoppedBy back.at
        (OverLink (S.stands steps.old) (S.desk steps.old) (S.seen steps.old) back.at back.layer element.now)
        (S.desk steps.old) (S.seen steps.old) (S.seen steps.new)) }
{
    let Some(slot) = choose_slot(steps, element, back, room, trace)? else {
        return Ok(Tried::Over);
    };
    let tried = ask_link(steps, element, back, slot, room)?;
    Ok(tried)
}

// Looks at a neighbour's list and at its members, and chooses a slot.
fn choose_slot<S: Steps>(
    steps: &mut S,
    element: &Found,
    back: Back,
    room: &mut LinkRoom,
    trace: &mut Trace,
) -> Result<Option<u16>, OpFault>
    requires some { 1 ≤ back.m }
    requires few { back.m ≤ 100 }
    requires told { length room.old.told.bits ≡ (S.desk steps.old).params.bits }
    requires bits { length room.old.entrant.bits ≡ (S.desk steps.old).params.bits }
    requires long { length element.now.bits ≡ (S.desk steps.old).params.bits }
    requires entrant { candidate_of room.old.entrant ≡ entrant_to (target_of back room.old.entrant.bits) element.now }
    ensures goes { Goes S.desk S.stands S.comes_from
        (OverLink (S.stands steps.old) (S.desk steps.old) (S.seen steps.old) back.at back.layer element.now) steps.old steps.new }
    ensures told { length room.new.told.bits ≡ (S.desk steps.old).params.bits }
    ensures entrant { room.new.entrant ≡ room.old.entrant }
    ensures ok { IfOk result (ChoosesSlot
        (OverLink (S.stands steps.old) (S.desk steps.old) (S.seen steps.old) back.at back.layer element.now)
        (S.desk steps.old) (S.seen steps.old) (S.seen steps.new) trace.old.reads trace.new.reads
        (target_of back room.old.entrant.bits) element.now back.layer back.m room.new.tids) }
    ensures err { IfErr result (EndedBy
        (OverLink (S.stands steps.old) (S.desk steps.old) (S.seen steps.old) back.at back.layer element.now)
        (S.desk steps.old) (S.seen steps.old) (S.seen steps.new)) }
{
    look_at_list(steps, spot_at(element), back.layer, &mut room.told, trace)?;
    let Word::List = room.told.word else {
        return Ok(None);
    };
    take_slots(back, room)?;
    look_at_slots(steps, &element.bits, back, room, trace)?;
    Ok(slot_for(back.ops, room.seen.as_slice(), &room.entrant))
}

// Where an element stands.
fn spot_at(element: &Found) -> Spot
    ensures { result ≡ spot_of element.now }
{
    Spot {
        at: element.at,
        list_at: element.list_at,
        level: element.level,
        version: element.version,
    }
}

// Looks at the members of the slots that were taken, of which none is seen yet.
fn look_at_slots<S: Steps>(
    steps: &mut S,
    owner: &Bits,
    back: Back,
    room: &mut LinkRoom,
    trace: &mut Trace,
) -> Result<(), OpFault>
    requires told { length room.old.told.bits ≡ (S.desk steps.old).params.bits }
    requires owner { length owner.now ≡ (S.desk steps.old).params.bits }
    requires none { room.old.seen ≡ [] }
    ensures goes { Goes S.desk S.stands S.comes_from (OverSpots (S.stands steps.old) (S.seen steps.old) back.layer []) steps.old steps.new }
    ensures told { length room.new.told.bits ≡ (S.desk steps.old).params.bits }
    ensures tids { room.new.tids ≡ room.old.tids }
    ensures entrant { room.new.entrant ≡ room.old.entrant }
    ensures ok { OnOk result (LooksSlots (OverSpots (S.stands steps.old) (S.seen steps.old) back.layer []) (S.desk steps.old)
        (S.seen steps.old) (S.seen steps.new) trace.old.reads trace.new.reads back.ops owner.now back.layer room.old.tids room.new.seen) }
    ensures err { IfErr result (EndedBy (OverSpots (S.stands steps.old) (S.seen steps.old) back.layer []) (S.desk steps.old)
        (S.seen steps.old) (S.seen steps.new)) }
{
    for k in 0..room.tids.len() {
        let slot = room.tids.as_slice()[k];
        look_at_slot(steps, owner, (back, slot), room, trace)?;
    }
    Ok(())
}

// Looks at the member of a slot, if it has one, and puts the slot last as it is seen.
fn look_at_slot<S: Steps>(
    steps: &mut S,
    owner: &Bits,
    what: (Back, Option<Tid>),
    room: &mut LinkRoom,
    trace: &mut Trace,
) -> Result<(), OpFault>
    requires told { length room.old.told.bits ≡ (S.desk steps.old).params.bits }
    requires owner { length owner.now ≡ (S.desk steps.old).params.bits }
    ensures goes { Goes S.desk S.stands S.comes_from (OverSpots (S.stands steps.old) (S.seen steps.old) what.0.layer [])
        steps.old steps.new }
    ensures told { length room.new.told.bits ≡ (S.desk steps.old).params.bits }
    ensures tids { room.new.tids ≡ room.old.tids }
    ensures entrant { room.new.entrant ≡ room.old.entrant }
    ensures ok { OnOk result (LooksSlot (OverSpots (S.stands steps.old) (S.seen steps.old) what.0.layer []) (S.desk steps.old)
        (S.seen steps.old) (S.seen steps.new) trace.old.reads trace.new.reads what.0.ops owner.now what.0.layer what.1
        room.old.seen room.new.seen) }
    ensures err { IfErr result (EndedBy (OverSpots (S.stands steps.old) (S.seen steps.old) what.0.layer []) (S.desk steps.old)
        (S.seen steps.old) (S.seen steps.new)) }
{
    let back = what.0;
    let Some(at) = what.1 else {
        see_empty(back, owner, room)?;
        return Ok(());
    };
    look_at_node(steps, at, back.layer, None, &mut room.told, trace)?;
    see_told(back, owner, at, room)?;
    Ok(())
}

// Asks a neighbour to name the newcomer in a slot of the layer.
fn ask_link<S: Steps>(
    steps: &mut S,
    element: &Found,
    back: Back,
    slot: u16,
    room: &mut LinkRoom,
) -> Result<Tried, OpFault>
    requires m { back.m ≡ (S.desk steps.old).params.m }
    requires slot { slot < most_in back.m back.layer }
    requires told { length room.old.told.bits ≡ (S.desk steps.old).params.bits }
    ensures goes { Goes S.desk S.stands S.comes_from
        (OverLink (S.stands steps.old) (S.desk steps.old) (S.seen steps.old) back.at back.layer element.now) steps.old steps.new }
    ensures told { length room.new.told.bits ≡ (S.desk steps.old).params.bits }
    ensures entrant { room.new.entrant ≡ room.old.entrant }
    ensures ok { IfOk result (AsksLink
        (OverLink (S.stands steps.old) (S.desk steps.old) (S.seen steps.old) back.at back.layer element.now)
        (S.desk steps.old) (S.seen steps.old) (S.seen steps.new) back.at element.now back.layer slot room.old.tids) }
    ensures err { IfErr result (StoppedBy back.at
        (OverLink (S.stands steps.old) (S.desk steps.old) (S.seen steps.old) back.at back.layer element.now)
        (S.desk steps.old) (S.seen steps.old) (S.seen steps.new)) }
{
    let mut ask = Ask::Link {
        at: element.at,
        list_at: element.list_at,
        level: element.level,
        version: element.version,
        layer: back.layer,
        slot,
        held: held_at(room.tids.as_slice(), slot),
        to: back.at,
    };
    steps.step(&mut ask, &mut room.told)?;
    Ok(tried_of(room.told.word))
}
