// The neighbours of one layer, among the elements that a search of it found.
#![tactic(auto)]

ghost use Rattle.std.specs.Prelude.{◌≡◌, ◌-◌, ◌*◌, ◌<◌, ◌^◌, ◌++◌, ◌∷◌, [], map, length, replicate, slice_get, OnOk, IfOk, IfErr, Some, None};
ghost use Rattle.std.specs.List.{filter_map};
ghost use Rattle.std.specs.Option.{option_copied};
ghost use Rattle.std.specs.List.Sorted.{IsSortedBy};
ghost use Rattle.neighbour_pick.specs.Order.{HaveOneLength};
ghost use Rattle.graph_search.specs.Search.{is_before};
ghost use Rattle.graph_search.specs.Insert.{without, most_in, no_neighbours};
ghost use Rattle.vec_steps.specs.declared.fault.OpFault.TheVariants.{Memory};
ghost use Rattle.layer_search.specs.Listing.{TakesLayer, newcomer_of, picked_from};

use crate::found_lists::FoundLists;
use crate::plan::Plan;
use neighbour_pick::{Found, pick};
use search_sets::copy_of;
use std::alloc::{AllocError, Global};
use vec_names::{Listed, Tid};
use vec_steps::OpFault;

/// Takes the neighbours of the plan's layer, among those that its search found, into the lists. What was found is where the search
/// of the next layer begins; in the lowest layer it is what stands near.
pub fn add_layer(
    alloc: Global,
    plan: Plan,
    found: Listed<Found>,
    lists: &mut FoundLists,
) -> Result<(), OpFault>
    requires rising { IsSortedBy is_before found }
    requires few { length found < 2 ^ 32 }
    requires one_length { HaveOneLength found }
    ensures ok { OnOk result (TakesLayer (newcomer_of plan []) plan.layer found lists.old lists.new) }
    ensures memory { IfErr result (λ e. e ≡ Memory) }
{
    if plan.layer == 0 {
        add_lowest(alloc, plan, found, lists)
    } else {
        add_above(alloc, plan, found, lists)
    }
}

// In the lowest layer.
fn add_lowest(
    alloc: Global,
    plan: Plan,
    found: Listed<Found>,
    lists: &mut FoundLists,
) -> Result<(), OpFault>
    requires lowest { plan.layer ≡ 0 }
    requires rising { IsSortedBy is_before found }
    requires few { length found < 2 ^ 32 }
    requires one_length { HaveOneLength found }
    ensures ok { OnOk result (TakesLayer (newcomer_of plan []) plan.layer found lists.old lists.new) }
    ensures memory { IfErr result (λ e. e ≡ Memory) }
{
    let near = others_of(alloc, found, plan.except)?;
    choose(alloc, plan, near.as_slice(), lists)?;
    lists.near = near;
    Ok(())
}

// In a layer above.
fn add_above(
    alloc: Global,
    plan: Plan,
    found: Listed<Found>,
    lists: &mut FoundLists,
) -> Result<(), OpFault>
    requires above { 0 < plan.layer }
    requires rising { IsSortedBy is_before found }
    requires few { length found < 2 ^ 32 }
    requires one_length { HaveOneLength found }
    ensures ok { OnOk result (TakesLayer (newcomer_of plan []) plan.layer found lists.old lists.new) }
    ensures memory { IfErr result (λ e. e ≡ Memory) }
{
    choose_above(alloc, plan, found.as_slice(), lists)?;
    if !found.is_empty() {
        lists.near = found;
    }
    Ok(())
}

// Only where one is left out are the others copied: what was found is where the next search begins.
fn choose_above(
    alloc: Global,
    plan: Plan,
    found: &[Found],
    lists: &mut FoundLists,
) -> Result<(), OpFault>
    requires rising { IsSortedBy is_before found.now }
    requires few { length found.now < 2 ^ 32 }
    requires one_length { HaveOneLength found.now }
    ensures slots { OnOk result (let es = picked_from plan (without plan.except found.now) in
        lists.new.lists ≡ lists.old.lists ++ (map (λ e. Some e.at) es ++ replicate (most_in plan.m plan.layer - length es) None)) }
    ensures picks { OnOk result (lists.new.picks
        ≡ lists.old.picks ++ map (λ e. (plan.layer, e)) (picked_from plan (without plan.except found.now))) }
    ensures near { OnOk result (lists.new.near ≡ lists.old.near) }
    ensures memory { IfErr result (λ e. e ≡ Memory) }
{
    match plan.except {
        None => choose(alloc, plan, found, lists),
        Some(except) => {
            let others = copies_of_others(alloc, found, except)?;
            choose(alloc, plan, others.as_slice(), lists)
        }
    }
}

// The neighbours among these come to the lists, and then as many slots without one as the layer has beside.
fn choose(
    alloc: Global,
    plan: Plan,
    others: &[Found],
    lists: &mut FoundLists,
) -> Result<(), OpFault>
    requires rising { IsSortedBy is_before others.now }
    requires few { length others.now < 2 ^ 32 }
    requires one_length { HaveOneLength others.now }
    ensures slots { OnOk result (let es = picked_from plan others.now in
        lists.new.lists ≡ lists.old.lists ++ (map (λ e. Some e.at) es ++ replicate (most_in plan.m plan.layer - length es) None)) }
    ensures picks { OnOk result (lists.new.picks ≡ lists.old.picks ++ map (λ e. (plan.layer, e)) (picked_from plan others.now)) }
    ensures near { OnOk result (lists.new.near ≡ lists.old.near) }
    ensures memory { IfErr result (λ e. e ≡ Memory) }
{
    let most = most_of(plan.m, plan.layer);
    let Ok(places) = pick(alloc, plan.ops, others, most) else {
        return Err(OpFault::Memory);
    };
    let before = lists.picks.len();
    add_all(plan.layer, others, &places, lists)?;
    let added = lists.picks.len().saturating_sub(before);
    add_none(&mut lists.lists, (most as usize).saturating_sub(added))?;
    Ok(())
}

/// The number of slots of a layer.
pub fn most_of(m: u16, layer: u8) -> u32
    ensures { result ≡ most_in m layer }
{
    if layer == 0 {
        2 * u32::from(m)
    } else {
        u32::from(m)
    }
}

// The elements at these places come to the lists.
fn add_all(
    layer: u8,
    others: &[Found],
    places: &[u32],
    lists: &mut FoundLists,
) -> Result<(), AllocError>
    ensures slots { OnOk result (lists.new.lists
        ≡ lists.old.lists ++ map (λ e. Some e.at) (filter_map (slice_get others.now) places.now)) }
    ensures picks { OnOk result (lists.new.picks
        ≡ lists.old.picks ++ map (λ e. (layer, e)) (filter_map (slice_get others.now) places.now)) }
    ensures near { OnOk result (lists.new.near ≡ lists.old.near) }
{
    for place in places {
        add_one(layer, others, *place, lists)?;
    }
    Ok(())
}

// The element at a place comes to the lists, if one stands there.
fn add_one(
    layer: u8,
    others: &[Found],
    place: u32,
    lists: &mut FoundLists,
) -> Result<(), AllocError>
    ensures slots { OnOk result (lists.new.lists
        ≡ lists.old.lists ++ map (λ e. Some e.at) (filter_map (slice_get others.now) (place ∷ []))) }
    ensures picks { OnOk result (lists.new.picks
        ≡ lists.old.picks ++ map (λ e. (layer, e)) (filter_map (slice_get others.now) (place ∷ []))) }
    ensures near { OnOk result (lists.new.near ≡ lists.old.near) }
{
    let Some(element) = element_at(others, place) else {
        return Ok(());
    };
    let copy = copy_of(element)?;
    lists.lists.push(Some(element.at))?;
    lists.picks.push((layer, copy))?;
    Ok(())
}

/// Puts all slots of a node of a level last, each without a neighbour.
pub fn add_all_slots(slots: &mut Listed<Option<Tid>>, level: u8, m: u16) -> Result<(), AllocError>
    ensures { OnOk result (slots.new ≡ slots.old ++ no_neighbours m level) }
{
    add_none(slots, ((u32::from(level) + 2) * u32::from(m)) as usize)
}

/// Puts the slots of the layers of a node of a level last that are above the top, each without a neighbour.
pub fn add_layers_above(
    slots: &mut Listed<Option<Tid>>,
    level: u8,
    top: u8,
    m: u16,
) -> Result<(), AllocError>
    ensures { OnOk result (slots.new ≡ slots.old ++ replicate ((level - top) * m) None) }
{
    add_none(
        slots,
        (u32::from(level.saturating_sub(top)) * u32::from(m)) as usize,
    )
}

fn element_at(others: &[Found], place: u32) -> Option<&Found>
    ensures { option_copied result ≡ slice_get others.now place }
{
    others.get(place as usize)
}

// Puts so many slots without a neighbour last.
fn add_none(slots: &mut Listed<Option<Tid>>, count: usize) -> Result<(), AllocError>
    ensures { OnOk result (slots.new ≡ slots.old ++ replicate count None) }
{
    for _k in 0..count {
        slots.push(None)?;
    }
    Ok(())
}

// Those that stand elsewhere, moved.
fn others_of(
    alloc: Global,
    found: Listed<Found>,
    except: Option<Tid>,
) -> Result<Listed<Found>, AllocError>
    ensures { IfOk result (λ others. others ≡ without except found) }
{
    let Some(except) = except else {
        return Ok(found);
    };
    let mut others = Listed::new(alloc);
    for element in found.into_vec() {
        keep_other(element, except, &mut others)?;
    }
    Ok(others)
}

// Puts an element last that stands elsewhere.
fn keep_other(element: Found, except: Tid, others: &mut Listed<Found>) -> Result<(), AllocError>
    ensures { OnOk result (others.new ≡ others.old ++ without (Some except) (element ∷ [])) }
{
    if except.cmp(&element.at).is_eq() {
        return Ok(());
    }
    others.push(element)
}

// Those that stand elsewhere, copied.
fn copies_of_others(
    alloc: Global,
    found: &[Found],
    except: Tid,
) -> Result<Listed<Found>, AllocError>
    ensures { IfOk result (λ others. others ≡ without (Some except) found.now) }
{
    let mut others = Listed::new(alloc);
    for element in found {
        copy_other(element, except, &mut others)?;
    }
    Ok(others)
}

// Puts a copy of an element last that stands elsewhere.
fn copy_other(element: &Found, except: Tid, others: &mut Listed<Found>) -> Result<(), AllocError>
    ensures { OnOk result (others.new ≡ others.old ++ without (Some except) (element.now ∷ [])) }
{
    if except.cmp(&element.at).is_eq() {
        return Ok(());
    }
    others.push(copy_of(element)?)?;
    Ok(())
}
