//! Looks at the centres on a block.

ghost use Rattle.std.specs.Prelude.{◌≡◌, ◌≤◌, ◌<◌, ◌+◌, ◌-◌, ◌*◌, ◌^◌, ◌++◌, ℕ, List, map, length, OnOk, IfOk, IfErr, Some};
ghost use Rattle.std.specs.Option.{option_copied};
ghost use Rattle.index_sizes.specs.Sizes.{centres_on_page};
ghost use Rattle.vec_names.specs.Params.{IsInRange};
ghost use Rattle.page_bytes.specs.Content.{item_at};
ghost use Rattle.vec_tuples.specs.Reading.{centre};
ghost use Rattle.page_redo.specs.PageTuples.{in_whole};
ghost use Rattle.vec_steps.specs.declared.fault.StepFault.TheVariants.{Memory};
ghost use Rattle.vec_steps.specs.declared.told.Word.TheVariants.{Centres};
ghost use Rattle.vec_steps.specs.Telling.{centre_told};
ghost use Rattle.page_sets.specs.Telling.{centre_shown, all_shown, items_on};

use index_sizes::centres_on_page;
use page_bytes::Page;
use std::alloc::{AllocError, Global};
use vec_names::{Listed, Params};
use vec_steps::{Centre, StepFault, Told, Word};
use vec_tuples::{CentreTuple, TupleFault, read_centre};

/// Tells the list tuples of the page of a block, each with its list's number. It wants memory for the centres.
pub fn tell_centres(
    alloc: Global,
    page: Option<&Page>,
    params: &Params,
    block: u32,
    told: &mut Told,
) -> Result<(), StepFault>
    requires { IsInRange params.now }
    ensures centres { (from : ℕ) → from ≡ (block - 1) * centres_on_page params.now.bits → from < 2 ^ 31
        → OnOk result (map centre_told told.new.centres ≡ all_shown (centre_shown params.now) from (items_on (option_copied page.entry))) }
    ensures word { OnOk result (told.new.word ≡ Centres) }
    ensures memory { IfErr result (λ fault. fault ≡ Memory) }
    ensures at { told.new.at ≡ told.old.at }
    ensures bits { told.new.bits ≡ told.old.bits }
{
    told.word = Word::Centres;
    told.centres.clear();
    if let Some(page) = page {
        let from = first_list(params, block);
        fill_centres(alloc, page, params, from, &mut told.centres)?;
    }
    Ok(())
}

/// The number of the first list on a block of list tuples; of a block that no index has, some number.
fn first_list(params: &Params, block: u32) -> u32
    requires { IsInRange params.now }
    ensures told { let from = (block - 1) * centres_on_page params.now.bits in from < 2 ^ 31 → result ≡ from }
    ensures low { result ≤ 2 ^ 31 }
{
    let from = u64::from(block.saturating_sub(1)) * centres_on_page(params.bits);
    from.min(1 << 31) as u32
}

fn fill_centres(
    alloc: Global,
    page: &Page,
    params: &Params,
    from: u32,
    centres: &mut Listed<Centre>,
) -> Result<(), AllocError>
    requires params { IsInRange params.now }
    requires low { from ≤ 2 ^ 31 }
    ensures { OnOk result (map centre_told centres.new
        ≡ map centre_told centres.old ++ all_shown (centre_shown params.now) from page.now.items) }
{
    'items: for before in 0..page.count() {
        add_centre(
            alloc,
            page,
            params,
            (before + 1, from + u32::from(before)),
            centres,
        )?;
    }
    Ok(())
}

// `place` has the offset of the tuple, and the number of its list.
fn add_centre(
    alloc: Global,
    page: &Page,
    params: &Params,
    place: (u16, u32),
    centres: &mut Listed<Centre>,
) -> Result<(), AllocError>
    requires { IsInRange params.now }
    ensures { (x : List ℕ) → item_at page.now.items place.0 ≡ Some x
        → OnOk result (map centre_told centres.new ≡ map centre_told centres.old ++ centre_shown params.now place.1 x) }
{
    match page.item(place.0) {
        Some(item) => add_tuple(alloc, item, params, place.1, centres),
        None => Ok(()),
    }
}

fn add_tuple(
    alloc: Global,
    item: &[u8],
    params: &Params,
    list: u32,
    centres: &mut Listed<Centre>,
) -> Result<(), AllocError>
    requires { IsInRange params.now }
    ensures { OnOk result (map centre_told centres.new ≡ map centre_told centres.old ++ centre_shown params.now list item.now) }
{
    let Some(tuple) = centre_of(alloc, item, params)? else {
        return Ok(());
    };
    centres.push(Centre {
        list,
        first: tuple.first,
        aim: tuple.aim,
        bits: tuple.bits,
    })
}

/// The list tuple that an item is as a whole, if it is one.
fn centre_of(alloc: Global, item: &[u8], params: &Params) -> Result<Option<CentreTuple>, AllocError>
    requires { IsInRange params.now }
    ensures { IfOk result (λ tuple. tuple ≡ in_whole (centre params.now item.now)) }
{
    match read_centre(alloc, item, params) {
        Ok(tuple) => Ok(Some(tuple)),
        Err(TupleFault::Memory) => Err(AllocError),
        Err(TupleFault::Bad { .. }) => Ok(None),
    }
}
