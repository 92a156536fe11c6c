//! Looks at all nodes of a page.

ghost use Rattle.std.specs.Prelude.{◌≡◌, ◌≤◌, ◌<◌, ◌+◌, ◌++◌, ℕ, List, map, length, OnOk, IfErr, Some};
ghost use Rattle.std.specs.Option.{option_copied};
ghost use Rattle.vec_names.specs.Params.{IsInRange};
ghost use Rattle.page_bytes.specs.Content.{item_at};
ghost use Rattle.vec_steps.specs.declared.fault.StepFault.TheVariants.{Memory};
ghost use Rattle.vec_steps.specs.declared.told.Word.TheVariants.{Page as PageWord};
ghost use Rattle.vec_steps.specs.Telling.{seen_told};
ghost use Rattle.page_sets.specs.Telling.{element_shown, all_shown, items_on};

use page_bytes::Page;
use page_redo::head_of;
use std::alloc::AllocError;
use vec_names::{Listed, Params, Tid};
use vec_steps::{Seen, StepFault, Told, Word};

/// Tells the elements of the page of a block by their offsets, deleted ones too. It wants memory for a list that is longer than
/// each before it.
pub fn tell_page(
    page: Option<&Page>,
    params: &Params,
    block: u32,
    told: &mut Told,
) -> Result<(), StepFault>
    requires { IsInRange params.now }
    ensures nodes { OnOk result (map seen_told told.new.nodes
        ≡ all_shown (element_shown params.now block) 1 (items_on (option_copied page.entry))) }
    ensures word { OnOk result (told.new.word ≡ PageWord) }
    ensures memory { IfErr result (λ fault. fault ≡ Memory) }
    ensures at { told.new.at ≡ told.old.at }
    ensures bits { told.new.bits ≡ told.old.bits }
{
    told.word = Word::Page;
    told.nodes.clear();
    if let Some(page) = page {
        fill_nodes(page, params, block, &mut told.nodes)?;
    }
    Ok(())
}

fn fill_nodes(
    page: &Page,
    params: &Params,
    block: u32,
    nodes: &mut Listed<Seen>,
) -> Result<(), AllocError>
    requires { IsInRange params.now }
    ensures { OnOk result (map seen_told nodes.new
        ≡ map seen_told nodes.old ++ all_shown (element_shown params.now block) 1 page.now.items) }
{
    'items: for before in 0..page.count() {
        add_node(page, params, block, before + 1, nodes)?;
    }
    Ok(())
}

fn add_node(
    page: &Page,
    params: &Params,
    block: u32,
    off: u16,
    nodes: &mut Listed<Seen>,
) -> Result<(), AllocError>
    requires { IsInRange params.now }
    ensures { (x : List ℕ) → item_at page.now.items off ≡ Some x
        → OnOk result (map seen_told nodes.new ≡ map seen_told nodes.old ++ element_shown params.now block off x) }
{
    match page.item(off) {
        Some(item) => add_element(item, params, block, off, nodes),
        None => Ok(()),
    }
}

fn add_element(
    item: &[u8],
    params: &Params,
    block: u32,
    off: u16,
    nodes: &mut Listed<Seen>,
) -> Result<(), AllocError>
    requires { IsInRange params.now }
    ensures { OnOk result (map seen_told nodes.new ≡ map seen_told nodes.old ++ element_shown params.now block off item.now) }
{
    let Some(head) = head_of(item, params) else {
        return Ok(());
    };
    let Some(at) = Tid::new(block, off) else {
        return Ok(());
    };
    nodes.push(Seen {
        at,
        level: head.level,
        version: head.version,
        deleted: head.deleted,
        ids: head.ids,
    })
}
