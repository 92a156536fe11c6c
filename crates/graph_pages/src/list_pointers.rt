//! Which places the list pointers of all elements name, and how often.

ghost use Rattle.std.specs.Prelude.{◌≡◌, ◌==◌, ◌++◌, ◌∷◌, [], List, OnOk, IfOk, flat_map};
ghost use Rattle.vec_names.specs.declared.tid.Tid.{Tid as Place};
ghost use Rattle.graph_pages.specs.Standing.{times_in};
ghost use Rattle.graph_pages.specs.Decoding.{pointer_of, so_often, Tells};

use crate::decoded::Item;
use std::alloc::{AllocError, Global};
use vec_names::{Listed, Mapped, Tid};

/// How often list pointers name a place which is named.
#[derive(Clone, Copy)]
pub enum Named {
    Once,
    Often,
}

/// Whether the place is named, and not twice.
pub fn is_named_once(named: &Mapped<Named>, at: Tid) -> bool
    ensures { (places : List Place) → Tells named.now places → result ≡ (times_in at places == 1) }
{
    match named.get(at) {
        Some(Named::Once) => true,
        Some(Named::Often) => false,
        None => false,
    }
}

/// The places that the list pointers of all items name.
pub fn named_places(
    alloc: Global,
    items: &Listed<Listed<Item>>,
) -> Result<Mapped<Named>, AllocError>
    ensures { IfOk result (λ named. Tells named (flat_map (flat_map pointer_of) items.now)) }
{
    let mut named = Mapped::new(alloc);
    for on_block in items.as_slice() {
        add_block(&mut named, on_block.as_slice())?;
    }
    Ok(named)
}

fn add_block(named: &mut Mapped<Named>, items: &[Item]) -> Result<(), AllocError>
    ensures { OnOk result ((places : List Place) → Tells named.old places → Tells named.new (places ++ flat_map pointer_of items.now)) }
{
    for item in items {
        add_item(named, *item)?;
    }
    Ok(())
}

fn add_item(named: &mut Mapped<Named>, item: Item) -> Result<(), AllocError>
    ensures { OnOk result ((places : List Place) → Tells named.old places → Tells named.new (places ++ pointer_of item)) }
{
    match item {
        Item::Element(element) => add_place(named, element.list_at),
        Item::List(_) => Ok(()),
        Item::Neither => Ok(()),
    }
}

fn add_place(named: &mut Mapped<Named>, at: Tid) -> Result<(), AllocError>
    ensures { OnOk result ((places : List Place) → Tells named.old places → Tells named.new (places ++ at ∷ [])) }
{
    let so_often = so_often(named.get(at).copied());
    named.insert(at, so_often)?;
    Ok(())
}

/// How often a place is named, which was named so often and is named again.
fn so_often(before: Option<Named>) -> Named
    ensures { result ≡ so_often before }
{
    match before {
        Some(_) => Named::Often,
        None => Named::Once,
    }
}
