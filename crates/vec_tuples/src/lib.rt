//! The tuples that stand on an index's pages, as bytes: each value has one spelling, which is read
//! and written whole, and changed in place.
#![tactic(auto)]

mod bits;
mod centre;
mod element;
mod entry;
mod fault;
mod links;
mod links_in_place;
mod meta;
mod packed_places;
mod parameters;
mod rows;
mod six_bytes;
mod slots;

pub use centre::{CentreTuple, centre_head, read_centre, set_aim, write_centre};
pub use element::{
    Element, ElementHead, element_head, fill_element, read_element, set_head, write_element,
};
pub use entry::{EntryRow, fill_entry, read_entry, write_entry};
pub use fault::TupleFault;
pub use links::{Links, read_list, write_list};
pub use links_in_place::{fill_links, links_head, set_slot, slot};
pub use meta::{Meta, fill_meta, read_meta, write_meta};
pub use packed_places::packed;

#[cfg(test)]
mod tests;
