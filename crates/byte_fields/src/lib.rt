//! The fields of the index's records of bytes, events and tuples: each is read from the front of
//! the bytes up to the first that can't be read, and put at the end of bytes. Numbers are little-endian.
//!
//! A reader gives a value and the bytes behind it, or a `Stop` that tells whether the field's value is not
//! allowed or the bytes end in it, and how many bytes are left from that field on. `specs/Reading.antt` has
//! the readers as functions and the words that join them; `proofs/FieldLaws.antt` what holds of a reader
//! and of what it is joined to.
#![tactic(auto)]

mod fields;
mod optional;
mod packed;
mod pieces;
mod stop;

pub use fields::{
    byte_from, four_bytes_from, heap_id, level_beside, optional_place, place, two_bytes_from,
};
pub use optional::{no_place, slot_of, slots};
pub use packed::packed_places;
pub use pieces::{put, put_slots};
pub use stop::{Cause, Halt, Stop};

#[cfg(test)]
mod tests;
