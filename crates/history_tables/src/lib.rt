//! What a history says of gates, of a vacuum's phase and of settling, kept in tables beside it: each act changes them once, and
//! what they tell costs the same after a million acts. Beside them the room that each desk has in reserve.
//!
//! The definitions stand in specs/: `Telling` (what tables tell of the acts), `Rooms` (the room of each desk).
#![tactic(auto)]

mod holders;
mod rooms;
mod tables;

pub use holders::{Holder, Holders};
pub use rooms::{Room, Rooms, law_rooms};
pub use tables::{Phase, Tables};

#[cfg(test)]
mod tests;
