//! The board of an index: its acts, its pages and its log, which change together by one act at a time.
#![tactic(auto)]

mod board;
mod board_core;
mod changes;
mod changing;
mod commit;
mod doomed;
mod ending;
mod events;
mod history;
mod limits;
mod loading;
mod lone_desk;
mod looks;
mod passing;
mod reserving;
mod serve;
mod settling;
mod summary;
mod turns;
mod writable;

pub use board::Board;
pub use board_core::Core;
pub use history::History;
pub use lone_desk::LoneDesk;
pub use summary::Summary;
