//! An index that was read from disks, or was just made there: its pages, and where its log goes on.
//!
//! What opens or creates an index answers it, and a board goes on from it; neither stands on the other.
#![tactic(auto)]

mod loaded;

pub use loaded::Loaded;
