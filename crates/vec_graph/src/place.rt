//! A place for a node.

use vec_names::Tid;

/// Where a new node stands.
#[derive(Clone, Copy, Debug, PartialEq, Eq)]
pub struct Place {
    pub at: Tid,
    /// Where its list of neighbours stands.
    pub list_at: Tid,
    /// The version that the node has there: 1 at a fresh place, and that of the deleted node at one that is used anew.
    pub version: u8,
}
