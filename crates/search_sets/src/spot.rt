//! Where an element stands.

use vec_names::Tid;

/// Where an element stands, as a look told it.
#[derive(Clone, Copy, Debug)]
pub struct Spot {
    pub at: Tid,
    /// Where its list of neighbours stands.
    pub list_at: Tid,
    /// The highest layer in which it stands.
    pub level: u8,
    /// From 1 to 255.
    pub version: u8,
}
