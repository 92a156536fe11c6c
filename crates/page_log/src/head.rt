//! The header of an epoch.

/// What a header says: the form of the log, 1 or 2; the number of the epoch; how many lasting events were before it; how many
/// blocks the index has; and how many base images follow.
#[derive(Clone, Copy, Debug, PartialEq, Eq)]
pub struct Head {
    pub form: u8,
    pub epoch: u64,
    pub before: u64,
    pub blocks: u32,
    pub images: u32,
}
