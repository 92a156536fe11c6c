//! The limits.

/// The most bits of a value, as for pgvector's type `bit` in an index.
pub const MOST_BITS: u32 = 64_000;

/// The most slots of a neighbour tuple: those whose six bytes each fit an item beside the tuple's head.
pub const MOST_SLOTS: usize = 1_358;

/// The most heap ids of an element, as pgvector's HNSW_HEAPTIDS.
pub const MOST_IDS: usize = 10;

/// The most blocks of an index.
pub const MOST_BLOCKS: u32 = 32_768;

/// The highest number of a block, from 0.
pub const LAST_BLOCK: u32 = 32_767;

/// The most bytes that the events of an epoch of the log may take. Each takes five beside its own.
pub const LOG_ROOM: u64 = 268_435_456;

/// The bytes of a page, as PostgreSQL's BLCKSZ.
pub const PAGE_SIZE: usize = 8_192;

/// The byte of a page at which its special space begins, and its items end.
pub const PAGE_END: u16 = 8_184;

/// The bytes of a page for items, each with its item pointer.
pub const PAGE_ROOM: usize = 8_160;

/// The most bytes of an item.
pub const MOST_ITEM: usize = 8_156;
