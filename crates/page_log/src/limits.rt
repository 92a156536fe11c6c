//! The places and sizes of a log area.

/// The byte that an open seal is. A closed one is any other.
pub const OPEN: u8 = 0xA5;

/// The magic of form 1, the text `VECBITS1` as a number.
pub const FORM_1: u64 = 0x3153_5449_4243_4556;

/// The magic of form 2, the text `VECBITS2` as a number.
pub const FORM_2: u64 = 0x3253_5449_4243_4556;

/// The bytes of a header, whose last one is the epoch's seal.
pub const HEAD: usize = 40;

/// The place of an epoch's seal, the last byte of its header.
pub const SEAL: usize = 39;

/// The bytes of a base image: a block's number and its page.
pub const IMAGE: usize = 8_196;

/// The byte that is written where a seal is closed.
pub const CLOSED: u8 = 0;

/// The bytes that are kept free for one event: those of the longest, of all offsets that a page may name, and a batch's length.
pub const SPARE: usize = 131_086;

/// The bytes of the longest event: of 65,535 offsets of two bytes, behind seven.
pub const LONGEST: u64 = 131_077;

/// How many bytes of a batch are read at a time, unless an event is longer.
pub const PIECE: u64 = 65_536;
