//! Pages of 8,192 bytes, laid out as PostgreSQL does: a header, line pointers, items that grow down from the
//! end, and a special space of 8 bytes.
//!
//! A page is seen as its kind, a next block or none, the number of the last event that changed it, and a list
//! of items. Each such content that fits has one spelling, and other bytes are no page.
//!
//! The layout stands three times in specs/, to be read in this order: `Content` is what a page is, and `Spelling` its bytes, as
//! one would write them; `Decoding` is the content of any bytes, by which the calls in place are stated; `Format` reads bytes
//! from the front up to the first that no page has there, and `Faults` says that in words. Laws tie the three together.
#![tactic(auto)]

mod bytes;
mod change;
mod drops;
mod fault;
mod kind;
mod page;
mod reading;

pub use change::ItemChange;
pub use fault::PageFault;
pub use kind::PageKind;
pub use page::{Page, read_page};

#[cfg(test)]
mod tests;
