//! Some pages of an index: what looks at them tell, and what an event makes of them.
#![tactic(auto)]

mod centres;
mod doing;
mod looking;
mod nodes;
mod page_list;
mod page_nodes;
mod page_set;
mod rows;
mod slots;

pub use doing::{blocks_after, commit};
pub use looking::{look, look_meta};
pub use page_list::PageList;
pub use page_set::PageSet;
