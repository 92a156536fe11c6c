//! Worked examples over any steps, for tests of desks: rows that come and go, and what scans of them answer.
//!
//! A function makes its calls one after the other, and ends by an error where anything is not as wanted. What is wanted was worked out
//! by hand from the definitions. That each call may be made is proved here once; that an example goes well at a desk is found by
//! running it there.
#![tactic(auto)]

mod batches;
mod examples;
mod inserts;
mod removals;
mod resting;
mod vacuums;

pub use batches::{Row, begins, finds, goes_on, scan};
pub use examples::{
    answered_later, common_places, eleven_equal, left_out, one_by_one, three_are_found, two_long,
};
pub use inserts::{insert_by, insert_text, put, put_three};
pub use removals::{come_and_go, comes_again, middle_goes, three_batches};
pub use resting::none_held;
