//! The steps of k-means over bit strings: first centres, assignment, and centres that move. specs/Centres.antt says what they are;
//! `Places` has where a list of numbers has its least and greatest one, and `Working` the words of the functions.
#![tactic(auto)]

mod assigning;
mod choosing;
mod fault;
mod first;
mod recentring;
mod rounds;
mod row;

pub use assigning::assign;
pub use choosing::nearest_of;
pub use fault::BuildFault;
pub use first::choose_first;
pub use recentring::recentre;
pub use rounds::centres;
pub use row::Row;

#[cfg(test)]
mod tests;
