//! Words for rows without one of their own: the levels of new nodes are drawn of them.
//!
//! A word is the next 64-bit output of `rand_pcg`'s `Pcg64`, which a script seeds, and with 0 at its start. The same script
//! gives the same words, so that a run can be made again.
#![tactic(auto)]

mod drawing;

pub use drawing::draw_words;

#[cfg(test)]
mod tests;
