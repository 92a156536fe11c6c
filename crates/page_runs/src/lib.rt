//! Looks at small pages, what they say to a change, and what an event makes of them: tests.
#![tactic(auto)]

#[cfg(test)]
mod doing_tests;
#[cfg(test)]
mod looking_tests;
#[cfg(test)]
mod word_tests;
