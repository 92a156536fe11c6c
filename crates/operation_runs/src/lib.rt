//! Inserts, scans and commands of a script over a desk that is alone at a board, with the vacuums that come between them: tests.
#![tactic(auto)]

#[cfg(test)]
mod batch_tests;
#[cfg(test)]
mod counting;
#[cfg(test)]
mod drawing;
#[cfg(test)]
mod insert_desks;
#[cfg(test)]
mod insert_tests;
#[cfg(test)]
mod job_tests;
#[cfg(test)]
mod lone_tests;
#[cfg(test)]
mod scan_desks;
#[cfg(test)]
mod scan_tests;
#[cfg(test)]
mod vacuum_tests;
#[cfg(test)]
mod vacuums;
