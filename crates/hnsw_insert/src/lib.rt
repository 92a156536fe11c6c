//! The insert of a row into a graph, written once over any steps: Algorithm 1 of the HNSW paper.
#![tactic(auto)]

mod adding;
mod blocks;
mod course;
mod inserting;
mod joining;
mod landing;
mod law;
mod linking;
mod placing;

pub use inserting::insert;
pub use landing::Inserted;
pub use law::law_one_row;

#[cfg(test)]
mod tests;
