//! The log: epochs of base images and of batches of events, each behind a seal.
#![tactic(auto)]

mod batches;
mod bodies;
mod closing;
mod epoch_law;
mod epoch_writing;
mod epochs;
mod events;
mod finding;
mod flushing;
mod front;
mod going_law;
mod head;
mod images;
mod limits;
mod log;
mod log_fault;
mod log_reading;
mod opening;
mod opening_fault;
mod pending;

pub use epoch_law::{law_epochs, law_first_epoch, law_logs};
pub use epochs::{open_epoch, write_epoch};
pub use flushing::flush_pending;
pub use going_law::{law_coming, law_going};
pub use head::Head;
pub use log::Log;
pub use log_fault::LogFault;
pub use opening::{ReadLog, read_all};
pub use opening_fault::OpenFault;
pub use pending::Pending;

#[cfg(test)]
mod epoch_tests;
#[cfg(test)]
mod log_tests;
#[cfg(test)]
mod opening_tests;
#[cfg(test)]
mod tests;
