use thiserror::Error;

/// Why an event was not redone on a page.
#[derive(Clone, Copy, Debug, PartialEq, Eq, Error)]
pub enum RedoFault {
    /// The event does not touch the page's block, or the page lacks what the event needs.
    #[error("the event does not fit the page")]
    Unfit,
}
