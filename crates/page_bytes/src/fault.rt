use thiserror::Error;

/// Bytes that are no page.
#[derive(Clone, Copy, Debug, PartialEq, Eq, Error)]
#[error("byte {at} is on no page")]
pub struct PageFault {
    /// The first byte place that no page with the same earlier bytes has, or the number of bytes where too few are
    /// given. It is 8,192 where a whole page comes first and more bytes follow it.
    pub at: u16,
}
