//! What counts as disconnected, and which failures are reported.

/// The customer ports whose disconnection counts, and the failures that are reported.
#[derive(Clone, Copy, PartialEq, Eq, Debug)]
pub struct Criteria {
    /// The number of the only customer port from which others count, or `None` for all.
    pub from: Option<u8>,
    /// Whether the customer ports of a failed bridge count too.
    pub own: bool,
    /// Whether harmless failures are reported too.
    pub all: bool,
    /// Whether something is down before anything fails.
    pub impaired: bool,
}
