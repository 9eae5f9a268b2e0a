//! An accepted disconnection.

/// A failure that an acceptance names, by the numbers of links and bridges from 1, in the plan's order.
#[derive(Clone, Copy, PartialEq, Eq, Debug)]
pub enum NamedFailure {
    /// The failure of this link.
    Link(u8),
    /// The failure of this bridge, and with it of all links at it.
    Bridge(u8),
    /// The failure of these two links, the first with the lower number.
    Pair(u8, u8),
}

/// A failure, and the services that it may disconnect.
#[derive(Clone, Copy, PartialEq, Eq, Debug)]
pub struct Acceptance {
    /// The failure.
    pub failure: NamedFailure,
    /// The number of the only service that it may disconnect, or `None` for all services.
    pub service: Option<u8>,
}
