//! The kinds of warnings.

/// A warning about a plan. Bridges, links and services are given by their numbers in the plan, from 1.
#[derive(Clone, Copy, PartialEq, Eq, Debug)]
pub enum Warning {
    /// The plan has a spanning tree, and no clock by which its bridges tick in a run.
    NeverTicks,
    /// No link ends at this bridge, and the plan has other bridges.
    Unlinked(u8),
    /// This bridge is more than 20 links from the root of the spanning tree, whose information never reaches it (IEEE
    /// 802.1D-2004 clause 17.21.23).
    TooFar(u8),
    /// The ends of this link are members of different services.
    Unequal(u8),
    /// This service has no customer port.
    NoPort(u8),
    /// This service has only one customer port.
    OnePort(u8),
    /// No path of links whose ends are members of this service joins all of its customer ports.
    Split(u8),
}
