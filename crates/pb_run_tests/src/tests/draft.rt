//! Plans in short.

use pb_lan::Spanning;

/// A bridge and one of its local ports.
pub(super) type At = (u8, u8);

/// A link between two ports. Its first lane loses the items of these numbers.
#[derive(Clone, Copy)]
pub(super) struct Joint {
    pub(super) a: At,
    pub(super) b: At,
    pub(super) lost: &'static [u64],
}

/// A customer port of a service.
#[derive(Clone, Copy)]
pub(super) struct Site {
    pub(super) at: At,
    pub(super) service: u8,
}

/// A plan with the services red (1, with VID 100) and blue (2, with VID 200). Its bridges have the usual
/// priority and the addresses 02-00-00-00-00-01 and on.
#[derive(Clone, Copy)]
pub(super) struct Draft {
    /// The number of bridges.
    pub(super) bridges: u8,
    pub(super) links: &'static [Joint],
    pub(super) customers: &'static [Site],
    pub(super) spanning: Spanning,
    /// The most items that wait at each port of a bridge.
    pub(super) queue: u16,
    /// The most items between two places.
    pub(super) ring: u16,
    /// The most steps of a place.
    pub(super) steps: u64,
}
