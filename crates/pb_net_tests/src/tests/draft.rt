//! Plans in short.

use pb_lan::Spanning;

/// A bridge and one of its local ports.
pub(super) type Port = (u8, u8);

/// A link between two ports.
#[derive(Clone, Copy)]
pub(super) enum Joint {
    /// For all services.
    Plain(Port, Port),
    /// Its first lane loses the items of these numbers.
    Losing(Port, Port, &'static [u64]),
    /// Each end lists its services, or takes all.
    Listed(Port, Option<&'static [u8]>, Port, Option<&'static [u8]>),
    /// With this path cost at both ends.
    Costly(Port, Port, u32),
}

impl Joint {
    /// Returns the ports at its two ends.
    pub(super) fn ends(self) -> (Port, Port) {
        match self {
            Joint::Plain(a, b)
            | Joint::Losing(a, b, _)
            | Joint::Listed(a, _, b, _)
            | Joint::Costly(a, b, _) => (a, b),
        }
    }

    /// Returns the services that its two ends list.
    pub(super) fn listed(self) -> (Option<&'static [u8]>, Option<&'static [u8]>) {
        match self {
            Joint::Listed(_, a, _, b) => (a, b),
            _ => (None, None),
        }
    }

    /// Returns the numbers of the items that its first lane loses.
    pub(super) fn losses(self) -> &'static [u64] {
        match self {
            Joint::Losing(_, _, losses) => losses,
            _ => &[],
        }
    }

    /// Returns the path cost at its ends.
    pub(super) fn cost(self) -> u32 {
        match self {
            Joint::Costly(_, _, cost) => cost,
            _ => 20_000,
        }
    }
}

/// A customer port.
#[derive(Clone, Copy)]
pub(super) struct Site {
    pub(super) at: Port,
    pub(super) service: u8,
    pub(super) pcp: u8,
}

/// A plan with the services red (1, with VID 100) and blue (2, with VID 200). Its bridges have the usual
/// priority and the addresses 02-00-00-00-00-01 and on.
#[derive(Clone, Copy)]
pub(super) struct Draft {
    /// The number of bridges.
    pub(super) bridges: u8,
    pub(super) links: &'static [Joint],
    pub(super) customers: &'static [Site],
    pub(super) spanning: Spanning,
    /// The most items that wait at each port of a bridge.
    pub(super) queue: u16,
    /// The most items between two places.
    pub(super) ring: u16,
    /// The most steps of a place.
    pub(super) steps: u64,
}

impl Draft {
    /// Returns the local port of a customer port.
    pub(super) fn site_of(&self, customer: u8) -> Option<Port> {
        let place = usize::from(customer).checked_sub(1)?;
        let site = self.customers.get(place)?;
        Some(site.at)
    }

    /// Returns the ports at which a lane begins and ends.
    pub(super) fn ends_of(&self, lane: u8) -> Option<(Port, Port)> {
        let place = usize::from(lane).checked_sub(1)?;
        let (a, b) = self.links.get(place / 2)?.ends();
        Some(if place % 2 == 0 { (a, b) } else { (b, a) })
    }
}
