//! Sets of local ports of a bridge.

ghost use Rattle.std.specs.Prelude.{◌≡◌, ◌≤◌, ◌<◌, ◌==◌, ◌++◌, ◌∷◌, [], length, nat_eq, IfSome, IfNone};
ghost use Rattle.std.specs.Cmp.Lexicographic.{pointwise, nat_list_eq_equiv};
ghost use Rattle.std.specs.Cmp.{partial_equiv_from_equiv};
ghost use Rattle.std.specs.List.{count_by, list_any};
ghost use Rattle.pb_lan.specs.Ports.{local_ports};
ghost use Rattle.pb_lan.specs.PortSets.{AreAscending, ComesAfter};

use crate::port_list::PortList;
use std::alloc::AllocError;
use std::marker::Model;

/// The most ports of a bridge.
const PORTS: usize = 16;

/// A set of local ports of a bridge, 1 to 16, in two octets. Contracts see the list of the ports, each once and
/// ascending.
#[derive(Debug, Drop)]
pub struct PortSet {
    /// A bit for each port, the lowest for port 1.
    bits: u16,
}

impl Model for PortSet {
    ghost use Rattle.std.specs.Prelude.{ℕ, List};
    ghost use Rattle.pb_lan.specs.PortSets.{ports_in};

    ghost Value = { List ℕ };

    ghost view = { λ p. ports_in 16 1 p.bits };
}

impl PortSet {
    /// Returns the empty set.
    pub fn new() -> PortSet
        ensures { result ≡ [] }
    {
        PortSet { bits: 0 }
    }

    /// Returns the set of the ports of a slice, or None if they are not local ports in strictly ascending order.
    pub fn from_slice(ports: &[u8]) -> Option<PortSet>
        ensures some { IfSome result (λ set. set ≡ ports.now) }
        ensures none { IfNone result (AreAscending 0 ports.now → ⊥) }
    {
        let mut set = PortSet::new();
        let mut last = 0;
        for port in ports {
            if *port <= last || usize::from(*port) > PORTS {
                return None;
            }
            set.push(*port);
            last = *port;
        }
        Some(set)
    }

    /// Adds a port that is higher than all others in the set.
    pub fn push(&mut self, port: u8)
        requires { ComesAfter self.old port }
        ensures { self.new ≡ self.old ++ port ∷ [] }
    {
        self.bits += 1 << (port - 1);
    }

    /// Returns a copy. Allocates nothing.
    pub fn copied(&self) -> PortSet
        ensures { result ≡ self.now }
    {
        PortSet { bits: self.bits }
    }

    /// Returns the number of ports.
    pub fn len(&self) -> u8
        ensures exact { result ≡ length self.now }
        ensures few { result ≤ 16 }
        ensures each { count_by (λ port. list_any (λ p. p == port) self.now) local_ports ≡ length self.now }
    {
        self.bits.count_ones() as u8
    }

    /// Returns the ports as a list, ascending.
    #[inline(always)]
    pub fn list(&self) -> PortList
        ensures ports { result ≡ self.now }
        ensures few { length result ≤ 16 }
    {
        let mut list = PortList::new();
        let mut rest = self.bits;
        for port in 1..17 {
            if rest == 0 {
                return list;
            }
            list.push_if(port, rest % 2 == 1);
            rest /= 2;
        }
        list
    }
}

/// Compares the ports.
impl PartialEq for PortSet {
    ghost eq = { pointwise nat_eq };

    ghost laws = { partial_equiv_from_equiv nat_list_eq_equiv };

    fn eq(&self, other: &Self) -> bool {
        self.list() == other.list()
    }
}

impl Eq for PortSet {
    ghost laws = { nat_list_eq_equiv };
}

/// The copy is equal.
impl Clone for PortSet {
    ghost is_clone = { λ ports copy. copy ≡ ports };

    fn clone(&self) -> Result<PortSet, AllocError> {
        Ok(self.copied())
    }
}
