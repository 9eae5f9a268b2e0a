//! Lists of local ports of a bridge, in any order.

ghost use Rattle.std.specs.Prelude.{◌≡◌, ◌≤◌, ◌<◌, ◌++◌, ◌∷◌, [], length, nat_eq, if◌then◌else◌};
ghost use Rattle.std.specs.Cmp.Lexicographic.{pointwise, nat_list_eq_equiv};
ghost use Rattle.std.specs.Cmp.{partial_equiv_from_equiv};

use std::marker::Model;

/// The most ports of a bridge.
const PORTS: usize = 16;

/// Up to sixteen local ports of a bridge, in any order. The value holds them itself and allocates nothing. Contracts
/// see the list of the ports.
#[derive(Debug, Drop)]
pub struct PortList {
    ports: [u8; PORTS],
    count: u8,
}

impl Model for PortList {
    ghost use Rattle.std.specs.Prelude.{ℕ, List, ◌≤◌, take};

    ghost Value = { List ℕ };

    ghost view = { λ p. take p.count p.ports };

    ghost invariant = { λ p. p.count ≤ 16 };
}

impl PortList {
    /// Returns an empty list.
    #[inline(always)]
    pub fn new() -> PortList
        ensures { result ≡ [] }
    {
        PortList {
            ports: [0; PORTS],
            count: 0,
        }
    }

    /// Appends a port.
    pub fn push(&mut self, port: u8)
        requires { length self.old < 16 }
        ensures { self.new ≡ self.old ++ port ∷ [] }
    {
        self.ports[usize::from(self.count)] = port;
        self.count += 1;
    }

    /// Appends a port if it is wanted. Its place is written either way, which spares a branch that no processor can
    /// foresee.
    #[inline(always)]
    pub(crate) fn push_if(&mut self, port: u8, is_wanted: bool)
        requires { length self.old < 16 }
        ensures { self.new ≡ self.old ++ (if is_wanted then port ∷ [] else []) }
    {
        self.ports[self.count as usize] = port;
        self.count += u8::from(is_wanted);
    }

    /// Returns the ports, in their order.
    #[inline(always)]
    pub fn as_slice(&self) -> &[u8]
        ensures ports { result.now ≡ self.now }
        ensures few { length result.now ≤ 16 }
    {
        &self.ports[..usize::from(self.count)]
    }
}

/// Compares the ports and their order.
impl PartialEq for PortList {
    ghost eq = { pointwise nat_eq };

    ghost laws = { partial_equiv_from_equiv nat_list_eq_equiv };

    fn eq(&self, other: &Self) -> bool {
        self.as_slice() == other.as_slice()
    }
}

impl Eq for PortList {
    ghost laws = { nat_list_eq_equiv };
}
