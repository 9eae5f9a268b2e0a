//! Sets of local ports that got no copy of a frame.

ghost use Rattle.std.specs.Prelude.{ℕ, ◌≡◌, ◌<◌, ◌≤◌, ◌==◌, ◌++◌, ◌∷◌, [], map, length, nat_eq, IfSome, IfNone};
ghost use Rattle.std.specs.Cmp.Lexicographic.{pointwise, nat_list_eq_equiv};
ghost use Rattle.std.specs.Cmp.{on_equiv, partial_equiv_from_equiv};
ghost use Rattle.std.specs.List.{AllByRecursion};
ghost use Rattle.std.specs.Ordering.{on};
ghost use Rattle.pb_lan.specs.PortSets.{AreAscending, ComesAfter, refusal_code, word_in};

use crate::port_list::PortList;
use crate::step::NoRoom;
use std::alloc::AllocError;
use std::marker::Model;

/// The most ports of a bridge.
const PORTS: usize = 16;

/// A set of local ports of a bridge that got no copy of a frame, each with the cause, in four octets. Contracts see the
/// list of ports and causes, each port once and ascending.
#[derive(Debug, Drop)]
pub struct Refusals {
    /// Two bits for each port, the lowest for port 1: 0 if it is not in the set, 1 for Full, 2 for Memory.
    words: u32,
}

impl Model for Refusals {
    ghost use Rattle.std.specs.Prelude.{ℕ, List};
    ghost use Rattle.pb_lan.specs.declared.step.NoRoom.{NoRoom};
    ghost use Rattle.pb_lan.specs.PortSets.{refusals_in};

    ghost Value = { List (ℕ × NoRoom) };

    ghost view = { λ r. refusals_in 16 1 r.words };
}

/// Up to sixteen local ports that got no copy, each with the cause. The value holds them itself and allocates nothing.
/// Contracts see the list of them.
#[derive(Debug, Drop)]
pub struct RefusalList {
    refusals: [(u8, NoRoom); PORTS],
    count: u8,
}

impl Model for RefusalList {
    ghost use Rattle.std.specs.Prelude.{ℕ, List, ◌≤◌, take};
    ghost use Rattle.pb_lan.specs.declared.step.NoRoom.{NoRoom};

    ghost Value = { List (ℕ × NoRoom) };

    ghost view = { λ r. take r.count r.refusals };

    ghost invariant = { λ r. r.count ≤ 16 };
}

/// Returns the two bits of a cause.
fn bits_of(word: NoRoom) -> u32
    ensures word { (port : ℕ) → word_in port result ≡ (port, word) ∷ [] }
    ensures few { result < 4 }
{
    match word {
        NoRoom::Full => 1,
        NoRoom::Memory => 2,
    }
}

/// Returns a number that is different for each port and cause.
fn code_of(port: u8, word: NoRoom) -> u8
    requires { port ≤ 16 }
    ensures { result ≡ refusal_code (port, word) }
{
    match word {
        NoRoom::Full => 2 * port,
        NoRoom::Memory => 2 * port + 1,
    }
}

impl Refusals {
    /// Returns the empty set.
    pub fn new() -> Refusals
        ensures { result ≡ [] }
    {
        Refusals { words: 0 }
    }

    /// Returns the set of the ports and causes of a slice, or None if the ports are not local ports in strictly
    /// ascending order.
    pub fn from_slice(refusals: &[(u8, NoRoom)]) -> Option<Refusals>
        ensures some { IfSome result (λ set. set ≡ refusals.now) }
        ensures none { IfNone result (AreAscending 0 (map (λ r. r.0) refusals.now) → ⊥) }
    {
        let mut set = Refusals::new();
        let mut last = 0;
        for refusal in refusals {
            let (port, word) = *refusal;
            if port <= last || usize::from(port) > PORTS {
                return None;
            }
            set.push(port, word);
            last = port;
        }
        Some(set)
    }

    /// Checks whether the set is empty.
    pub fn is_empty(&self) -> bool
        ensures { result ≡ (length self.now == 0) }
    {
        self.words == 0
    }

    /// Adds a port that is higher than all others in the set, with its cause.
    pub fn push(&mut self, port: u8, word: NoRoom)
        requires { ComesAfter (map (λ r. r.0) self.old) port }
        ensures { self.new ≡ self.old ++ (port, word) ∷ [] }
    {
        self.words += bits_of(word) << (2 * (port - 1));
    }

    /// Returns a copy. Allocates nothing.
    pub fn copied(&self) -> Refusals
        ensures { result ≡ self.now }
    {
        Refusals { words: self.words }
    }

    /// Returns a number for each port and its cause, in the order of the ports.
    fn codes(&self) -> PortList
        ensures { result ≡ map refusal_code self.now }
    {
        let list = self.list();
        let mut codes = PortList::new();
        for refusal in list.as_slice() {
            let (port, word) = *refusal;
            codes.push(code_of(port, word));
        }
        codes
    }

    /// Returns the ports and causes as a list, ascending.
    pub fn list(&self) -> RefusalList
        ensures refusals { result ≡ self.now }
        ensures few { length result ≤ 16 }
        ensures within { AllByRecursion (λ r. r.0 ≤ 16) result }
    {
        let mut list = RefusalList::new();
        let mut rest = self.words;
        for port in 1..17 {
            if rest == 0 {
                return list;
            }
            match rest % 4 {
                0 => {}
                1 => list.push(port, NoRoom::Full),
                _ => list.push(port, NoRoom::Memory),
            }
            rest /= 4;
        }
        list
    }
}

impl RefusalList {
    /// Returns an empty list.
    fn new() -> RefusalList
        ensures { result ≡ [] }
    {
        RefusalList {
            refusals: [(0, NoRoom::Full); PORTS],
            count: 0,
        }
    }

    /// Appends a port with its cause.
    fn push(&mut self, port: u8, word: NoRoom)
        requires { length self.old < 16 }
        ensures { self.new ≡ self.old ++ (port, word) ∷ [] }
    {
        self.refusals[usize::from(self.count)] = (port, word);
        self.count += 1;
    }

    /// Returns the ports and causes, in their order.
    pub fn as_slice(&self) -> &[(u8, NoRoom)]
        ensures { result.now ≡ self.now }
    {
        &self.refusals[..usize::from(self.count)]
    }
}

/// Compares the ports and their causes.
impl PartialEq for Refusals {
    ghost eq = { on (map refusal_code) (pointwise nat_eq) };

    ghost laws = { partial_equiv_from_equiv (on_equiv (map refusal_code) nat_list_eq_equiv) };

    fn eq(&self, other: &Self) -> bool {
        self.codes() == other.codes()
    }
}

impl Eq for Refusals {
    ghost laws = { on_equiv (map refusal_code) nat_list_eq_equiv };
}

/// The copy is equal.
impl Clone for Refusals {
    ghost is_clone = { λ refusals copy. copy ≡ refusals };

    fn clone(&self) -> Result<Refusals, AllocError> {
        Ok(self.copied())
    }
}
