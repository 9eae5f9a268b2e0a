//! The items that a lane loses.

ghost use Rattle.std.specs.Prelude.{◌≡◌, ◌+◌, ◌<◌, ◌==◌, ◌^◌, true, drop, if◌then◌else◌};
ghost use Rattle.std.specs.List.{list_any};
ghost use Rattle.pb_frame.specs.Lists.{Rises};
ghost use Rattle.pb_link.specs.Losses.{is_first};

use pb_frame::Seq;
use std::alloc::AllocError;
use std::marker::Model;

/// The numbers of the items that a lane loses, and the count of items that it took. The numbers rise, and the index of
/// the next one is kept. One comparison decides whether an item is lost.
///
/// Contracts see the numbers and the count.
#[derive(Drop)]
pub(crate) struct Losses {
    numbers: Seq<u64>,
    next: usize,
    taken: u64,
}

impl Model for Losses {
    ghost use Rattle.pb_link.specs.Losses.{LossView, IsNext};

    ghost Value = { LossView };

    ghost view = { λ l. record { numbers = l.numbers; taken = l.taken } };

    ghost invariant = { λ l. IsNext l.numbers l.next l.taken };
}

impl Losses {
    /// Returns the losses of a lane that took no item. The first item has number 0. Allocates nothing.
    pub(crate) fn new(numbers: Seq<u64>) -> Losses
        requires { Rises numbers }
        ensures { result ≡ record { numbers = numbers; taken = 0 } }
    {
        Losses {
            numbers,
            next: 0,
            taken: 0,
        }
    }

    /// Returns the number of the next item.
    pub(crate) fn number(&self) -> u64
        ensures { result ≡ self.now.taken }
    {
        self.taken
    }

    /// Counts the next item, and returns whether it is lost.
    pub(crate) fn take(&mut self) -> bool
        requires { self.old.taken + 1 < 2 ^ 64 }
        ensures lost { result ≡ list_any (λ k. k == self.old.taken) self.old.numbers }
        ensures taken { self.new ≡ record self.old { taken = self.old.taken + 1 } }
    {
        let is_lost = is_next(self.numbers.as_slice(), self.next, self.taken);
        self.next = after_item(self.next, is_lost);
        self.taken += 1;
        is_lost
    }
}

/// Checks whether `number` is the first of the numbers from index `next` on.
fn is_next(numbers: &[u64], next: usize, number: u64) -> bool
    ensures first { result ≡ is_first (drop next numbers.now) number }
    ensures within { result ≡ true → next + 1 < 2 ^ 64 }
{
    next < numbers.len() && numbers[next] == number
}

/// Returns the index of the next number, after an item that was lost or not.
fn after_item(next: usize, is_lost: bool) -> usize
    requires { is_lost ≡ true → next + 1 < 2 ^ 64 }
    ensures { result ≡ (if is_lost then next + 1 else next) }
{
    if is_lost { next + 1 } else { next }
}

/// The copy is equal.
impl Clone for Losses {
    ghost is_clone = { λ losses copy. copy ≡ losses };

    fn clone(&self) -> Result<Losses, AllocError> {
        Ok(Losses {
            numbers: self.numbers.clone()?,
            next: self.next,
            taken: self.taken,
        })
    }
}
