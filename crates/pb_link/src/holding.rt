//! What a place has in hand.

ghost use Rattle.std.specs.Option.{option_copied};
ghost use Rattle.std.specs.Prelude.{◌≡◌};
ghost use Rattle.pb_link.specs.Holdings.{brought_by, held, holding_of, is_nothing};

use pb_lan::{Item, Step};
use std::alloc::AllocError;
use std::mem::replace;

/// The item that came to a place and has not gone on.
#[derive(Drop)]
pub(crate) enum Holding {
    /// No item.
    Nothing,
    /// The item of the step at this index of the list. Steps are kept.
    At(usize),
    /// This item, held by value. Steps are only counted.
    This(Item),
}

/// Returns the item that a step brought, if it is a Poll or a Take.
fn brought_by(step: &Step) -> Option<&Item>
    ensures { option_copied result ≡ brought_by step.now }
{
    match step {
        Step::Poll { item } => Some(item),
        Step::Take { item, .. } => Some(item),
        _ => None,
    }
}

impl Holding {
    /// Returns the item of a step that was appended at index `place`, or that was given back because it is only
    /// counted.
    pub(crate) fn of(place: usize, back: Option<Step>) -> Holding
        ensures { result ≡ holding_of place back }
    {
        match back {
            None => Holding::At(place),
            Some(Step::Poll { item }) => Holding::This(item),
            Some(Step::Take { item, .. }) => Holding::This(item),
            Some(_) => Holding::Nothing,
        }
    }

    /// Checks whether no item is in hand.
    pub(crate) fn is_nothing(&self) -> bool
        ensures { result ≡ is_nothing self.now }
    {
        match self {
            Holding::Nothing => true,
            _ => false,
        }
    }

    /// Returns the item in hand of a place that took these steps.
    pub(crate) fn item<'a>(&'a self, steps: &'a [Step]) -> Option<&'a Item>
        ensures { option_copied result ≡ held steps.now self.now }
    {
        match self {
            Holding::Nothing => None,
            Holding::At(place) => brought_by(steps.get(*place)?),
            Holding::This(item) => Some(item),
        }
    }

    /// Takes the item, which is held by value, out of the hand.
    pub(crate) fn take(&mut self) -> Item
        requires { (item : _) × (self.old ≡ Holding.This item) }
        ensures item { self.old ≡ Holding.This result }
        ensures empty { self.new ≡ Holding.Nothing }
    {
        match replace(self, Holding::Nothing) {
            Holding::This(item) => item,
            _ => unreachable!(),
        }
    }
}

/// The copy is equal.
impl Clone for Holding {
    ghost is_clone = { λ holding copy. copy ≡ holding };

    fn clone(&self) -> Result<Holding, AllocError> {
        Ok(match self {
            Holding::Nothing => Holding::Nothing,
            Holding::At(place) => Holding::At(*place),
            Holding::This(item) => Holding::This(item.clone()?),
        })
    }
}
