//! Counts of frames through a customer port, and of items through a lane.

ghost use Rattle.std.specs.Prelude.{◌≡◌, ◌<◌, [], ◌∷◌, ◌++◌, length};
ghost use Rattle.std.specs.List.{count_by};
ghost use Rattle.pb_history.specs.Passages.{is_poll, is_departure, is_gone, is_take, is_loss};

use pb_lan::{Past, Step};
use std::marker::Model;

/// The numbers of steps of each kind. Contracts see the list of recorded steps.
#[derive(Drop)]
pub(crate) struct Passages {
    past: Past<Step>,
    steps: u64,
    entered: u64,
    left: u64,
    gone: u64,
    taken: u64,
    lost: u64,
}

impl Model for Passages {
    ghost use Rattle.std.specs.Prelude.{List};
    ghost use Rattle.pb_lan.specs.declared.step.Step.{Step};
    ghost use Rattle.pb_history.specs.Passages.{ArePassages};

    ghost Value = { List Step };

    ghost view = { λ p. p.past.items };

    ghost invariant = { λ p. ArePassages p.past.items p.steps p.entered p.left p.gone p.taken p.lost };
}

/// Checks whether a frame entered through a customer port.
#[inline(always)]
fn is_poll(step: &Step) -> bool
    ensures { result ≡ is_poll step.now }
{
    matches!(step, Step::Poll { .. })
}

/// Checks whether a frame left through a customer port.
#[inline(always)]
fn is_departure(step: &Step) -> bool
    ensures { result ≡ is_departure step.now }
{
    match step {
        Step::Deliver { gone, .. } => !*gone,
        _ => false,
    }
}

/// Checks whether a frame was lost at a customer port that takes no more frames.
#[inline(always)]
fn is_gone(step: &Step) -> bool
    ensures { result ≡ is_gone step.now }
{
    match step {
        Step::Deliver { gone, .. } => *gone,
        _ => false,
    }
}

/// Checks whether a lane took an item.
#[inline(always)]
fn is_take(step: &Step) -> bool
    ensures { result ≡ is_take step.now }
{
    matches!(step, Step::Take { .. })
}

/// Checks whether a lane lost an item.
#[inline(always)]
fn is_loss(step: &Step) -> bool
    ensures { result ≡ is_loss step.now }
{
    match step {
        Step::Take { lost, .. } => *lost,
        _ => false,
    }
}

impl Passages {
    /// Returns the counts of no steps.
    pub(crate) fn new() -> Passages
        ensures { result ≡ [] }
    {
        Passages {
            past: Past::new(),
            steps: 0,
            entered: 0,
            left: 0,
            gone: 0,
            taken: 0,
            lost: 0,
        }
    }

    /// Returns an equal copy. Allocates nothing.
    pub(crate) fn copied(&self) -> Passages
        ensures { result ≡ self.now }
    {
        Passages {
            past: self.past.copied(),
            steps: self.steps,
            entered: self.entered,
            left: self.left,
            gone: self.gone,
            taken: self.taken,
            lost: self.lost,
        }
    }

    /// Records one more step.
    #[inline(always)]
    pub(crate) fn note(&mut self, step: &Step)
        requires { length self.old < u64.MAX }
        ensures { self.new ≡ self.old ++ step.now ∷ [] }
    {
        self.steps += 1;
        self.entered += u64::from(is_poll(step));
        self.left += u64::from(is_departure(step));
        self.gone += u64::from(is_gone(step));
        self.taken += u64::from(is_take(step));
        self.lost += u64::from(is_loss(step));
        self.past.note(step);
    }

    /// Returns the number of steps.
    #[inline(always)]
    pub(crate) fn len(&self) -> u64
        ensures { result ≡ length self.now }
    {
        self.steps
    }

    /// Returns how many frames entered.
    pub(crate) fn entered(&self) -> u64
        ensures { result ≡ count_by is_poll self.now }
    {
        self.entered
    }

    /// Returns how many frames left.
    pub(crate) fn left(&self) -> u64
        ensures { result ≡ count_by is_departure self.now }
    {
        self.left
    }

    /// Returns how many frames were lost at a port that takes no more frames.
    pub(crate) fn gone(&self) -> u64
        ensures { result ≡ count_by is_gone self.now }
    {
        self.gone
    }

    /// Returns how many items were taken.
    pub(crate) fn taken(&self) -> u64
        ensures { result ≡ count_by is_take self.now }
    {
        self.taken
    }

    /// Returns how many items were lost.
    pub(crate) fn lost(&self) -> u64
        ensures { result ≡ count_by is_loss self.now }
    {
        self.lost
    }
}
