//! The newest states of a bridge's ports.

ghost use Rattle.std.specs.Option.{option_copied};
ghost use Rattle.std.specs.Prelude.{◌≡◌, ◌≤◌, [], ◌∷◌, ◌++◌, unwrap_or, option_to_list};
ghost use Rattle.pb_lan.specs.Shapes.{changed, changes_of, moved_of};
ghost use Rattle.pb_lan.specs.declared.shape.PortState.{PortState};
ghost use Rattle.pb_history.specs.Newest.{HaveSet};

use pb_lan::{Moved, Past, PortState, Step};
use std::marker::Model;

/// The number of states: one for each local port by its number, 1 to 16. No port has number 0.
const PLACES: usize = 17;

/// The newest state to which steps set each local port. Contracts see the list of recorded steps.
#[derive(Drop)]
pub(crate) struct Newest {
    past: Past<Step>,
    states: [Option<PortState>; PLACES],
}

impl Model for Newest {
    ghost use Rattle.std.specs.Prelude.{List};
    ghost use Rattle.pb_lan.specs.declared.step.Step.{Step};
    ghost use Rattle.pb_history.specs.Newest.{AreNewest};

    ghost Value = { List Step };

    ghost view = { λ n. n.past.items };

    ghost invariant = { λ n. AreNewest n.past.items n.states };
}

/// Returns what the spanning tree did to the bridge's ports in a step, if it ran.
#[inline(always)]
pub(crate) fn moved_by(step: &Step) -> Option<&Moved>
    ensures { option_to_list (option_copied result) ≡ moved_of step.now }
{
    match step {
        Step::Receive {
            moved: Some(moved),
            ..
        } => Some(moved.get()),
        Step::Tick { moved, .. } | Step::Admin { moved, .. } => Some(moved),
        _ => None,
    }
}

/// Applies changes of states. A change at a number that no local port has is ignored.
fn set_all(states: &mut [Option<PortState>; PLACES], changes: &[(u8, PortState)])
    ensures { HaveSet states.old states.new changes.now }
{
    for change in changes {
        let (port, state) = *change;
        let place = usize::from(port);
        if place < PLACES {
            states[place] = Some(state);
        }
    }
}

impl Newest {
    /// Returns the states of no steps.
    pub(crate) fn new() -> Newest
        ensures { result ≡ [] }
    {
        Newest {
            past: Past::new(),
            states: [None; PLACES],
        }
    }

    /// Returns an equal copy. Allocates nothing.
    pub(crate) fn copied(&self) -> Newest
        ensures { result ≡ self.now }
    {
        Newest {
            past: self.past.copied(),
            states: self.states,
        }
    }

    /// Records one more step.
    #[inline(always)]
    pub(crate) fn note(&mut self, step: &Step)
        ensures { self.new ≡ self.old ++ step.now ∷ [] }
    {
        if let Some(moved) = moved_by(step) {
            set_all(&mut self.states, moved.states.as_slice());
        }
        self.past.note(step);
    }

    /// Returns the newest state of a port, or `None` if no step set it.
    pub(crate) fn at(&self, port: u8) -> Option<PortState>
        requires { port ≤ 16 }
        ensures { (start : PortState) → unwrap_or result start ≡ changed port start (changes_of self.now) }
    {
        self.states[usize::from(port)]
    }
}
