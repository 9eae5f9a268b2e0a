//! The counts of frames at the places of a network.

ghost use Rattle.std.specs.Prelude.{◌≡◌, unwrap_or};
ghost use Rattle.std.specs.List.{count_by};
ghost use Rattle.std.specs.Option.{option_copied};
ghost use Rattle.pb_lan.specs.Numbering.{numbered};
ghost use Rattle.pb_lan.specs.Plans.{IsSound};
ghost use Rattle.pb_lan.specs.Records.{steps_of};
ghost use Rattle.pb_step_script.specs.Counts.{filtered_at};
ghost use Rattle.pb_history.specs.Passages.{is_poll, is_departure, is_take, is_loss};

use pb_history::{Tallies, Tally};
use pb_lan::Plan;

/// Returns the counts of the place with this number, from 1, if there is one.
fn tally_of(places: &[Tally], number: usize) -> Option<&Tally>
    ensures { option_copied result ≡ numbered places.now number }
{
    if number == 0 {
        return None;
    }
    places.get(number - 1)
}

/// Returns the number of frames that entered at a customer port, and the number that left at it.
pub(crate) fn passed(tallies: &Tallies, number: u8) -> (u64, u64)
    ensures entered { result.0 ≡ count_by is_poll (steps_of tallies.now.customers number) }
    ensures left { result.1 ≡ count_by is_departure (steps_of tallies.now.customers number) }
{
    match tally_of(tallies.customers(), usize::from(number)) {
        Some(tally) => (tally.entered(), tally.left()),
        None => (0, 0),
    }
}

/// Returns the number of frames of a customer port that its bridge filtered.
pub(crate) fn filtered_at(plan: &Plan, tallies: &Tallies, number: u8) -> u64
    requires { IsSound plan.now }
    ensures { result ≡ filtered_at tallies.now (numbered plan.now.customers number) }
{
    if number == 0 {
        return 0;
    }
    let Some(customer) = plan.customers.as_slice().get(usize::from(number) - 1) else {
        return 0;
    };
    match tally_of(tallies.bridges(), usize::from(customer.bridge)) {
        Some(tally) => tally.filtered(customer.port),
        None => 0,
    }
}

/// Returns the number of items that a lane took, and the number of those that it lost.
pub(crate) fn carried(tallies: &Tallies, lane: usize) -> (u64, u64)
    ensures taken { result.0 ≡ count_by is_take (steps_of tallies.now.lanes lane) }
    ensures lost { result.1 ≡ count_by is_loss (steps_of tallies.now.lanes lane) }
{
    match tally_of(tallies.lanes(), lane) {
        Some(tally) => (tally.taken(), tally.lost()),
        None => (0, 0),
    }
}
