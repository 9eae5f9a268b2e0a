//! Whether customers' frames remain in a network.

ghost use Rattle.std.specs.Prelude.{◌≡◌, ◌↔◌, ◌≤◌, ◌*◌, ◌^◌, IsTrue, length};
ghost use Rattle.pb_forest.specs.Draining.{gains, losses, Balances, TellsDrained};

use pb_history::{Tallies, Tally};

/// The most places of one kind in a record of a sound plan.
const MOST_PLACES: usize = 128;

/// Returns how many customers' frames the steps of the places add.
fn gains(places: &[Tally]) -> u128
    requires { length places.now ≤ 128 }
    ensures exact { result ≡ gains places.now }
    ensures few { result ≤ 2048 * 2 ^ 64 }
{
    let mut sum = 0;
    for tally in places {
        sum += tally.gained();
    }
    sum
}

/// Returns how many customers' frames the steps of the places remove.
fn losses(places: &[Tally]) -> u128
    requires { length places.now ≤ 128 }
    ensures exact { result ≡ losses places.now }
    ensures few { result ≤ 2048 * 2 ^ 64 }
{
    let mut sum = 0;
    for tally in places {
        sum += tally.parted();
    }
    sum
}

/// Checks whether there are no more places of a kind than a sound plan has.
fn has_few(places: &[Tally]) -> bool
    ensures { IsTrue result ↔ length places.now ≤ 128 }
{
    places.len() <= MOST_PLACES
}

/// Checks whether the places add as many customers' frames as they remove.
fn balances(tallies: &Tallies) -> bool
    requires bridges { length tallies.now.bridges ≤ 128 }
    requires lanes { length tallies.now.lanes ≤ 128 }
    requires customers { length tallies.now.customers ≤ 128 }
    ensures { IsTrue result ↔ Balances tallies.now }
{
    let (bridges, lanes) = (tallies.bridges(), tallies.lanes());
    let customers = tallies.customers();
    gains(bridges) + gains(lanes) + gains(customers)
        == losses(bridges) + losses(lanes) + losses(customers)
}

/// Checks whether no queue, meeting place or hand of a network holds a customer's frame, by the steps of its places.
/// Allocates nothing. The time is linear in the places, which no contract states.
///
/// For a record that the places of a network of a sound plan can have, it is true if and only if no such frame
/// remains. Then each queue holds what was queued there and not sent, each meeting place what was sent and not
/// received, and each hand what was taken and not put. Frames that the bridges made themselves do not count. Nothing
/// is guaranteed for any other record.
pub fn is_drained(tallies: &Tallies) -> bool
    ensures { TellsDrained tallies.now result }
{
    has_few(tallies.bridges())
        && has_few(tallies.lanes())
        && has_few(tallies.customers())
        && balances(tallies)
}
