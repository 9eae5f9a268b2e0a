//! Checks that names, addresses and VIDs are distinct.

ghost use Rattle.std.specs.Prelude.{◌≡◌, ◌↔◌, ℕ, List, IsTrue, map, nat_eq};
ghost use Rattle.std.specs.List.{list_any, IsDistinct};
ghost use Rattle.pb_frame.specs.Admission.{same};

use crate::plan::{BridgePlan, CustomerPlan, End, LinkPlan, Plan, ServicePlan};
use pb_frame::{Mac, Text};

/// A part of a plan that has a name.
pub(crate) trait Named {
    ghost name_of: { Self → List ℕ };

    /// Returns the name.
    fn name(&self) -> &Text
        ensures { result.now ≡ name_of self.now };
}

impl Named for BridgePlan {
    ghost name_of = { λ b. b.name };

    fn name(&self) -> &Text {
        &self.name
    }
}

impl Named for LinkPlan {
    ghost name_of = { λ l. l.name };

    fn name(&self) -> &Text {
        &self.name
    }
}

impl Named for ServicePlan {
    ghost name_of = { λ s. s.name };

    fn name(&self) -> &Text {
        &self.name
    }
}

impl Named for CustomerPlan {
    ghost name_of = { λ c. c.name };

    fn name(&self) -> &Text {
        &self.name
    }
}

/// Checks whether one of the parts has the name.
fn has_name<T: Named>(name: &Text, things: &[T]) -> bool
    ensures { result ≡ list_any (λ t. same name.now (T.name_of t)) things.now }
{
    things.iter().any(|thing| name == thing.name())
}

/// Checks whether no two parts have the same name.
pub(crate) fn names_differ<T: Named>(things: &[T]) -> bool
    ensures { IsTrue result ↔ IsDistinct same (map T.name_of things.now) }
{
    let mut rest = things;
    while let [first, others @ ..] = rest {
        if has_name(first.name(), others) {
            return false;
        }
        rest = others;
    }
    true
}

/// Checks whether one of the bridges has the address.
fn has_address(address: &Mac, bridges: &[BridgePlan]) -> bool
    ensures { result ≡ list_any (λ b. same address.now.0 b.address.0) bridges.now }
{
    bridges.iter().any(|bridge| *address == bridge.address)
}

/// Checks whether no two bridges have the same address.
pub(crate) fn addresses_differ(bridges: &[BridgePlan]) -> bool
    ensures { IsTrue result ↔ IsDistinct same (map (λ b. b.address.0) bridges.now) }
{
    let mut rest = bridges;
    while let [first, others @ ..] = rest {
        if has_address(&first.address, others) {
            return false;
        }
        rest = others;
    }
    true
}

/// Checks whether one of the services has the VID.
fn has_vid(vid: u16, services: &[ServicePlan]) -> bool
    ensures { result ≡ list_any (λ s. nat_eq vid s.vid) services.now }
{
    services.iter().any(|service| vid == service.vid)
}

/// Checks whether no two services have the same VID.
pub(crate) fn vids_differ(services: &[ServicePlan]) -> bool
    ensures { IsTrue result ↔ IsDistinct nat_eq (map (λ s. s.vid) services.now) }
{
    let mut rest = services;
    while let [first, others @ ..] = rest {
        if has_vid(first.vid, others) {
            return false;
        }
        rest = others;
    }
    true
}
