//! Look-ups in plans and shapes, and the active links.

ghost use Rattle.std.specs.Prelude.{◌≡◌, ◌==◌};
ghost use Rattle.std.specs.List.{list_any};
ghost use Rattle.std.specs.Option.{option_copied};
ghost use Rattle.pb_forest.specs.ServiceVids.{vid_numbered};
ghost use Rattle.pb_lan.specs.Numbering.{numbered};
ghost use Rattle.pb_lan.specs.Ports.{has_vid, serves};
ghost use Rattle.pb_lan.specs.Shapes.{is_forwarding, state_in, is_end_forwarding, are_ends_forwarding, is_open};
ghost use Rattle.pb_lan.specs.Shapes.{is_active};

use pb_lan::{End, LinkPlan, Plan, PortState, ServicePlan, Shape};

/// Returns the element with this number, or `None` if there is none. The first has number 1, and none has number 0.
pub fn numbered<T>(things: &[T], number: usize) -> Option<&T>
    ensures { option_copied result ≡ numbered things.now number }
{
    if number == 0 {
        return None;
    }
    things.get(number - 1)
}

/// Returns the VID of the service with this number, counted from 1, or 0 if there is none. No service of a sound plan
/// has VID 0.
pub fn vid_numbered(plan: &Plan, service: u8) -> u16
    ensures { result ≡ vid_numbered plan.now service }
{
    match numbered(plan.services.as_slice(), service as usize) {
        None => 0,
        Some(service) => service.vid,
    }
}

/// Checks whether the service with this number has this VID.
fn has_vid(plan: &Plan, vid: u16, service: u8) -> bool
    ensures { result ≡ has_vid plan.now vid service }
{
    match numbered(plan.services.as_slice(), service as usize) {
        None => false,
        Some(service) => service.vid == vid,
    }
}

/// Checks whether some service has this VID.
fn is_vid_of_some(services: &[ServicePlan], vid: u16) -> bool
    ensures { result ≡ list_any (λ s. s.vid == vid) services.now }
{
    services.iter().any(|service| service.vid == vid)
}

/// Checks whether one of the services with these numbers has this VID.
fn is_vid_of_listed(plan: &Plan, vid: u16, numbers: &[u8]) -> bool
    ensures { result ≡ list_any (has_vid plan.now vid) numbers.now }
{
    numbers.iter().any(|number| has_vid(plan, vid, *number))
}

/// Checks whether the end is a member of a service with this VID.
fn serves(plan: &Plan, vid: u16, end: &End) -> bool
    ensures { result ≡ serves plan.now vid end.now }
{
    match &end.services {
        None => is_vid_of_some(plan.services.as_slice(), vid),
        Some(numbers) => is_vid_of_listed(plan, vid, numbers.as_slice()),
    }
}

/// Returns the state of a bridge's port in a shape, or Discarding if the shape has no such bridge, or the bridge no
/// such port.
///
/// `bridge` is a bridge's number and `port` a local port, both counted from 1.
pub fn state_in(shape: &Shape, bridge: u8, port: u8) -> PortState
    ensures { result ≡ state_in shape.now bridge port }
{
    match numbered(shape.states.as_slice(), bridge as usize) {
        None => PortState::Discarding,
        Some(states) => match numbered(states.as_slice(), port as usize) {
            None => PortState::Discarding,
            Some(state) => *state,
        },
    }
}

/// Checks whether the state is Forwarding.
fn is_forwarding(state: PortState) -> bool
    ensures { result ≡ is_forwarding state }
{
    match state {
        PortState::Forwarding => true,
        PortState::Discarding | PortState::Learning => false,
    }
}

/// Checks whether the end is Forwarding.
fn is_end_forwarding(shape: &Shape, end: &End) -> bool
    ensures { result ≡ is_end_forwarding shape.now end.now }
{
    is_forwarding(state_in(shape, end.bridge, end.port))
}

/// Checks whether both ends of a link are Forwarding in a shape.
pub fn are_ends_forwarding(shape: &Shape, link: &LinkPlan) -> bool
    ensures { result ≡ are_ends_forwarding shape.now link.now }
{
    is_end_forwarding(shape, &link.a) && is_end_forwarding(shape, &link.b)
}

/// Checks whether the end is Forwarding, and a member of the service.
fn is_open(plan: &Plan, shape: &Shape, vid: u16, end: &End) -> bool
    ensures { result ≡ is_open plan.now shape.now vid end.now }
{
    is_end_forwarding(shape, end) && serves(plan, vid, end)
}

/// Checks whether a link carries the service with this VID in a shape: both its ends are Forwarding and members of
/// the service (IEEE 802.1Q clause 8.8).
pub fn is_active(plan: &Plan, shape: &Shape, vid: u16, link: &LinkPlan) -> bool
    ensures { result ≡ is_active plan.now shape.now vid link.now }
{
    is_open(plan, shape, vid, &link.a) && is_open(plan, shape, vid, &link.b)
}
