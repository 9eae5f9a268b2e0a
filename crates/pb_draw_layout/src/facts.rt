//! The facts that a picture shows of each part of a plan's network.

ghost use Rattle.std.specs.Prelude.{◌≡◌};
ghost use Rattle.pb_lan.specs.Plans.{IsSound};
ghost use Rattle.pb_draw_layout.specs.Facts.{shade, service_tone, bridge_tone, link_tone, carries_some, is_active_link};
ghost use Rattle.pb_draw_layout.specs.Facts.{ends_failed, link_state, is_among, touches, is_port_of, has_port};
ghost use Rattle.pb_draw_layout.specs.Facts.{has_lit_link, bridge_facts, known_facts, link_facts, port_facts};
ghost use Rattle.pb_draw_layout.specs.Facts.{service_facts};

use crate::apart::is_cut_off;
use crate::findings::Findings;
use crate::roots::{is_failed, is_root};
use pb_forest::{are_ends_forwarding, is_active, numbered, state_in};
use pb_frame::Seq;
use pb_lan::{CustomerPlan, LinkPlan, Plan, PortState, Shape};
use pb_names::service_at;

/// The emphasis of a part of the network.
#[derive(Clone, Copy, PartialEq, Eq, Debug)]
pub enum Tone {
    /// Normal: no service is highlighted.
    Plain,
    /// Highlighted: the part belongs to the chosen service.
    Lit,
    /// Faint: the part does not belong to the chosen service.
    Faint,
}

/// Which ends of a link are disabled.
#[derive(Clone, Copy, PartialEq, Eq, Debug)]
pub struct DownEnds {
    /// The end `a`.
    pub a: bool,
    /// The end `b`.
    pub b: bool,
}

/// The bridges and the ends of links that have failed.
#[derive(PartialEq, Eq, Debug, Drop)]
pub struct Failures {
    /// Whether a bridge has failed, by bridge.
    pub bridges: Seq<bool>,
    /// The disabled ends, by link.
    pub links: Seq<DownEnds>,
}

/// The state of a link.
#[derive(Clone, Copy, PartialEq, Eq, Debug)]
pub enum LinkState {
    /// Both ends are Forwarding and members of at least one service. In a plan without services: both are Forwarding.
    Active,
    /// The link is neither active nor failed.
    Standby,
    /// An end of the link is disabled.
    Failed,
}

/// The facts of a bridge.
#[derive(Clone, Copy, PartialEq, Eq, Debug)]
pub struct BridgeFacts {
    /// Its number.
    pub number: u8,
    /// Whether it has failed.
    pub is_failed: bool,
    /// Whether it is the root of its tree.
    pub is_root: bool,
    /// Lit if a customer port of the chosen service or a lit link is at the bridge.
    pub tone: Tone,
}

/// The facts of a link.
#[derive(Clone, Copy, PartialEq, Eq, Debug)]
pub struct LinkFacts {
    /// Its number.
    pub number: u8,
    /// The state of the port at its end `a`.
    pub a: PortState,
    /// The state of the port at its end `b`.
    pub b: PortState,
    /// Its disabled ends.
    pub failed: DownEnds,
    /// Its state.
    pub state: LinkState,
    /// Lit if the link is on a path between two customer ports of the chosen service.
    pub tone: Tone,
}

/// The facts of a customer port.
#[derive(Clone, Copy, PartialEq, Eq, Debug)]
pub struct PortFacts {
    /// Its number.
    pub number: u8,
    /// The number of its service.
    pub service: u8,
    /// Lit if that is the chosen service.
    pub tone: Tone,
    /// Whether it is of the chosen service and joined with at most half of that service's customer ports, itself
    /// included.
    pub is_cut_off: bool,
}

/// The facts of a service.
#[derive(Clone, Copy, PartialEq, Eq, Debug)]
pub struct ServiceFacts {
    /// Its number.
    pub number: u8,
    /// Lit if it is the chosen service.
    pub tone: Tone,
}

/// Returns the tone of a part that belongs to the chosen service or doesn't.
fn shade(belongs: bool) -> Tone
    ensures { result ≡ shade belongs }
{
    if belongs { Tone::Lit } else { Tone::Faint }
}

/// Returns the tone of a service.
fn service_tone(chosen: Option<u8>, service: u8) -> Tone
    ensures { result ≡ service_tone chosen service }
{
    match chosen {
        None => Tone::Plain,
        Some(asked) => shade(asked == service),
    }
}

/// Checks whether a link is active for some service.
fn carries_some(plan: &Plan, shape: &Shape, link: &LinkPlan) -> bool
    ensures { result ≡ carries_some plan.now shape.now link.now }
{
    plan.services
        .as_slice()
        .iter()
        .any(|service| is_active(plan, shape, service.vid, link))
}

/// Checks whether a link is active: both its ends are Forwarding and members of at least one service. In a plan without
/// services it is, if both its ends are Forwarding.
pub fn is_active_link(plan: &Plan, shape: &Shape, link: &LinkPlan) -> bool
    ensures { result ≡ is_active_link plan.now shape.now link.now }
{
    if plan.services.as_slice().is_empty() {
        are_ends_forwarding(shape, link)
    } else {
        carries_some(plan, shape, link)
    }
}

/// Returns the state of a link with these disabled ends that is active, or would be.
fn link_state(failed: DownEnds, active: bool) -> LinkState
    ensures { result ≡ link_state failed active }
{
    if failed.a || failed.b {
        LinkState::Failed
    } else if active {
        LinkState::Active
    } else {
        LinkState::Standby
    }
}

/// Returns the disabled ends of a link.
fn ends_failed(failed: &Failures, link: u8) -> DownEnds
    ensures { result ≡ ends_failed failed.now link }
{
    match numbered(failed.links.as_slice(), link as usize) {
        None => DownEnds { a: false, b: false },
        Some(ends) => *ends,
    }
}

/// Checks whether a customer port is at a bridge and of a service.
fn is_port_of(service: u8, bridge: u8, customer: &CustomerPlan) -> bool
    ensures { result ≡ is_port_of service bridge customer.now }
{
    customer.bridge == bridge && customer.service == service
}

/// Checks whether a customer port of a service is at a bridge.
fn has_port(plan: &Plan, service: u8, bridge: u8) -> bool
    ensures { result ≡ has_port plan.now service bridge }
{
    plan.customers
        .as_slice()
        .iter()
        .any(|customer| is_port_of(service, bridge, customer))
}

/// Checks whether a number is among these.
fn is_among(numbers: &[u8], number: u8) -> bool
    ensures { result ≡ is_among numbers.now number }
{
    numbers.iter().any(|one| *one == number)
}

/// Checks whether the link with a number ends at a bridge.
fn touches(plan: &Plan, bridge: u8, link: u8) -> bool
    ensures { result ≡ touches plan.now bridge link }
{
    match numbered(plan.links.as_slice(), link as usize) {
        None => false,
        Some(link) => link.a.bridge == bridge || link.b.bridge == bridge,
    }
}

/// Checks whether a lit link ends at a bridge.
fn has_lit_link(plan: &Plan, lit: &[u8], bridge: u8) -> bool
    ensures { result ≡ has_lit_link plan.now lit.now bridge }
{
    lit.iter().any(|link| touches(plan, bridge, *link))
}

/// Returns the tone of a bridge.
fn bridge_tone(plan: &Plan, chosen: Option<u8>, lit: &[u8], bridge: u8) -> Tone
    ensures { result ≡ bridge_tone plan.now chosen lit.now bridge }
{
    match chosen {
        None => Tone::Plain,
        Some(service) => {
            shade(has_port(plan, service, bridge) || has_lit_link(plan, lit, bridge))
        }
    }
}

/// Returns the tone of the link with a number.
fn link_tone(chosen: Option<u8>, lit: &[u8], link: u8) -> Tone
    ensures { result ≡ link_tone chosen lit.now link }
{
    match chosen {
        None => Tone::Plain,
        Some(_) => shade(is_among(lit, link)),
    }
}

/// Returns the facts of the bridge with a number.
pub(crate) fn bridge_facts(
    plan: &Plan,
    failed: &Failures,
    found: &Findings,
    number: u8,
) -> BridgeFacts
    requires { IsSound plan.now }
    ensures { result ≡ bridge_facts plan.now failed.now found.now number }
{
    BridgeFacts {
        number,
        is_failed: is_failed(failed, number),
        is_root: is_root(plan, failed, &found.trees, number),
        tone: bridge_tone(plan, found.chosen, found.lit.as_slice(), number),
    }
}

/// Returns the facts of a link of the plan.
fn known_facts(
    plan: &Plan,
    shape: &Shape,
    failed: DownEnds,
    tone: Tone,
    number: u8,
    link: &LinkPlan,
) -> LinkFacts
    ensures { result ≡ known_facts plan.now shape.now failed tone number link.now }
{
    LinkFacts {
        number,
        a: state_in(shape, link.a.bridge, link.a.port),
        b: state_in(shape, link.b.bridge, link.b.port),
        failed,
        state: link_state(failed, is_active_link(plan, shape, link)),
        tone,
    }
}

/// Returns the facts of the link with a number. A link that the plan lacks is on standby, with Discarding ends.
pub(crate) fn link_facts(
    plan: &Plan,
    shape: &Shape,
    failed: &Failures,
    found: &Findings,
    number: u8,
) -> LinkFacts
    ensures { result ≡ link_facts plan.now shape.now failed.now found.now number }
{
    let failed = ends_failed(failed, number);
    let tone = link_tone(found.chosen, found.lit.as_slice(), number);
    match numbered(plan.links.as_slice(), number as usize) {
        None => LinkFacts {
            number,
            a: PortState::Discarding,
            b: PortState::Discarding,
            failed,
            state: LinkState::Standby,
            tone,
        },
        Some(link) => known_facts(plan, shape, failed, tone, number, link),
    }
}

/// Returns the facts of the customer port with a number.
pub(crate) fn port_facts(plan: &Plan, found: &Findings, number: u8) -> PortFacts
    ensures { result ≡ port_facts plan.now found.now number }
{
    let service = service_at(plan, number);
    PortFacts {
        number,
        service,
        tone: service_tone(found.chosen, service),
        is_cut_off: is_cut_off(plan, found, number),
    }
}

/// Returns the facts of the service with a number.
pub(crate) fn service_facts(chosen: Option<u8>, number: u8) -> ServiceFacts
    ensures { result ≡ service_facts chosen number }
{
    ServiceFacts {
        number,
        tone: service_tone(chosen, number),
    }
}
