//! What is found out about a network before its parts are drawn: which bridges links join, and which links are on the
//! paths of a service.

ghost use Rattle.std.specs.Prelude.{◌≡◌, ◌↔◌, ◌∷◌, ◌++◌, ◌&&◌, [], true, Some, if◌then◌else◌, unwrap_or, IfOk, OnOk};
ghost use Rattle.pb_joins.specs.Joins.{TellsJoined};
ghost use Rattle.pb_lan.specs.Numbering.{numbered};
ghost use Rattle.pb_lan.specs.Plans.{IsNumber, IsSound};
ghost use Rattle.pb_lan.specs.Shapes.{are_ends_forwarding, is_active};
ghost use Rattle.pb_lan.specs.declared.plan.LinkPlan.{LinkPlan};
ghost use Rattle.pb_draw_layout.specs.Paths.{is_other, is_site_at, sites_at, needed_sites, IsOnPath, AreLit, AreFound};

use pb_forest::{are_ends_forwarding, is_active, numbered, vid_numbered};
use pb_frame::{Memory, Seq};
use pb_joins::{mark_at, marks};
use pb_lan::{CustomerPlan, LinkPlan, Plan, Shape};
use std::alloc::Global;

/// What is found out about a network. Two bridges have the same mark if and only if links join them.
#[derive(Drop)]
pub(crate) struct Findings {
    /// The number of the chosen service, if there is one.
    pub chosen: Option<u8>,
    /// A mark of each bridge, by the links whose two ends are Forwarding.
    pub trees: [u8; 32],
    /// A mark of each bridge, by the links that are active for the chosen service.
    pub sites: [u8; 32],
    /// The numbers of the links on paths between customer ports of the chosen service.
    pub lit: Seq<u8>,
}

/// Returns a mark for each bridge. Two bridges have the same mark if and only if links join them whose two ends are
/// Forwarding.
fn tree_marks(plan: &Plan, shape: &Shape) -> [u8; 32]
    requires { IsSound plan.now }
    ensures { TellsJoined plan.now (are_ends_forwarding shape.now) result }
{
    marks(plan, &|link: &LinkPlan| are_ends_forwarding(shape, link))
}

/// Returns a mark for each bridge. Two bridges have the same mark if and only if active links of a service join them.
fn site_marks(plan: &Plan, shape: &Shape, vid: u16) -> [u8; 32]
    requires { IsSound plan.now }
    ensures { TellsJoined plan.now (is_active plan.now shape.now vid) result }
{
    marks(plan, &|link: &LinkPlan| is_active(plan, shape, vid, link))
}

/// Checks whether a link is active for a service and has another name than this one.
fn is_other(plan: &Plan, shape: &Shape, vid: u16, link: &LinkPlan, other: &LinkPlan) -> bool
    ensures { result ≡ is_other plan.now shape.now vid link.now other.now }
{
    is_active(plan, shape, vid, other) && other.name.as_str() != link.name.as_str()
}

/// Returns a mark for each bridge. Two bridges have the same mark if and only if active links of a service other than
/// this one join them.
fn other_marks(plan: &Plan, shape: &Shape, vid: u16, link: &LinkPlan) -> [u8; 32]
    requires { IsSound plan.now }
    ensures { TellsJoined plan.now (is_other plan.now shape.now vid link.now) result }
{
    marks(
        plan,
        &|other: &LinkPlan| { is_other(plan, shape, vid, link, other) },
    )
}

/// Checks whether a customer port is of a service and at a bridge with a mark.
fn is_site_at(marks: &[u8; 32], service: u8, mark: u8, site: &CustomerPlan) -> bool
    ensures { result ≡ is_site_at marks.now service mark site.now }
{
    site.service == service && mark_at(marks, site.bridge) == mark
}

/// Returns the number of customer ports of a service at bridges with a mark.
fn sites_at(plan: &Plan, marks: &[u8; 32], service: u8, mark: u8) -> usize
    ensures { result ≡ sites_at plan.now marks.now service mark }
{
    plan.customers
        .as_slice()
        .iter()
        .filter(|site| is_site_at(marks, service, mark, site))
        .count()
}

/// Returns how many customer ports have to be at the marks of a link's two bridges: two if the marks are equal, else
/// one at each.
fn needed_sites(a: u8, b: u8) -> usize
    ensures { result ≡ needed_sites a b }
{
    if a == b { 2 } else { 1 }
}

/// Checks whether all three hold.
fn are_all(one: bool, two: bool, three: bool) -> bool
    ensures { result ≡ ((one && two) && three) }
{
    one && two && three
}

/// Checks whether a link is on a path between two customer ports of a service: it is active, and other active links
/// join one of its bridges to the one port and the other bridge to the other port.
fn is_between(plan: &Plan, shape: &Shape, service: u8, link: &LinkPlan) -> bool
    requires sound { IsSound plan.now }
    requires a { IsNumber link.now.a.bridge 32 }
    requires b { IsNumber link.now.b.bridge 32 }
    ensures { (result ≡ true) ↔ IsOnPath plan.now shape.now service link.now }
{
    let vid = vid_numbered(plan, service);
    let marks = other_marks(plan, shape, vid, link);
    let active = is_active(plan, shape, vid, link);
    let a_mark = mark_at(&marks, link.a.bridge);
    let b_mark = mark_at(&marks, link.b.bridge);
    let a = sites_at(plan, &marks, service, a_mark);
    let b = sites_at(plan, &marks, service, b_mark);
    let needed = needed_sites(a_mark, b_mark);
    are_all(active, needed <= a, needed <= b)
}

/// Checks whether the link with a number is on a path between two customer ports of a service.
fn is_on_path(plan: &Plan, shape: &Shape, service: u8, number: u8) -> bool
    requires { IsSound plan.now }
    ensures { (link : LinkPlan) → numbered plan.now.links number ≡ Some link
        → (result ≡ true) ↔ IsOnPath plan.now shape.now service link }
{
    match numbered(plan.links.as_slice(), number as usize) {
        None => false,
        Some(link) => is_between(plan, shape, service, link),
    }
}

/// Appends a number, or nothing.
fn keep(numbers: &mut Vec<u8>, number: u8, is_kept: bool) -> Result<(), Memory>
    ensures { OnOk result (numbers.new.items
        ≡ (if is_kept then numbers.old.items ++ number ∷ [] else numbers.old.items)) }
{
    if !is_kept {
        return Ok(());
    }
    numbers.push(number)?;
    Ok(())
}

/// Returns the numbers of the links on paths between customer ports of a service.
///
/// # Errors
///
/// `Memory` if an allocation failed.
fn lit_links(alloc: Global, plan: &Plan, shape: &Shape, service: u8) -> Result<Seq<u8>, Memory>
    requires { IsSound plan.now }
    ensures { IfOk result (AreLit plan.now shape.now service) }
{
    let mut lit = Vec::new(alloc);
    for place in 0..plan.links.len() {
        let number = place as u8 + 1;
        let is_lit = is_on_path(plan, shape, service, number);
        keep(&mut lit, number, is_lit)?;
    }
    Ok(Seq::from_vec(lit))
}

/// Returns the number of the chosen service, or 0 if there is none.
fn service_of(chosen: Option<u8>) -> u8
    ensures { result ≡ unwrap_or chosen 0 }
{
    match chosen {
        None => 0,
        Some(service) => service,
    }
}

/// Returns what is found out about a network with the ports in these states.
///
/// # Errors
///
/// `Memory` if an allocation failed.
pub(crate) fn found_in(
    alloc: Global,
    plan: &Plan,
    shape: &Shape,
    chosen: Option<u8>,
) -> Result<Findings, Memory>
    requires { IsSound plan.now }
    ensures { IfOk result (AreFound plan.now shape.now chosen) }
{
    let service = service_of(chosen);
    let lit = lit_links(alloc, plan, shape, service)?;
    Ok(Findings {
        chosen,
        trees: tree_marks(plan, shape),
        sites: site_marks(plan, shape, vid_numbered(plan, service)),
        lit,
    })
}
