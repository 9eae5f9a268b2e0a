//! The whole document.

ghost use Rattle.std.specs.Prelude.{IfOk, IfErr, OnOk};
ghost use Rattle.toml.specs.View.{table_view};
ghost use Rattle.pb_lan.specs.Plans.{IsSound};
ghost use Rattle.pb_service.specs.Refusals.{Refuses};
ghost use Rattle.pb_service.specs.PlanFiles.{IsPlanOf, AreLimitsOf, AreEventsOf, AreTapsOf, IsLosslessIn, Tells};
ghost use Rattle.pb_service.specs.PlanFiles.{IsPlanFile, RefusesFile};

use crate::bridge::read_bridges;
use crate::event::{PortEvent, read_events};
use crate::fault::PlanFault;
use crate::link::{Links, read_links};
use crate::network::read_network;
use crate::port::{Customers, read_customers};
use crate::port_spec::{PortSpec, is_lossless};
use crate::row::check_top;
use crate::service::read_services;
use crate::tap::{TapSpec, read_taps};
use pb_frame::Seq;
use pb_lan::{Limits, Plan};
use std::alloc::Global;
use toml::Table;

/// The contents of a plan file.
#[derive(Drop)]
pub struct PlanFile {
    /// The network.
    pub plan: Plan,
    /// The kind of each customer port, in the order of the plan.
    pub ports: Vec<PortSpec>,
    /// The limits of a run, and the clock by which bridges tick.
    pub limits: Limits,
    /// Whether a run loses no frame because a queue is full.
    pub is_lossless: bool,
    /// The events that disable and enable ports during a run, in the order of the file.
    pub events: Vec<PortEvent>,
    /// The taps of links, in the order of the file.
    pub taps: Vec<TapSpec>,
}

/// Returns the contents of a document, or the first rule that it breaks.
///
/// The order of the checks is: keys at the top, network, bridges, links, services, events, taps, customer ports.
fn file_of(alloc: Global, document: &Table) -> Result<PlanFile, PlanFault>
    ensures ok { IfOk result (λ file. IsPlanOf (table_view document.now) file.plan file.ports.items) }
    ensures limits { IfOk result (λ file. AreLimitsOf (table_view document.now) file.limits) }
    ensures lossless { IfOk result (λ file.
        IsLosslessIn (table_view document.now) file.ports.items file.is_lossless) }
    ensures events { IfOk result (λ file. AreEventsOf (table_view document.now) file.events.items) }
    ensures taps { IfOk result (λ file. AreTapsOf (table_view document.now) file.taps.items) }
    ensures sound { IfOk result (λ file. IsSound file.plan) }
    ensures err { IfErr result (Refuses (table_view document.now)) }
{
    check_top(alloc, document)?;
    let network = read_network(alloc, document)?;
    let bridges = read_bridges(alloc, document)?;
    let Links { links, used } = read_links(alloc, document)?;
    let services = read_services(alloc, document)?;
    let events = read_events(alloc, document, used.as_slice())?;
    let taps = read_taps(alloc, document, network.limits)?;
    let Customers { customers, specs } = read_customers(alloc, document, network.limits, used)?;
    let plan = Plan {
        bridges: Seq::from_vec(bridges),
        links: Seq::from_vec(links),
        services: Seq::from_vec(services),
        customers: Seq::from_vec(customers),
        spanning: network.spanning,
        prompt: network.prompt,
        queues: network.queues,
        ageing: network.ageing,
        ring: network.ring,
        steps: network.steps,
    };
    let is_lossless = is_lossless(network.lossless, specs.as_slice());
    Ok(PlanFile {
        plan,
        ports: specs,
        limits: network.limits,
        is_lossless,
        events,
        taps,
    })
}

/// Reads a whole plan file.
///
/// # Errors
///
/// The faults of [`read_plan`].
pub fn read_plan_file(alloc: Global, file: &[u8]) -> Result<PlanFile, PlanFault>
    ensures ok { IfOk result (λ r. Tells file.now (λ document. IsPlanOf document r.plan r.ports.items)) }
    ensures limits { IfOk result (λ r. Tells file.now (λ document. AreLimitsOf document r.limits)) }
    ensures lossless { IfOk result (λ r. Tells file.now (λ document.
        IsLosslessIn document r.ports.items r.is_lossless)) }
    ensures events { IfOk result (λ r. Tells file.now (λ document. AreEventsOf document r.events.items)) }
    ensures taps { IfOk result (λ r. Tells file.now (λ document. AreTapsOf document r.taps.items)) }
    ensures sound { IfOk result (λ r. IsSound r.plan) }
    ensures err { IfErr result (RefusesFile file.now) }
{
    let text = match std::str::from_utf8(file) {
        Ok(text) => text,
        Err(_) => return Err(PlanFault::Utf8),
    };
    match toml::table_from_str(alloc, text) {
        Ok(document) => file_of(alloc, &document),
        Err(e) if e.is_memory() => Err(PlanFault::Memory),
        Err(_) => Err(PlanFault::Toml),
    }
}

/// Reads a plan file. Returns the plan of its network and the kind of each customer port, in the order of the plan.
///
/// The plan is sound (`IsSound`): its numbers are in range, its names, addresses and VIDs are distinct, and no local
/// port is used twice.
///
/// # Errors
///
/// `Memory` if an allocation failed. `Utf8` if the file isn't UTF-8, `Toml` if it isn't a TOML document. Otherwise the
/// first rule that the file breaks. Keys at the top are checked first, then the tables in the order network, bridge,
/// link, service, event, tap, port. The keys of a table are checked in the order of the format, and unknown keys last.
///
/// # Examples
///
/// ```
/// use pb_service::{PlanFault, read_plan};
///
/// let file = b"
///     bridge = [{ name = 'B1', address = '02-00-00-00-00-01' }]
///     service = [{ name = 'red', vid = 100 }]
///     port = [{ name = 'C1', bridge = 'B1', port = 1, service = 'red' }]";
/// let (plan, ports) = read_plan(rt.alloc(), file)?;
/// assert_eq!(rt; (plan.bridges.len(), plan.ageing), (1, 300));
/// assert_eq!(rt; ports.len(), 1);
/// let refused = read_plan(rt.alloc(), b"ageing 300").err();
/// assert_eq!(rt; refused, Some(PlanFault::Toml));
/// ```
pub fn read_plan(alloc: Global, file: &[u8]) -> Result<(Plan, Vec<PortSpec>), PlanFault>
    ensures plan { IfOk result (λ r. Tells file.now (λ document. IsPlanOf document r.0 r.1.items)) }
    ensures sound { IfOk result (λ r. IsSound r.0) }
    ensures err { IfErr result (RefusesFile file.now) }
{
    let PlanFile {
        plan,
        ports,
        limits: _,
        is_lossless: _,
        events: _,
        taps: _,
    } = read_plan_file(alloc, file)?;
    Ok((plan, ports))
}

/// Reads the limits of a run from a plan file. The rest of the file is checked too.
///
/// # Errors
///
/// The faults of [`read_plan`].
pub fn read_limits(alloc: Global, file: &[u8]) -> Result<Limits, PlanFault>
    ensures limits { IfOk result (λ limits. Tells file.now (λ document. AreLimitsOf document limits)) }
    ensures accepted { OnOk result (IsPlanFile file.now) }
    ensures err { IfErr result (RefusesFile file.now) }
{
    let PlanFile {
        plan: _,
        ports: _,
        limits,
        is_lossless: _,
        events: _,
        taps: _,
    } = read_plan_file(alloc, file)?;
    Ok(limits)
}
