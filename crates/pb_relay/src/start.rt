//! The start of a bridge.

ghost use Rattle.std.specs.Prelude.{◌≡◌, ℕ, ◌+◌, ◌<◌, ◌≤◌, ◌==◌, ◌++◌, ◌∷◌, [], map, length, true, false, IfOk, OnOk};
ghost use Rattle.std.specs.List.{flat_map};
ghost use Rattle.std.specs.Option.{option_copied};
ghost use Rattle.pb_frame.specs.Lists.{first};
ghost use Rattle.pb_lan.specs.Plans.{IsSound, IsNumber};
ghost use Rattle.pb_lan.specs.Ports.{port_at, is_customer_at, is_end_at, ends_of};
ghost use Rattle.pb_lan.specs.Shapes.{start_by};
ghost use Rattle.pb_svlan.specs.ServiceTables.{is_known, are_known, has_name, has_vid, is_taken, kind_at, attached};
ghost use Rattle.pb_svlan.specs.ServiceTables.{carried};
ghost use Rattle.pb_svlan.specs.declared.port.PortKind.TheVariants.{Trunk};
ghost use Rattle.pb_relay.specs.LocalPorts.{IsKept};
ghost use Rattle.pb_relay.specs.Machines.{machine_in};
ghost use Rattle.pb_relay.specs.Backlogs.{capacity_in, empty_backlog};
ghost use Rattle.pb_relay.specs.PortKinds.{local_as, told};
ghost use Rattle.pb_relay.specs.Standing.{at_start};
ghost use Rattle.pb_relay.specs.Starts.{first_state, HasJoined, HasServices, KeepsPorts};

use crate::backlog::{Backlog, Capacity};
use crate::bridge::Bridge;
use crate::forwarding::Forwarding;
use crate::machine::{address, machine};
use crate::ports::{Local, LocalPorts};
use pb_fdb::Fdb;
use pb_frame::{Memory, index_of};
use pb_history::Steps;
use pb_lan::{CustomerPlan, End, LinkPlan, Plan, PortState, ServicePlan, Spanning};
use pb_rstp::Rstp;
use pb_svlan::{AddFault, JoinFault, Services, Vid};
use std::alloc::Global;

/// The most stations that a bridge knows.
const STATIONS: usize = 4096;

/// Adds a service of the plan to the services.
fn add(alloc: Global, services: &mut Services, service: &ServicePlan) -> Result<(), Memory>
    requires vid { IsNumber service.now.vid 4094 }
    requires name { has_name services.old service.now.name ≡ false }
    requires free { has_vid services.old service.now.vid ≡ false }
    requires few { length services.old.services < 64 }
    ensures { OnOk result (services.new ≡ record services.old {
      services = services.old.services
          ++ (service.now.vid, service.now.name) ∷ [];
    }) }
{
    let Some(vid) = Vid::new(service.vid) else {
        unreachable!();
    };
    match services.add(alloc, service.name.as_str(), vid) {
        Ok(_) => Ok(()),
        Err(AddFault::Memory) => Err(Memory),
        Err(_) => unreachable!(),
    }
}

/// Returns the services of the plan, with no ports.
fn services_of(alloc: Global, plan: &Plan) -> Result<Services, Memory>
    requires { IsSound plan.now }
    ensures services { IfOk result (HasServices plan.now) }
    ensures ports { IfOk result (λ services. services.ports ≡ []) }
{
    let mut services = Services::new(alloc);
    for service in plan.services.as_slice() {
        add(alloc, &mut services, service)?;
    }
    Ok(services)
}

/// Returns the customer port at this local port of the bridge, or None.
pub(crate) fn customer_at(customers: &[CustomerPlan], bridge: u8, port: u8) -> Option<&CustomerPlan>
    ensures { option_copied result ≡ first (is_customer_at bridge port) customers.now }
{
    for customer in customers {
        if customer.bridge == bridge && customer.port == port {
            return Some(customer);
        }
    }
    None
}

/// Returns the end of a link at this local port of the bridge, or None.
pub(crate) fn end_at(links: &[LinkPlan], bridge: u8, port: u8) -> Option<&End>
    ensures { option_copied result ≡ first (is_end_at bridge port) (flat_map ends_of links.now) }
{
    for link in links {
        if link.a.bridge == bridge && link.a.port == port {
            return Some(&link.a);
        }
        if link.b.bridge == bridge && link.b.port == port {
            return Some(&link.b);
        }
    }
    None
}

/// Joins the local port of a customer to the customer's service.
fn join(services: &mut Services, customer: &CustomerPlan) -> Result<(), Memory>
    requires priority { customer.now.pcp ≤ 7 }
    requires known { is_known services.old customer.now.service ≡ true }
    requires free { is_taken services.old customer.now.port ≡ false }
    ensures { OnOk result (HasJoined customer.now services.old services.new) }
{
    match services.join(customer.port, customer.service, customer.pcp) {
        Ok(()) => Ok(()),
        Err(JoinFault::Memory) => Err(Memory),
        Err(_) => unreachable!(),
    }
}

/// Makes a local port one to another bridge, with the services that the end lists.
fn trunk(alloc: Global, services: &mut Services, end: &End) -> Result<(), Memory>
    requires known { are_known services.old end.now.services ≡ true }
    requires free { is_taken services.old end.now.port ≡ false }
    ensures { OnOk result (services.new
        ≡ attached services.old end.now.port (Trunk (carried services.old end.now.services))) }
{
    let listed = end.services.as_ref().map(|numbers| numbers.as_slice());
    match services.trunk(alloc, end.port, listed) {
        Ok(()) => Ok(()),
        Err(JoinFault::Memory) => Err(Memory),
        Err(_) => unreachable!(),
    }
}

/// Adds a local port to the services as the plan has it, and returns its start state in the plan.
fn attach(
    alloc: Global,
    services: &mut Services,
    plan: &Plan,
    number: u8,
    port: u8,
) -> Result<PortState, Memory>
    requires sound { IsSound plan.now }
    requires services { HasServices plan.now services.old }
    requires free { is_taken services.old port ≡ false }
    ensures kept { IfOk result (λ start. IsKept plan.now (port_at plan.now number port)
        (local_as services.new start (kind_at services.new port))) }
    ensures services { OnOk result (services.new.services ≡ services.old.services) }
    ensures others { OnOk result ((p : ℕ) → (p == port) ≡ false → kind_at services.new p ≡ kind_at services.old p) }
{
    if let Some(customer) = customer_at(plan.customers.as_slice(), number, port) {
        join(services, customer)?;
        return Ok(PortState::Forwarding);
    }
    let Some(end) = end_at(plan.links.as_slice(), number, port) else {
        return Ok(PortState::Discarding);
    };
    trunk(alloc, services, end)?;
    Ok(end.start)
}

/// Returns the kinds and services of the local ports.
fn local_ports(alloc: Global, plan: &Plan, number: u8) -> Result<LocalPorts, Memory>
    requires { IsSound plan.now }
    ensures { IfOk result (λ ports. KeepsPorts plan.now number ports 16) }
{
    let mut services = services_of(alloc, plan)?;
    let mut starts = [PortState::Discarding; 16];
    for r in 0..16u8 {
        starts[r as usize] = attach(alloc, &mut services, plan, number, r + 1)?;
    }
    Ok(LocalPorts::of(services, starts))
}

/// Returns the state in which a port to another bridge starts: that of the plan, or Discarding if the protocol decides
/// the states.
fn start_by(spanning: Spanning, start: PortState) -> PortState
    ensures { result ≡ start_by spanning start }
{
    match spanning {
        Spanning::Fixed => start,
        Spanning::Rstp => PortState::Discarding,
    }
}

/// Returns the state in which a port starts.
fn start_state(spanning: Spanning, port: Local) -> PortState
    ensures { result ≡ first_state spanning port }
{
    match port {
        Local::Customer { .. } => PortState::Forwarding,
        Local::Bridge { start } => start_by(spanning, start),
        Local::Nobody => PortState::Discarding,
    }
}

/// Returns the states in which the local ports start.
fn start_states(spanning: Spanning, ports: &LocalPorts) -> [PortState; 16]
    requires { length ports.now ≡ 16 }
    ensures { result ≡ map (λ port. first_state spanning (told port)) ports.now }
{
    let mut states = [PortState::Discarding; 16];
    for r in 0..16usize {
        states[r] = start_state(spanning, ports.at(r));
    }
    states
}

/// Returns how many items may wait at each port of the bridge.
fn capacity(plan: &Plan, number: u8) -> Capacity
    requires { IsNumber number (length plan.now.bridges) }
    ensures { result ≡ capacity_in plan.now number }
{
    Capacity {
        queues: plan.queues,
        most: plan.bridges.as_slice()[index_of(number)].queue as usize,
    }
}

/// Returns a copy of the plan, and the kinds and services of the local ports.
fn placed(alloc: Global, plan: &Plan, number: u8) -> Result<(Plan, LocalPorts), Memory>
    requires { IsSound plan.now }
    ensures plan { IfOk result (λ kept. kept.0 ≡ plan.now) }
    ensures ports { IfOk result (λ kept. KeepsPorts plan.now number kept.1 16) }
{
    let ports = local_ports(alloc, plan, number)?;
    Ok((plan.clone()?, ports))
}

/// Returns empty queues, and the spanning tree at its start if the protocol decides the states.
fn sending(
    alloc: Global,
    plan: &Plan,
    number: u8,
    is_kept: bool,
) -> Result<(Backlog, Option<Rstp>), Memory>
    requires sound { IsSound plan.now }
    requires bridge { IsNumber number (length plan.now.bridges) }
    ensures backlog { IfOk result (λ kept. kept.0 ≡ empty_backlog (capacity_in plan.now number) is_kept) }
    ensures machine { IfOk result (λ kept. kept.1 ≡ machine_in plan.now number []) }
{
    let rstp = machine(alloc, plan, number)?;
    Ok((Backlog::new(alloc, capacity(plan, number), is_kept)?, rstp))
}

/// Returns the bridge of this number at its start, with this empty list of steps.
fn started(alloc: Global, plan: &Plan, number: u8, steps: Steps) -> Result<Bridge, Memory>
    requires sound { IsSound plan.now }
    requires bridge { IsNumber number (length plan.now.bridges) }
    requires none { steps.steps ≡ [] }
    requires unreserved { steps.is_reserved ≡ false }
    ensures { IfOk result (λ bridge. bridge ≡ at_start plan.now number steps.is_kept) }
{
    let (backlog, rstp) = sending(alloc, plan, number, steps.are_kept())?;
    let (kept, ports) = placed(alloc, plan, number)?;
    let states = start_states(plan.spanning, &ports);
    Ok(Bridge {
        alloc,
        plan: kept,
        number,
        ports,
        forwarding: Forwarding {
            states,
            table: Fdb::new(alloc, STATIONS, plan.ageing),
            backlog,
        },
        limit: plan.steps,
        clock: 0,
        address: address(plan, number),
        rstp,
        steps,
    })
}

impl Bridge {
    /// Returns the bridge of this number at its start. It will keep each step.
    ///
    /// The list of steps is empty, nothing waits, no station is known, and each local port has the state that the plan
    /// gives it. If the protocol decides the states, ports to other bridges are Discarding, and the spanning tree is at
    /// its start.
    ///
    /// # Errors
    ///
    /// `Memory` if an allocation failed.
    ///
    /// # Examples
    ///
    /// ```
    /// use pb_lan::PortState;
    /// use pb_relay::Bridge;
    /// use pb_service::read_plan;
    ///
    /// let file = b"
    ///     bridge = [{ name = 'B1', address = '02-00-00-00-00-01' }]
    ///     service = [{ name = 'red', vid = 100 }]
    ///     port = [{ name = 'C1', bridge = 'B1', port = 1, service = 'red' }]";
    /// let (plan, _) = read_plan(rt.alloc(), file)?;
    /// assert_eq!(rt; plan.bridges.len(), 1);
    /// let bridge = Bridge::new(rt.alloc(), &plan, 1)?;
    /// assert_eq!(rt; bridge.shape()[0], PortState::Forwarding);
    /// assert_eq!(rt; bridge.shape()[1], PortState::Discarding);
    /// ```
    pub fn new(alloc: Global, plan: &Plan, number: u8) -> Result<Bridge, Memory>
        requires sound { IsSound plan.now }
        requires bridge { IsNumber number (length plan.now.bridges) }
        ensures { IfOk result (λ bridge. bridge ≡ at_start plan.now number true) }
    {
        started(alloc, plan, number, Steps::kept(alloc))
    }

    /// Returns the bridge of this number at its start, as [`Bridge::new`] does. It will only count its steps.
    ///
    /// The memory of such a bridge does not grow with its steps.
    ///
    /// # Errors
    ///
    /// `Memory` if an allocation failed.
    pub fn counting(alloc: Global, plan: &Plan, number: u8) -> Result<Bridge, Memory>
        requires sound { IsSound plan.now }
        requires bridge { IsNumber number (length plan.now.bridges) }
        ensures { IfOk result (λ bridge. bridge ≡ at_start plan.now number false) }
    {
        started(alloc, plan, number, Steps::counted(alloc))
    }
}
