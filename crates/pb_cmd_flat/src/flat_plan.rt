//! The plan of a network with one bridge.

ghost use Rattle.std.specs.Prelude.{◌≡◌, ◌<◌, ◌≤◌, ◌∷◌, [], IfOk};
ghost use Rattle.pb_cmd_flat.specs.FlatPlans.{flat_bridge, flat_service, flat_customer, flat_customers, flat_plan};

use pb_frame::{Mac, Memory, Seq, Text};
use pb_lan::{BridgePlan, CustomerPlan, DEFAULT_AGEING, Plan, Queues, ServicePlan, Spanning};
use std::alloc::Global;

/// Returns a name of one letter, by its ASCII code.
fn letter(alloc: Global, code: u8) -> Result<Text, Memory>
    requires { code < 128 }
    ensures { IfOk result (λ name. name ≡ code ∷ []) }
{
    let mut name = String::new(alloc);
    name.push(char::from(code))?;
    Ok(Text::from_string(name))
}

/// Returns the customer port with this number, at the local port with the same number.
fn flat_customer(alloc: Global, number: u8) -> Result<CustomerPlan, Memory>
    requires { number ≤ 16 }
    ensures { IfOk result (λ customer. customer ≡ flat_customer number) }
{
    Ok(CustomerPlan {
        name: letter(alloc, 96 + number)?,
        bridge: 1,
        port: number,
        service: 1,
        pcp: 0,
        queue: 64,
    })
}

/// Returns the customer ports from 1 to `ports`.
fn flat_customers(alloc: Global, ports: u8) -> Result<Vec<CustomerPlan>, Memory>
    requires { ports ≤ 16 }
    ensures { IfOk result (λ customers. customers.items ≡ flat_customers ports) }
{
    let mut customers = Vec::with_capacity(alloc, usize::from(ports))?;
    for before in 0..ports {
        customers.push(flat_customer(alloc, before + 1)?)?;
    }
    Ok(customers)
}

/// Returns the bridge.
fn flat_bridge(alloc: Global) -> Result<BridgePlan, Memory>
    ensures { IfOk result (λ bridge. bridge ≡ flat_bridge) }
{
    Ok(BridgePlan {
        name: letter(alloc, b'b')?,
        address: Mac([2, 0, 0, 0, 0, 1]),
        priority: 32768,
        queue: 64,
    })
}

/// Returns the service of all ports.
fn flat_service(alloc: Global) -> Result<ServicePlan, Memory>
    ensures { IfOk result (λ service. service ≡ flat_service) }
{
    Ok(ServicePlan {
        name: letter(alloc, b's')?,
        vid: 100,
    })
}

/// Returns the plan of one bridge with 2 to 16 customer ports, all of one service with VID 100, and the default limits.
pub(crate) fn flat_plan(alloc: Global, ports: u8) -> Result<Plan, Memory>
    requires { (2 ≤ ports) × (ports ≤ 16) }
    ensures { IfOk result (λ plan. plan ≡ flat_plan ports) }
{
    Ok(Plan {
        bridges: Seq::from_vec(vec![in alloc; flat_bridge(alloc)?]?),
        links: Seq::from_vec(Vec::new(alloc)),
        services: Seq::from_vec(vec![in alloc; flat_service(alloc)?]?),
        customers: Seq::from_vec(flat_customers(alloc, ports)?),
        spanning: Spanning::Fixed,
        prompt: false,
        queues: Queues::PerPort,
        ageing: DEFAULT_AGEING,
        ring: 64,
        steps: u64::MAX,
    })
}
