//! The networks in which bridges are run.

use pb_lan::{
    BridgePlan, CustomerPlan, End, LinkPlan, Mac, Plan, PortState, Queues, Seq, ServicePlan,
    Spanning, Text,
};
use std::alloc::{AllocError, Global};

/// A network.
#[derive(Clone, Copy)]
pub enum Network {
    /// B1 alone, with queues of one item, customer ports 1 to 3 of red, an ageing time of ten ticks, and this limit of
    /// steps.
    ThreeCustomers {
        steps: u64,
    },
    /// B1 and B2, joined from port 1 to port 1, with queues of this many items. Customers of red are at port 2 of each,
    /// and one of blue is at B2's port 3.
    TwoBridges {
        spanning: Spanning,
        queue: u16,
    },
    /// The same two bridges, with queues of this many items for each class.
    TwoBridgesByClass {
        spanning: Spanning,
        queue: u16,
    },
    /// B2 between B1 at its port 1 and B3 at its port 4. Customers of red are at B2's ports 2 and 3, and one of blue at
    /// its port 5. All ends of links start in this state if the plan gives the states.
    Line {
        spanning: Spanning,
        start: PortState,
    },
}

/// A bridge and one of its ports.
type Spot = (u8, u8);

/// A plan in short, with the services red (VID 100) and blue (VID 200).
#[derive(Clone, Copy)]
struct Layout {
    /// The name of each bridge, and the last octet of its address.
    bridges: &'static [(&'static str, u8)],
    /// The greatest number of items that wait at a port.
    queue: u16,
    /// What that number counts.
    queues: Queues,
    /// The name and the two ends of each link.
    links: &'static [(&'static str, Spot, Spot)],
    /// The name of each customer port, its local port, and the number of its service.
    customers: &'static [(&'static str, Spot, u8)],
    /// Whether the plan or a spanning tree decides the states.
    spanning: Spanning,
    /// The state in which all ends of links start, if the plan gives the states.
    start: PortState,
    /// The ageing time.
    ageing: u32,
    /// The greatest number of steps.
    steps: u64,
}

/// B1 alone.
const ALONE: Layout = Layout {
    bridges: &[("B1", 1)],
    queue: 1,
    queues: Queues::PerPort,
    links: &[],
    customers: &[("C1", (1, 1), 1), ("C2", (1, 2), 1), ("C3", (1, 3), 1)],
    spanning: Spanning::Fixed,
    start: PortState::Forwarding,
    ageing: 10,
    steps: 100,
};

/// B1 and B2.
const PAIR: Layout = Layout {
    bridges: &[("B1", 1), ("B2", 2)],
    queue: 64,
    queues: Queues::PerPort,
    links: &[("L1", (1, 1), (2, 1))],
    customers: &[("C1", (1, 2), 1), ("C2", (2, 2), 1), ("C3", (2, 3), 2)],
    spanning: Spanning::Fixed,
    start: PortState::Forwarding,
    ageing: 300,
    steps: 1_000_000,
};

/// B1, B2 and B3.
const ROW: Layout = Layout {
    bridges: &[("B1", 1), ("B2", 2), ("B3", 3)],
    queue: 64,
    queues: Queues::PerPort,
    links: &[("L1", (1, 1), (2, 1)), ("L2", (2, 4), (3, 1))],
    customers: &[("C1", (2, 2), 1), ("C2", (2, 3), 1), ("C3", (2, 5), 2)],
    spanning: Spanning::Fixed,
    start: PortState::Forwarding,
    ageing: 300,
    steps: 1_000_000,
};

impl Network {
    /// Returns the network's plan.
    pub fn plan(self, alloc: Global) -> Result<Plan, AllocError> {
        self.layout().plan(alloc)
    }

    /// Returns the network's layout.
    fn layout(self) -> Layout {
        match self {
            Network::ThreeCustomers { steps } => Layout { steps, ..ALONE },
            Network::TwoBridges { spanning, queue } => Layout {
                spanning,
                queue,
                ..PAIR
            },
            Network::TwoBridgesByClass { spanning, queue } => Layout {
                spanning,
                queue,
                queues: Queues::PerClass,
                ..PAIR
            },
            Network::Line { spanning, start } => Layout {
                spanning,
                start,
                ..ROW
            },
        }
    }
}

impl Layout {
    /// Returns the layout's plan.
    fn plan(&self, alloc: Global) -> Result<Plan, AllocError> {
        Ok(Plan {
            bridges: self.bridge_plans(alloc)?,
            links: self.link_plans(alloc)?,
            services: services(alloc)?,
            customers: self.customer_plans(alloc)?,
            spanning: self.spanning,
            prompt: false,
            queues: self.queues,
            ageing: self.ageing,
            ring: 64,
            steps: self.steps,
        })
    }

    /// Returns the layout's bridges.
    fn bridge_plans(&self, alloc: Global) -> Result<Seq<BridgePlan>, AllocError> {
        let mut plans = Vec::new(alloc);
        for place in 0..self.bridges.len() {
            let (name, last) = self.bridges[place];
            plans.push(BridgePlan {
                name: text(alloc, name)?,
                address: Mac([2, 0, 0, 0, 0, last]),
                priority: 32768,
                queue: self.queue,
            })?;
        }
        Ok(Seq::from_vec(plans))
    }

    /// Returns the layout's links, which lose nothing.
    fn link_plans(&self, alloc: Global) -> Result<Seq<LinkPlan>, AllocError> {
        let mut plans = Vec::new(alloc);
        for place in 0..self.links.len() {
            let (name, a, b) = self.links[place];
            plans.push(LinkPlan {
                name: text(alloc, name)?,
                a: self.end(a),
                b: self.end(b),
                lost_ab: Seq::from_vec(Vec::new(alloc)),
                lost_ba: Seq::from_vec(Vec::new(alloc)),
            })?;
        }
        Ok(Seq::from_vec(plans))
    }

    /// Returns the end of a link, for all services.
    fn end(&self, (bridge, port): Spot) -> End {
        End {
            bridge,
            port,
            cost: 20000,
            priority: 128,
            start: self.start,
            services: None,
        }
    }

    /// Returns the layout's customer ports, with priority 0.
    fn customer_plans(&self, alloc: Global) -> Result<Seq<CustomerPlan>, AllocError> {
        let mut plans = Vec::new(alloc);
        for place in 0..self.customers.len() {
            let (name, (bridge, port), service) = self.customers[place];
            plans.push(CustomerPlan {
                name: text(alloc, name)?,
                bridge,
                port,
                service,
                pcp: 0,
                queue: 64,
            })?;
        }
        Ok(Seq::from_vec(plans))
    }
}

/// Returns red and blue.
fn services(alloc: Global) -> Result<Seq<ServicePlan>, AllocError> {
    let mut plans = Vec::new(alloc);
    for (name, vid) in [("red", 100), ("blue", 200)] {
        plans.push(ServicePlan {
            name: text(alloc, name)?,
            vid,
        })?;
    }
    Ok(Seq::from_vec(plans))
}

/// Returns a name.
fn text(alloc: Global, name: &str) -> Result<Text, AllocError> {
    Ok(Text::from_string(String::from_str(alloc, name)?))
}
