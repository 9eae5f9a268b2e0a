//! The names of a plan's bridges, links and customer ports.

ghost use Rattle.std.specs.Prelude.{◌≡◌, ◌<◌, ◌≤◌, ℕ, List, map, length, IfOk, unwrap_or};
ghost use Rattle.std.specs.HashMap.{get_by};
ghost use Rattle.std.specs.Str.{bytes_eq};
ghost use Rattle.pb_lan.specs.Plans.{IsSound};
ghost use Rattle.pb_step_script.specs.Named.{named, bridge_named, link_named, customer_named};

use pb_frame::Memory;
use pb_lan::Plan;
use std::alloc::Global;
use std::collections::HashMap;

/// Returns a map from each name to its number, counted from 1. Of equal names the first counts.
fn numbers<'a>(alloc: Global, names: &[&'a [u8]]) -> Result<HashMap<&'a [u8], u8>, Memory>
    requires { length names.now < 256 }
    ensures { IfOk result (λ numbers. (q : List ℕ) → unwrap_or (get_by (λ k. bytes_eq q k.now) numbers) 0
        ≡ named (map (λ n. n.now) names.now) q) }
{
    let mut numbers = HashMap::new(alloc);
    for place in (0..names.len()).rev() {
        numbers.insert(names[place], place as u8 + 1)?;
    }
    Ok(numbers)
}

/// Returns the names of the plan's bridges.
fn bridge_names<'a>(alloc: Global, plan: &'a Plan) -> Result<Vec<&'a [u8]>, Memory>
    ensures { IfOk result (λ names. map (λ n. n.now) names.items ≡ map (λ b. b.name) plan.now.bridges) }
{
    let mut names = Vec::new(alloc);
    for bridge in plan.bridges.as_slice() {
        names.push(bridge.name.as_str().as_bytes())?;
    }
    Ok(names)
}

/// Returns the names of the plan's links.
fn link_names<'a>(alloc: Global, plan: &'a Plan) -> Result<Vec<&'a [u8]>, Memory>
    ensures { IfOk result (λ names. map (λ n. n.now) names.items ≡ map (λ l. l.name) plan.now.links) }
{
    let mut names = Vec::new(alloc);
    for link in plan.links.as_slice() {
        names.push(link.name.as_str().as_bytes())?;
    }
    Ok(names)
}

/// Returns the names of the plan's customer ports.
fn customer_names<'a>(alloc: Global, plan: &'a Plan) -> Result<Vec<&'a [u8]>, Memory>
    ensures { IfOk result (λ names. map (λ n. n.now) names.items ≡ map (λ c. c.name) plan.now.customers) }
{
    let mut names = Vec::new(alloc);
    for customer in plan.customers.as_slice() {
        names.push(customer.name.as_str().as_bytes())?;
    }
    Ok(names)
}

/// Returns a map from the names of the plan's bridges to their numbers.
fn bridge_numbers<'a>(alloc: Global, plan: &'a Plan) -> Result<HashMap<&'a [u8], u8>, Memory>
    requires { IsSound plan.now }
    ensures { IfOk result (λ numbers. (q : List ℕ) → unwrap_or (get_by (λ k. bytes_eq q k.now) numbers) 0
        ≡ bridge_named plan.now q) }
{
    let names = bridge_names(alloc, plan)?;
    numbers(alloc, names.as_slice())
}

/// Returns a map from the names of the plan's links to their numbers.
fn link_numbers<'a>(alloc: Global, plan: &'a Plan) -> Result<HashMap<&'a [u8], u8>, Memory>
    requires { IsSound plan.now }
    ensures { IfOk result (λ numbers. (q : List ℕ) → unwrap_or (get_by (λ k. bytes_eq q k.now) numbers) 0
        ≡ link_named plan.now q) }
{
    let names = link_names(alloc, plan)?;
    numbers(alloc, names.as_slice())
}

/// Returns a map from the names of the plan's customer ports to their numbers.
fn customer_numbers<'a>(alloc: Global, plan: &'a Plan) -> Result<HashMap<&'a [u8], u8>, Memory>
    requires { IsSound plan.now }
    ensures { IfOk result (λ numbers. (q : List ℕ) → unwrap_or (get_by (λ k. bytes_eq q k.now) numbers) 0
        ≡ customer_named plan.now q) }
{
    let names = customer_names(alloc, plan)?;
    numbers(alloc, names.as_slice())
}

/// Returns the number of a name, or 0 if it isn't in the map.
fn find(numbers: &HashMap<&[u8], u8>, name: &[u8]) -> u8
    ensures { result ≡ unwrap_or (get_by (λ k. bytes_eq name.now k.now) numbers.now) 0 }
{
    numbers.get(name).copied().unwrap_or(0)
}

/// A plan whose bridges, links and customer ports are found by name, each in one look-up.
#[derive(Drop)]
pub struct Names<'a> {
    /// The plan.
    pub plan: &'a Plan,
    bridges: HashMap<&'a [u8], u8>,
    links: HashMap<&'a [u8], u8>,
    customers: HashMap<&'a [u8], u8>,
    ghost few_links: { length plan.now.links ≤ 64 },
    ghost bridges_found: { (q : List ℕ) → unwrap_or (get_by (λ k. bytes_eq q k.now) bridges) 0
        ≡ bridge_named plan.now q },
    ghost links_found: { (q : List ℕ) → unwrap_or (get_by (λ k. bytes_eq q k.now) links) 0 ≡ link_named plan.now q },
    ghost customers_found: { (q : List ℕ) → unwrap_or (get_by (λ k. bytes_eq q k.now) customers) 0
        ≡ customer_named plan.now q },
}

impl<'a> Names<'a> {
    /// Returns a plan with its names. The plan is sound.
    ///
    /// # Errors
    ///
    /// `Memory` if an allocation failed.
    pub fn new(alloc: Global, plan: &'a Plan) -> Result<Names<'a>, Memory>
        requires { IsSound plan.now }
        ensures { IfOk result (λ names. names.plan.now ≡ plan.now) }
    {
        Ok(Names {
            plan,
            bridges: bridge_numbers(alloc, plan)?,
            links: link_numbers(alloc, plan)?,
            customers: customer_numbers(alloc, plan)?,
        })
    }

    /// Returns the number of the bridge with this name, or 0 if the plan has none.
    pub(crate) fn bridge(&self, name: &[u8]) -> u8
        ensures { result ≡ bridge_named self.now.plan.now name.now }
    {
        find(&self.bridges, name)
    }

    /// Returns the number of the link with this name, or 0 if the plan has none.
    pub(crate) fn link(&self, name: &[u8]) -> u8
        ensures named { result ≡ link_named self.now.plan.now name.now }
        ensures few { result ≤ 64 }
    {
        find(&self.links, name)
    }

    /// Returns the number of the customer port with this name, or 0 if the plan has none.
    pub(crate) fn customer(&self, name: &[u8]) -> u8
        ensures { result ≡ customer_named self.now.plan.now name.now }
    {
        find(&self.customers, name)
    }
}
