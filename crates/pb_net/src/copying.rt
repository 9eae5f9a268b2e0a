//! Copies of a network.

ghost use Rattle.std.specs.Prelude.{◌≡◌, IfOk, map};

use crate::lists::Lists;
use crate::net::Net;
use pb_lan::Item;
use pb_link::{CustomerPlace, Lane};
use pb_relay::Bridge;
use std::alloc::AllocError;
use std::collections::VecDeque;

/// Returns copies of bridges, of lanes and of customer ports.
fn copied_places(
    bridges: &Vec<Bridge>,
    lanes: &Vec<Lane>,
    customers: &Vec<CustomerPlace>,
) -> Result<(Vec<Bridge>, Vec<Lane>, Vec<CustomerPlace>), AllocError>
    ensures bridges { IfOk result (λ copies. copies.0.items ≡ bridges.now.items) }
    ensures lanes { IfOk result (λ copies. copies.1.items ≡ lanes.now.items) }
    ensures customers { IfOk result (λ copies. copies.2.items ≡ customers.now.items) }
{
    let bridges = bridges.clone()?;
    let lanes = lanes.clone()?;
    Ok((bridges, lanes, customers.clone()?))
}

/// Returns a copy of the queues between places.
fn copied_boxes(boxes: &Vec<VecDeque<Item>>) -> Result<Vec<VecDeque<Item>>, AllocError>
    ensures { IfOk result (λ copy. map (λ q. q.items) copy.items ≡ map (λ q. q.items) boxes.now.items) }
{
    boxes.clone()
}

/// The copy is equal: it has the plan, each place has taken the same steps, and it keeps them if the network does. If
/// the network only counts them, the time and the memory of a copy do not grow with them.
impl Clone for Net {
    ghost is_clone = { λ net copy. copy ≡ net };

    fn clone(&self) -> Result<Net, AllocError> {
        let (bridges, lanes, customers) = copied_places(
            &self.bridges,
            &self.lanes,
            &self.customers,
        )?;
        let inboxes = copied_boxes(&self.inboxes)?;
        let outboxes = copied_boxes(&self.outboxes)?;
        let alloc = *self.inboxes.allocator();
        let lists = Lists::empty(alloc, bridges.len(), lanes.len(), customers.len())?;
        let slots = self.slots.clone()?;
        Ok(Net {
            plan: self.plan.clone()?,
            limit: self.limit,
            ring: self.ring,
            is_kept: self.is_kept,
            bridges,
            lanes,
            customers,
            inboxes,
            outboxes,
            slots,
            lists,
        })
    }
}
