//! How many links lead from a bridge to others.

ghost use Rattle.std.specs.Prelude.{◌≡◌, ◌-◌, length};
ghost use Rattle.pb_lan.specs.Plans.{IsSound, IsNumber};
ghost use Rattle.pb_warnings.specs.Hops.{relaxed, Nears, TellsWithin};

use pb_frame::index_of;
use pb_lan::Plan;

/// The most links from the root to a bridge that information of the spanning tree reaches: max age, 20 seconds, of
/// which each bridge takes one (IEEE 802.1D-2004 clauses 17.14 and 17.21.23).
pub(crate) const FARTHEST: u8 = 20;

/// The number of a bridge to which no path was found.
const NEVER: u8 = 255;

/// Brings a bridge nearer if the path by its neighbour is shorter.
fn relax(hops: &mut [u8; 32], from: u8, into: u8)
    requires from { IsNumber from 32 }
    requires into { IsNumber into 32 }
    ensures { hops.new ≡ relaxed hops.old (from - 1) (into - 1) }
{
    let next = hops[index_of(from)].saturating_add(1);
    let into = index_of(into);
    hops[into] = hops[into].min(next);
}

/// Brings each bridge at an end of a link nearer if the path by that link is shorter.
fn relax_all(plan: &Plan, hops: &mut [u8; 32])
    requires { IsSound plan.now }
    ensures { Nears plan.now (length plan.now.links) hops.old hops.new }
{
    for link in plan.links.as_slice() {
        relax(hops, link.a.bridge, link.b.bridge);
        relax(hops, link.b.bridge, link.a.bridge);
    }
}

/// Returns the least number of links from the root to each bridge, exact up to 20.
pub(crate) fn hops(plan: &Plan, root: u8) -> [u8; 32]
    requires sound { IsSound plan.now }
    requires root { IsNumber root 32 }
    ensures { TellsWithin plan.now root 20 result }
{
    let mut hops = [NEVER; 32];
    hops[index_of(root)] = 0;
    for _round in 0..FARTHEST {
        relax_all(plan, &mut hops);
    }
    hops
}
