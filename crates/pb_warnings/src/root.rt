//! The root of the spanning tree.

ghost use Rattle.std.specs.Prelude.{◌≡◌};
ghost use Rattle.pb_lan.specs.Plans.{IsSound};
ghost use Rattle.pb_rstp.specs.Profile.{plan_id};
ghost use Rattle.pb_rstp.specs.Vectors.{bridge_id};
ghost use Rattle.pb_warnings.specs.Rules.{is_least, root_of};

use byteorder::{BigEndian, ByteOrder};
use pb_frame::Mac;
use pb_lan::{BridgePlan, Plan};

/// Returns the identifier of a bridge with this priority and address: the priority times 2^48 plus the address (IEEE
/// 802.1D-2004 clause 9.2.5).
fn bridge_id(priority: u16, address: Mac) -> u64
    ensures { result ≡ bridge_id priority address.0 }
{
    priority as u64 * 0x1_0000_0000_0000 + BigEndian::read_uint(&address.0, 6)
}

/// Returns the identifier of a bridge.
fn plan_id(bridge: &BridgePlan) -> u64
    ensures { result ≡ plan_id bridge.now }
{
    bridge_id(bridge.priority, bridge.address)
}

/// Checks whether no bridge has a lesser identifier than this one.
fn is_least(plan: &Plan, bridge: &BridgePlan) -> bool
    ensures { result ≡ is_least plan.now bridge.now }
{
    let id = plan_id(bridge);
    plan.bridges
        .as_slice()
        .iter()
        .all(|other| id <= plan_id(other))
}

/// Returns the number of the root bridge of the spanning tree, or 0 if the plan has no bridges.
pub(crate) fn root_of(plan: &Plan) -> u8
    requires { IsSound plan.now }
    ensures { result ≡ root_of plan.now }
{
    for (place, bridge) in plan.bridges.as_slice().iter().enumerate() {
        if is_least(plan, bridge) {
            return place as u8 + 1;
        }
    }
    0
}
