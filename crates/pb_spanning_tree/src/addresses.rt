//! The addresses of a plan's bridges.

ghost use Rattle.std.specs.Prelude.{◌≡◌, length};
ghost use Rattle.pb_frame.specs.Frames.{AreOctets};
ghost use Rattle.pb_spanning_tree.specs.Planned.{HasAddresses};

use pb_frame::Mac;
use pb_lan::Plan;

/// Reads the octets of an address: there are six, as its type says.
fn read_octets(address: &Mac)
    ensures length { length address.now.0 ≡ 6 }
    ensures octets { AreOctets address.now.0 }
{
    let [_a, _b, _c, _d, _e, _f] = address.0;
}

/// Reads each address of a plan: each has six octets, as its type says. A law of the plan's identifiers asks for it.
pub fn read_addresses(plan: &Plan)
    ensures { HasAddresses plan.now }
{
    for bridge in plan.bridges.as_slice() {
        read_octets(&bridge.address);
    }
}
