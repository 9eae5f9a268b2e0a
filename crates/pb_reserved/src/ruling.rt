//! Handling by destination address.

ghost use Rattle.std.specs.Prelude.{◌≡◌};
ghost use Rattle.pb_reserved.specs.Fates.{fate_of};

use crate::kinds::Fate;
use pb_frame::Mac;

/// Returns what a provider bridge does with a frame to this destination (IEEE 802.1Q clause 8, reserved addresses of
/// an S-VLAN component). Allocates nothing.
pub fn fate(destination: Mac) -> Fate
    ensures { result ≡ fate_of destination.0 }
{
    let [0x01, 0x80, 0xc2, 0, 0, last] = destination.0 else {
        return Fate::Carry;
    };
    match last {
        8 => Fate::Provider,
        1..=10 | 14 => Fate::Filter(last),
        _ => Fate::Carry,
    }
}
