//! The parts of a frame: addresses, length or type, and the remaining octets.

ghost use Rattle.std.specs.Prelude.{◌≡◌, ◌+◌, ◌*◌, ◌<◌, ◌≤◌, ◌↔◌, length, IfOk, IsErrOf};
ghost use Rattle.pb_frame.specs.Frames.{shortest_frame, longest_frame, dst_of, src_of};
ghost use Rattle.pb_frame.specs.Views.{IsView};

use crate::layout::View;
use crate::mac::Mac;
use thiserror::Error;

/// The fewest octets of a frame: two addresses, and a length or type (IEEE 802.3 clause 3).
pub const SHORTEST_FRAME: usize = 14;

/// The fewest octets of a frame with a tag, which takes four (IEEE 802.1Q clause 9).
pub const SHORTEST_TAGGED: usize = 18;

/// The most octets of a frame in a provider's network: 2,000 with the check sequence (IEEE 802.3 clause 3).
pub const LONGEST_FRAME: usize = 1_996;

/// The most octets of a customer's frame without a priority tag. A service tag of four octets fits on top.
pub const LONGEST_UNTAGGED: usize = 1_992;

/// The fault of octets that are not a frame of a provider's network.
#[derive(Clone, Copy, Debug, PartialEq, Eq, Error)]
pub enum FrameFault {
    /// A frame of fewer than 14 octets.
    #[error("fewer than 14 octets")]
    Short,
    /// A frame of more than 1,996 octets.
    #[error("more than 1,996 octets")]
    Long,
}

/// Returns the destination of a frame: its octets 0 to 5 (IEEE 802.3 clause 3).
#[inline(always)]
pub fn destination_of(frame: &[u8]) -> Mac
    requires { shortest_frame ≤ length frame.now }
    ensures { result.0 ≡ dst_of frame.now }
{
    let mut octets = [0u8; 6];
    octets.copy_from_slice(&frame[..6]);
    Mac(octets)
}

/// Returns the source of a frame: its octets 6 to 11 (IEEE 802.3 clause 3).
#[inline(always)]
pub fn source_of(frame: &[u8]) -> Mac
    requires { shortest_frame ≤ length frame.now }
    ensures { result.0 ≡ src_of frame.now }
{
    let mut octets = [0u8; 6];
    octets.copy_from_slice(&frame[6..12]);
    Mac(octets)
}

/// Returns the parts of a frame of 14 to 1,996 octets (IEEE 802.3 clause 3). Allocates nothing.
///
/// # Errors
///
/// `Short` if the frame has fewer than 14 octets, `Long` if it has more than 1,996.
pub fn view(frame: &[u8]) -> Result<View<'_>, FrameFault>
    ensures parts { IfOk result (IsView frame.now) }
    ensures short { IsErrOf result FrameFault.Short ↔ (length frame.now < shortest_frame) }
    ensures long { IsErrOf result FrameFault.Long ↔ (longest_frame < length frame.now) }
{
    if frame.len() < SHORTEST_FRAME {
        return Err(FrameFault::Short);
    }
    if frame.len() > LONGEST_FRAME {
        return Err(FrameFault::Long);
    }
    Ok(View {
        dst: destination_of(frame),
        src: source_of(frame),
        kind: u16::from(frame[12]) * 256 + u16::from(frame[13]),
        rest: &frame[14..],
    })
}
