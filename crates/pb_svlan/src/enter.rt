//! Admission of customers' frames.

ghost use Rattle.std.specs.Prelude.{◌≡◌, ◌≤◌, length};
ghost use Rattle.pb_frame.specs.Admission.{most_octets, refusal};
ghost use Rattle.pb_frame.specs.Frames.{shortest_frame};
ghost use Rattle.pb_frame.specs.Tags.{bare, has_service_type};
ghost use Rattle.pb_svlan.specs.Reserving.{reserved_octet};

use pb_frame::{
    LONGEST_FRAME, LONGEST_UNTAGGED, Reason, SHORTEST_FRAME, destination_of, has_priority_tag,
    has_service_type,
};
use pb_reserved::{Fate, fate};

/// Returns the most octets of this customer's frame: 1,996 with a priority tag, 1,992 without.
fn most_octets(frame: &[u8]) -> usize
    ensures { result ≡ most_octets frame.now }
{
    if has_priority_tag(frame) {
        LONGEST_FRAME
    } else {
        LONGEST_UNTAGGED
    }
}

/// Checks whether the frame, without its priority tag, has the type of a service tag.
fn has_inner_type(frame: &[u8]) -> bool
    ensures { result ≡ has_service_type (bare frame.now) }
{
    if has_priority_tag(frame) {
        frame[16] == 0x88 && frame[17] == 0xa8
    } else {
        has_service_type(frame)
    }
}

/// Returns the last octet of the destination, if it is reserved.
fn reserved_octet(frame: &[u8]) -> Option<u8>
    requires { shortest_frame ≤ length frame.now }
    ensures { result ≡ reserved_octet frame.now }
{
    match fate(destination_of(frame)) {
        Fate::Carry => None,
        Fate::Provider => Some(8),
        Fate::Filter(last) => Some(last),
    }
}

/// Returns the first reason to refuse a customer's frame, or `None` if it is admitted (IEEE 802.1ad clause 9).
/// Allocates nothing.
///
/// `Malformed` if the frame has fewer than 14 octets, otherwise `Long` if it has more than 1,992 (1,996 with a
/// priority tag), otherwise `Reserved` if its destination is reserved, otherwise `STagged` if the type of a service
/// tag follows the addresses of the frame without its priority tag.
pub fn refusal(frame: &[u8]) -> Option<Reason>
    ensures { result ≡ refusal frame.now }
{
    if frame.len() < SHORTEST_FRAME {
        return Some(Reason::Malformed);
    }
    if frame.len() > most_octets(frame) {
        return Some(Reason::Long);
    }
    if let Some(last) = reserved_octet(frame) {
        return Some(Reason::Reserved(last));
    }
    if has_inner_type(frame) {
        return Some(Reason::STagged);
    }
    None
}
