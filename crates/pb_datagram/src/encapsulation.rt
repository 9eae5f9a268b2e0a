//! The ways in which datagrams carry frames.
ghost use Rattle.std.specs.Prelude.{◌≡◌, ◌≤◌, ◌+◌, ◌++◌, length, take};
ghost use Rattle.pb_datagram.specs.Datagrams.{datagram_of};

use crate::vxlan::{HEADER, Vni, write_header};

/// A way in which a datagram carries a frame.
#[derive(Clone, Copy, Debug, PartialEq, Eq)]
pub enum Encapsulation {
    /// The frame follows a VXLAN header of this network (RFC 7348 section 5).
    Vxlan(Vni),
    /// The datagram is the frame.
    Plain,
}

/// Copies octets into a run from the index `at` on, and returns the index at which they end.
fn put(run: &mut [u8], at: usize, octets: &[u8]) -> usize
    requires { at + length octets.now ≤ length run.old }
    ensures end { result ≡ at + length octets.now }
    ensures octets { take result run.new ≡ take at run.old ++ octets.now }
{
    let end = at + octets.len();
    run[at..end].copy_from_slice(octets);
    end
}

impl Encapsulation {
    /// Writes the datagram of a frame to the front of a run, and returns how many octets it has.
    pub(crate) fn compose(self, frame: &[u8], run: &mut [u8]) -> usize
        requires { 8 + length frame.now ≤ length run.old }
        ensures within { result ≤ length run.new }
        ensures octets { take result run.new ≡ datagram_of self frame.now }
    {
        match self {
            Encapsulation::Vxlan(vni) => {
                let start = put(run, 0, &write_header(vni));
                put(run, start, frame)
            }
            Encapsulation::Plain => put(run, 0, frame),
        }
    }
}
