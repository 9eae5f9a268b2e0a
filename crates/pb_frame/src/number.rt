//! Numbers of the parts of a plan, and their indexes.

ghost use Rattle.std.specs.Prelude.{◌≡◌, ◌<◌, ◌-◌};

/// Returns the index of the part with this number in the list of all parts of its kind. Bridges, links, lanes,
/// services, customer ports and the local ports of a bridge are numbered from 1, and indexes begin at 0.
#[inline(always)]
pub fn index_of(number: u8) -> usize
    requires { 0 < number }
    ensures { result ≡ number - 1 }
{
    number as usize - 1
}
