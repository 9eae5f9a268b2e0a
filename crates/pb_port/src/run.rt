//! Octets that are gathered for one write.
ghost use Rattle.std.specs.Prelude.{◌≡◌, ◌+◌, ◌-◌, ◌≤◌, ◌++◌, ℕ, List, length, take, drop, min};

/// Copies octets into a run from the index `at` on, as many as it has space for, and returns the index at which they
/// end.
fn put(run: &mut [u8], at: usize, octets: &[u8]) -> usize
    requires { at ≤ length run.old }
    ensures end { result ≡ at + min (length octets.now) (length run.old - at) }
    ensures octets { take result run.new ≡ take at run.old ++ take (length run.old - at) octets.now }
{
    let count = octets.len().min(run.len() - at);
    run[at..at + count].copy_from_slice(&octets[..count]);
    at + count
}

/// Copies a head and a frame into a run from the index `at` on, without their first `done` octets, as many as it has
/// space for, and returns the index at which they end.
pub(crate) fn put_part(run: &mut [u8], at: usize, head: &[u8], frame: &[u8], done: usize) -> usize
    requires at { at ≤ length run.old }
    requires done { done ≤ length head.now + length frame.now }
    ensures end { result ≡ at + min (length head.now + length frame.now - done) (length run.old - at) }
    ensures octets { take result run.new ≡ take at run.old ++ take (length run.old - at)
        (drop done (head.now ++ frame.now)) }
{
    if done < head.len() {
        let behind = put(run, at, &head[done..]);
        return put(run, behind, frame);
    }
    put(run, at, &frame[done - head.len()..])
}
