//! Recording the frames that a lane puts.

ghost use Rattle.std.specs.Prelude.{◌≡◌, true, map, All, IfOk};
ghost use Rattle.rtrb.specs.Ring.{sent, known_free, SameProducer};
ghost use Rattle.pb_link.specs.Lanes.{in_hand, HasSent};
ghost use Rattle.pb_tap.specs.Taps.{HasRoom, IsPrepared};
ghost use Rattle.pb_workers.specs.Recording.{ArePrepared, AreRecorded, own_lists, with_ready};

use bytes::Bytes;
use pb_frame::Memory;
use pb_lan::Item;
use pb_link::Lane;
use pb_port::Port;
use pb_tap::Tap;
use rtrb::Producer;

/// Has each tap keep a copy of the next frame, if all have space for it. Returns whether they have.
///
/// # Errors
///
/// `Memory` if an allocation failed.
pub(crate) fn prepare_all<P>(taps: &mut Vec<Tap<P>>, wire: &Bytes) -> Result<bool, Memory>
    ensures ready { IfOk result (λ are_ready. are_ready ≡ true → All (IsPrepared wire.now) taps.new.items) }
    ensures own { own_lists taps.new.items ≡ own_lists taps.old.items }
{
    for index in 0..taps.len() {
        if !taps[index].prepare(wire)? {
            return Ok(false);
        }
    }
    Ok(true)
}

/// Records the frame of which each tap has a copy. Allocates nothing.
fn commit_all<P>(taps: &mut Vec<Tap<P>>)
    requires { All (λ t. HasRoom t.recorder) taps.old.items }
    ensures { own_lists taps.new.items ≡ map with_ready taps.old.items }
{
    for index in 0..taps.len() {
        taps[index].commit();
    }
}

/// Puts the item in hand onto a ring, and records its frame, of which each tap has a copy. Returns `false`, and changes
/// nothing, if the ring is full.
///
/// # Errors
///
/// `Memory` if an allocation failed. Nothing is changed then.
pub(crate) fn put_recorded<P>(
    lane: &mut Lane,
    to: &mut Producer<Item>,
    taps: &mut Vec<Tap<P>>,
) -> Result<bool, Memory>
    requires ready { ArePrepared (in_hand lane.old.steps) taps.old.items }
    requires recorded { AreRecorded taps.old.items lane.old.steps }
    ensures recorded { AreRecorded taps.new.items lane.new.steps }
    ensures put { HasSent result lane.old (sent to.old) (known_free to.new) lane.new (sent to.new) }
    ensures ring { SameProducer to.old to.new }
{
    let has_put = lane.put(to)?;
    if has_put {
        commit_all(taps);
    }
    Ok(has_put)
}

/// Passes frames to the files of the taps, at this number of ticks. Returns whether a frame moved.
///
/// # Errors
///
/// `Memory` if an allocation failed. The next call goes on.
pub(crate) fn record_all<P: Port>(
    taps: &mut Vec<Tap<P>>,
    now: u32,
    is_idle: bool,
) -> Result<bool, Memory>
    ensures { own_lists taps.new.items ≡ own_lists taps.old.items }
{
    let mut has_moved = false;
    for index in 0..taps.len() {
        let moves = taps[index].record(now, is_idle)?;
        has_moved = has_moved || moves;
    }
    Ok(has_moved)
}
