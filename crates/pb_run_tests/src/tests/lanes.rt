//! A lane's worker, turn by turn.

ghost use Rattle.std.specs.Prelude.{◌≡◌, Some, [], slice_get};
ghost use Rattle.rtrb.specs.Ring.{sent, received};
ghost use Rattle.pb_ring.specs.Rings.{writer_name, reader_name};

use bytes::Bytes;
use pb_frame::Memory;
use pb_lan::{FrameNumber, Item, Mark, Place, Seq};
use pb_link::Lane;
use pb_port::MemoryPort;
use pb_ring::{Inlet, Outlet, Wiring};
use pb_run::LaneWorker;
use pb_threads::{Finish, Moment, Turn, TurnStatus, Work};
use rtrb::{Consumer, Producer, RingBuffer};
use std::alloc::{AllocError, Global};
use std::marker::Brand;
use std::test::Fail;

/// The two ends of a ring.
type Ring = (Producer<Item>, Consumer<Item>);

/// A broadcast.
const BROADCAST: [u8; 14] = [255, 255, 255, 255, 255, 255, 2, 0, 0, 0, 1, 1, 8, 0];

/// The moment of a turn at which no clock ticks.
const STILL: Moment = Moment {
    now: 0,
    is_tick: false,
    is_open: true,
};

/// Returns the broadcast, as the frame of this number of customer port 1.
fn item(alloc: Global, number: u64) -> Result<Item, AllocError> {
    Ok(Item {
        mark: Some(Mark {
            port: 1,
            number: FrameNumber::new(number),
        }),
        hops: 0,
        wire: Bytes::copy_from_slice(alloc, &BROADCAST)?,
    })
}

/// Returns the worker of lane 3, which loses its second item and may take five steps.
fn worker_of<W: Wiring>(
    alloc: Global,
    from: Consumer<Item>,
    to: Producer<Item>,
) -> Result<LaneWorker<W, MemoryPort>, Memory>
    requires from { (slice_get W.rings 0 ≡ Some (reader_name from)) × (received from ≡ []) }
    requires to { (slice_get W.rings 1 ≡ Some (writer_name to)) × (sent to ≡ []) }
{
    let lane = Lane::new(alloc, Seq::from_vec(vec![in alloc; 1u64]?));
    let (from, to) = (Inlet::new(from, 0), Outlet::new(to, 1));
    Ok(LaneWorker::new(3, lane, from, to, Vec::new(alloc), 5))
}

/// Checks whether the worker's next turn has this status, and subtracts this much from what is left to do.
fn has_status<W: Wiring>(
    worker: &mut LaneWorker<W, MemoryPort>,
    status: TurnStatus,
    fewer: u64,
) -> bool {
    worker.turn(STILL)
        == Turn {
            status,
            fewer,
            ..Turn::IDLE
        }
}

/// An action of a worker, or a check of it.
#[derive(Clone, Copy)]
enum Row {
    /// The item of a number is sent to it.
    Sent(u64),
    /// Its turn has this status, and subtracts this much from what is left to do.
    Turn(TurnStatus, u64),
    /// The item of a number has come from it.
    Came(u64),
}

/// The worker takes and puts items, loses one, and comes to the limit.
const ROWS: &[Row] = &[
    Row::Turn(TurnStatus::Idle, 0),
    Row::Sent(0),
    Row::Sent(1),
    Row::Sent(2),
    Row::Sent(3),
    Row::Turn(TurnStatus::Done, 0),
    Row::Turn(TurnStatus::Done, 0),
    Row::Turn(TurnStatus::Done, 1),
    Row::Turn(TurnStatus::Done, 0),
    Row::Turn(TurnStatus::Idle, 0),
    Row::Came(0),
    Row::Turn(TurnStatus::Done, 0),
    Row::Turn(TurnStatus::Limit, 0),
    Row::Came(2),
];

/// Checks whether a row holds.
fn holds<W: Wiring>(
    alloc: Global,
    near: &mut Producer<Item>,
    worker: &mut LaneWorker<W, MemoryPort>,
    far: &mut Consumer<Item>,
    row: Row,
) -> Result<bool, Memory> {
    match row {
        Row::Turn(status, fewer) => Ok(has_status(worker, status, fewer)),
        Row::Sent(number) => Ok(near.push(item(alloc, number)?).is_ok()),
        Row::Came(number) => {
            let wanted = item(alloc, number)?;
            Ok(far.pop().is_ok_and(|item| item == wanted))
        }
    }
}

/// Checks whether all rows hold of a worker between two rings.
fn carry<W: Wiring>(alloc: Global, from: Ring, to: Ring) -> Result<bool, Memory>
    requires from { (slice_get W.rings 0 ≡ Some (reader_name from.1)) × (received from.1 ≡ []) }
    requires to { (slice_get W.rings 1 ≡ Some (writer_name to.0)) × (sent to.0 ≡ []) }
{
    let mut near = from.0;
    let mut far = to.1;
    let mut worker = worker_of::<W>(alloc, from.1, to.0)?;
    let mut is_good = worker.place() == Place::Lane(3);
    for row in ROWS {
        is_good = is_good && holds(alloc, &mut near, &mut worker, &mut far, *row)?;
    }
    Ok(is_good && is_closed(&mut worker))
}

/// Checks whether the worker keeps the reason why it was closed, and the five steps that it took.
fn is_closed<W: Wiring>(worker: &mut LaneWorker<W, MemoryPort>) -> bool {
    worker.close(STILL, Finish::Limit);
    worker.finish == Some(Finish::Limit) && worker.lane.steps().len() == 5
}

#[test]
fn a_lane_takes_and_puts(rt: HostRuntime) -> Result<(), Fail> {
    let alloc = rt.alloc();
    let from = RingBuffer::<Item>::new(alloc, 4)?;
    let to = RingBuffer::<Item>::new(alloc, 1)?;
    assert!(rt; carry::<Brand>(alloc, from, to)?);
    Ok(())
}
