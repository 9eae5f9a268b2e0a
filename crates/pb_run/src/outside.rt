//! The ports outside, before a run and after it.

ghost use Rattle.std.specs.Prelude.{◌≡◌, ◌≤◌, ◌<◌, [], All, map, vec_len, vec_capacity};
ghost use Rattle.std.specs.VecDeque.{deque_len};
ghost use Rattle.pb_run.specs.Gifts.{given_access};
ghost use Rattle.pb_workers.specs.Workers.{IsPortKept};
ghost use Rattle.pb_run.specs.Rooms.{IsPushed};

use pb_port::Port;
use pb_ring::Wiring;
use pb_tap::Tap;
use pb_workers::{Access, CustomerWorker, Last};
use std::collections::VecDeque;

/// A port that the caller made.
pub type Held = Box<dyn Port + Send>;

/// What a lane has for a file that records it.
pub type LaneTap = Tap<Held>;

/// Returns a worker for each port and its access, in order. Allocates nothing.
pub(crate) fn attended<W: Wiring, P: Port>(
    ports: Vec<P>,
    accesses: VecDeque<Access<W>>,
    room: Vec<CustomerWorker<W, P>>,
) -> Vec<CustomerWorker<W, P>>
    requires room { (room.items ≡ []) × (vec_len ports ≤ vec_capacity room) }
    requires count { deque_len accesses ≡ vec_len ports }
    requires fresh { All (λ d. (d.place.steps ≡ []) × (d.book.last ≡ Last.More)) accesses.items }
    ensures ports { map (λ w. w.was.value) result.items ≡ ports.items }
    ensures ports_now { map (λ w. w.port) result.items ≡ ports.items }
    ensures gifts { map (λ w. given_access w.access) result.items ≡ map given_access accesses.items }
    ensures keeps { All (IsPortKept P.Port) result.items }
{
    let (mut accesses, mut workers) = (accesses, room);
    for port in ports {
        let Some(access) = accesses.pop_front() else {
            unreachable!();
        };
        workers.push_reserved(CustomerWorker::new(port, access));
    }
    workers
}

/// The parts of customer ports that are back, in the order of their workers.
#[derive(Drop)]
pub(crate) struct Parts<A, P> {
    /// The ports outside.
    pub ports: Vec<P>,
    /// The accesses of the ports.
    pub accesses: Vec<A>,
    /// The results of the newest polls.
    pub lasts: Vec<Last>,
}

/// Appends the parts of a worker to the lists. Allocates nothing.
fn part<W: Wiring, P: Drop>(
    worker: CustomerWorker<W, P>,
    ports: &mut Vec<P>,
    accesses: &mut Vec<Access<W>>,
    lasts: &mut Vec<Last>,
)
    requires ports { vec_len ports.old < vec_capacity ports.old }
    requires accesses { vec_len accesses.old < vec_capacity accesses.old }
    requires lasts { vec_len lasts.old < vec_capacity lasts.old }
    ensures ports { IsPushed ports.old worker.port ports.new }
    ensures accesses { IsPushed accesses.old worker.access accesses.new }
    ensures lasts { IsPushed lasts.old worker.access.book.last lasts.new }
{
    lasts.push_reserved(worker.access.book.last);
    ports.push_reserved(worker.port);
    accesses.push_reserved(worker.access);
}

/// Splits workers into the ports outside, their accesses, and the results of the newest polls, each in the order of the
/// workers. Allocates nothing.
pub(crate) fn apart<W: Wiring, P: Drop>(
    workers: Vec<CustomerWorker<W, P>>,
    rooms: Parts<Access<W>, P>,
) -> Parts<Access<W>, P>
    requires empty { (rooms.ports.items ≡ []) × (rooms.accesses.items ≡ []) × (rooms.lasts.items ≡ []) }
    requires room { (vec_len workers ≤ vec_capacity rooms.ports) × (vec_len workers ≤ vec_capacity rooms.accesses)
        × (vec_len workers ≤ vec_capacity rooms.lasts) }
    ensures ports { result.ports.items ≡ map (λ w. w.port) workers.items }
    ensures accesses { result.accesses.items ≡ map (λ w. w.access) workers.items }
    ensures lasts { result.lasts.items ≡ map (λ w. w.access.book.last) workers.items }
{
    let Parts {
        mut ports,
        mut accesses,
        mut lasts,
    } = rooms;
    for worker in workers {
        part(worker, &mut ports, &mut accesses, &mut lasts);
    }
    Parts {
        ports,
        accesses,
        lasts,
    }
}
