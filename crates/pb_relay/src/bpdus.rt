//! A bridge's own BPDUs, and how they are queued.

ghost use Rattle.std.specs.Prelude.{◌≡◌, ◌<◌, ◌≤◌, ◌++◌, ◌∷◌, [], map, length, vec_len, vec_capacity, None, IfOk};
ghost use Rattle.std.specs.Prelude.{IfSome};
ghost use Rattle.std.specs.Option.{option_to_list};
ghost use Rattle.pb_lan.specs.Queues.{own_class};
ghost use Rattle.pb_lan.specs.declared.plan.Queues.TheVariants.{PerClass};
ghost use Rattle.pb_bpdu.specs.Layout.{written};
ghost use Rattle.pb_relay.specs.Bpdus.{frames_of, HasSent, told_queued, told_replaced, word_of};
ghost use Rattle.pb_relay.specs.Copies.{AreCopied, AreSeparate, named};
ghost use Rattle.pb_relay.specs.Moves.{own_at, own_queued, own_replaced, places_of};
ghost use Rattle.pb_relay.specs.Backlogs.{KeepsBacklog};

use crate::backlog::Backlog;
use crate::copies::note;
use pb_bpdu::Bpdu;
use pb_frame::{Mac, Memory, index_of};
use pb_lan::{Item, NoRoom, Queues};
use std::alloc::Global;

/// The number of local ports of a bridge.
const PORTS: usize = 16;

/// The allocator for a bridge's own BPDUs, and lists for the report of a step.
#[derive(Drop)]
pub struct BpduRoom {
    pub alloc: Global,
    /// The ports at which a BPDU was queued, each with the item.
    pub queued: Vec<(u8, Item)>,
    /// The BPDUs whose places newer ones took, each with its port.
    pub replaced: Vec<(u8, Item)>,
    /// The ports at which a BPDU was dropped, each with the cause.
    pub dropped: Vec<(u8, NoRoom)>,
}

impl BpduRoom {
    /// Returns empty lists, each with capacity for one entry of each local port. The list of replaced BPDUs has none if
    /// the bridge's own BPDUs have no place of their own.
    ///
    /// # Errors
    ///
    /// `Memory` if an allocation failed.
    pub fn new(alloc: Global, queues: Queues) -> Result<BpduRoom, Memory>
        ensures empty { IfOk result (λ room. (room.queued.items ≡ []) × (room.replaced.items ≡ [])
            × (room.dropped.items ≡ [])) }
        ensures room { IfOk result (λ room. (16 ≤ vec_capacity room.queued) × (16 ≤ vec_capacity room.dropped)
            × (queues ≡ PerClass → 16 ≤ vec_capacity room.replaced)) }
    {
        let replaced = match queues {
            Queues::PerPort => Vec::new(alloc),
            Queues::PerClass => Vec::with_capacity(alloc, PORTS)?,
        };
        Ok(BpduRoom {
            alloc,
            queued: Vec::with_capacity(alloc, PORTS)?,
            replaced,
            dropped: Vec::with_capacity(alloc, PORTS)?,
        })
    }
}

/// A BPDU that was queued, for the report of the step.
#[derive(Drop)]
struct Queued {
    /// The BPDU.
    item: Item,
    /// The older one whose place it took.
    older: Option<Item>,
}

/// Queues a BPDU at a port, and returns it for the report of the step.
///
/// Returns the cause if the queue is full or an allocation failed. The queues are unchanged then.
fn send(
    alloc: Global,
    backlog: &mut Backlog,
    place: usize,
    address: Mac,
    bpdu: &Bpdu,
) -> Result<Queued, NoRoom>
    requires { place < length backlog.old.ports }
    ensures { HasSent backlog.old place (written address.0 bpdu.now) result backlog.new }
{
    if backlog.is_full_for_own(place) {
        return Err(NoRoom::Full);
    }
    let Ok(wire) = pb_bpdu::write(alloc, address, bpdu) else {
        return Err(NoRoom::Memory);
    };
    let older = backlog.enqueue_own(place, &wire)?;
    let item = Item {
        mark: None,
        hops: 0,
        wire,
    };
    Ok(Queued { item, older })
}

/// Appends an item that was queued at a port. Allocates nothing.
fn note_item(queued: &mut Vec<(u8, Item)>, port: u8, item: Item)
    requires { vec_len queued.old < vec_capacity queued.old }
    ensures items { queued.new.items ≡ queued.old.items ++ (port, item) ∷ [] }
    ensures capacity { vec_capacity queued.old ≤ vec_capacity queued.new }
{
    let _ = queued.push((port, item));
}

/// Appends the BPDU that was replaced, if one was. Allocates nothing.
fn note_older(replaced: &mut Vec<(u8, Item)>, port: u8, older: Option<Item>)
    requires { IfSome older (λ _. vec_len replaced.old < vec_capacity replaced.old) }
    ensures items { replaced.new.items ≡ replaced.old.items ++ map (λ item. (port, item)) (option_to_list older) }
    ensures capacity { vec_capacity replaced.old ≤ vec_capacity replaced.new }
{
    if let Some(item) = older {
        note_item(replaced, port, item);
    }
}

/// Appends a BPDU to the list of queued or of dropped ones, and the one that it replaced to theirs. Allocates nothing.
fn note_sent(room: &mut BpduRoom, port: u8, answer: Result<Queued, NoRoom>)
    requires queued { vec_len room.old.queued < vec_capacity room.old.queued }
    requires replaced { IfOk answer (λ queued. IfSome queued.older
        (λ _. vec_len room.old.replaced < vec_capacity room.old.replaced)) }
    requires dropped { vec_len room.old.dropped < vec_capacity room.old.dropped }
    ensures queued { room.new.queued.items ≡ room.old.queued.items ++ told_queued port answer }
    ensures replaced { room.new.replaced.items ≡ room.old.replaced.items ++ told_replaced port answer }
    ensures dropped { room.new.dropped.items ≡ room.old.dropped.items ++ named port (word_of answer) }
    ensures room { (vec_capacity room.old.queued ≤ vec_capacity room.new.queued)
        × (vec_capacity room.old.replaced ≤ vec_capacity room.new.replaced)
        × (vec_capacity room.old.dropped ≤ vec_capacity room.new.dropped) }
{
    match answer {
        Ok(Queued { item, older }) => {
            note_item(&mut room.queued, port, item);
            note_older(&mut room.replaced, port, older);
        }
        Err(word) => note(&mut room.dropped, port, word),
    }
}

/// Queues each BPDU at its port, and reports which were queued, replaced and dropped.
pub fn queue_bpdus(backlog: &mut Backlog, room: &mut BpduRoom, sends: &[(u8, Bpdu)], address: Mac)
    requires backlog { length backlog.old.ports ≡ 16 }
    requires empty { (room.old.queued.items ≡ []) × (room.old.replaced.items ≡ []) × (room.old.dropped.items ≡ []) }
    requires room { (length sends.now ≤ vec_capacity room.old.queued)
        × (length sends.now ≤ vec_capacity room.old.dropped)
        × (backlog.old.capacity.queues ≡ PerClass → length sends.now ≤ vec_capacity room.old.replaced) }
    requires separate { AreSeparate (places_of (frames_of address.0 sends.now)) }
    ensures copied { AreCopied backlog.old.capacity (own_class backlog.old.capacity.queues)
        (own_at (frames_of address.0 sends.now)) backlog.old.ports (places_of (frames_of address.0 sends.now))
        room.new.dropped.items backlog.new.ports }
    ensures count { length backlog.new.ports ≡ 16 }
    ensures kept { KeepsBacklog backlog.old backlog.new }
    ensures reported { (room.new.queued.items ≡ own_queued room.new.dropped.items (frames_of address.0 sends.now))
        × (room.new.replaced.items
        ≡ own_replaced backlog.old.capacity.queues backlog.old.ports room.new.queued.items) }
{
    for (port, bpdu) in sends {
        let place = index_of(*port);
        let answer = send(room.alloc, backlog, place, address, bpdu);
        note_sent(room, *port, answer);
    }
}
