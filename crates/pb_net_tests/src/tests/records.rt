//! Records in short.

use bytes::Bytes;
use pb_frame::Memory;
use pb_history::Tallies;
use pb_lan::{
    FrameNumber, Item, Learnt, Mark, NoRoom, Outcome, PortSet, Record, Refusals, Seq, Step,
};
use std::alloc::{AllocError, Global};

/// The first frame of customer port 1: its hops, and its octets.
pub(super) type Piece = (u32, &'static [u8]);

/// An action of a place with that frame.
#[derive(Clone, Copy)]
pub(super) enum FrameAction {
    Poll(Piece),
    Feed(Piece),
    /// A bridge received it at a port, and relayed it to another one or refused it there.
    Receive(u8, Piece, u8, &'static [(u8, NoRoom)]),
    Transmit(u8, Piece),
    Take(Piece),
    Put(Piece),
    Deliver(Piece),
}

/// The actions of all places.
#[derive(Clone, Copy)]
pub(super) struct Done {
    pub(super) bridges: &'static [&'static [FrameAction]],
    pub(super) lanes: &'static [&'static [FrameAction]],
    pub(super) customers: &'static [&'static [FrameAction]],
}

impl FrameAction {
    fn piece(self) -> Piece {
        match self {
            FrameAction::Poll(piece)
            | FrameAction::Feed(piece)
            | FrameAction::Receive(_, piece, _, _)
            | FrameAction::Transmit(_, piece)
            | FrameAction::Take(piece)
            | FrameAction::Put(piece)
            | FrameAction::Deliver(piece) => piece,
        }
    }
}

fn item_of(piece: Piece) -> Item {
    Item {
        mark: Some(Mark {
            port: 1,
            number: FrameNumber::new(0),
        }),
        hops: piece.0,
        wire: Bytes::from_static(piece.1),
    }
}

fn relayed(to: u8, refused: &[(u8, NoRoom)]) -> Outcome {
    Outcome::Relayed {
        chosen: PortSet::from_slice(&[to]).unwrap_or(PortSet::new()),
        refused: Refusals::from_slice(refused).unwrap_or(Refusals::new()),
    }
}

fn step_of(action: FrameAction) -> Step {
    let item = item_of(action.piece());
    match action {
        FrameAction::Poll(_) => Step::Poll { item },
        FrameAction::Feed(_) => Step::Feed { item },
        FrameAction::Receive(port, _, to, refused) => Step::Receive {
            port,
            item,
            learnt: Some(Learnt::New),
            outcome: relayed(to, refused),
            moved: None,
        },
        FrameAction::Transmit(port, _) => Step::Transmit { port, item },
        FrameAction::Take(_) => Step::Take {
            number: 0,
            item,
            lost: false,
        },
        FrameAction::Put(_) => Step::Put { item },
        FrameAction::Deliver(_) => Step::Deliver { item, gone: false },
    }
}

fn steps_of(alloc: Global, all: &[FrameAction]) -> Result<Seq<Step>, AllocError> {
    let mut steps = Vec::new(alloc);
    for action in all {
        steps.push(step_of(*action))?;
    }
    Ok(Seq::from_vec(steps))
}

fn lists_of(alloc: Global, all: &[&[FrameAction]]) -> Result<Seq<Seq<Step>>, AllocError> {
    let mut lists = Vec::new(alloc);
    for steps in all {
        lists.push(steps_of(alloc, steps)?)?;
    }
    Ok(Seq::from_vec(lists))
}

/// Fills the lists of a record with these actions.
fn fill(alloc: Global, done: &Done, record: &mut Record) -> Result<(), AllocError> {
    record.bridges = lists_of(alloc, done.bridges)?;
    record.lanes = lists_of(alloc, done.lanes)?;
    record.customers = lists_of(alloc, done.customers)?;
    Ok(())
}

/// Returns the record of these actions.
pub(super) fn record_of(alloc: Global, done: &Done) -> Result<Record, AllocError> {
    let mut record = Record {
        bridges: Seq::from_vec(Vec::new(alloc)),
        lanes: Seq::from_vec(Vec::new(alloc)),
        customers: Seq::from_vec(Vec::new(alloc)),
    };
    fill(alloc, done, &mut record)?;
    Ok(record)
}

/// Returns the tallies of these actions.
pub(super) fn tallies_of(alloc: Global, done: &Done) -> Result<Tallies, Memory> {
    let record = record_of(alloc, done)?;
    Tallies::of(alloc, &record)
}
