//! The line for frames that a run left in its network.

use bytes::Bytes;
use pb_frame::Memory;
use pb_history::Tallies;
use pb_lan::{
    FrameNumber, Item, Mark, NoRoom, Outcome, PortSet, Reason, Record, Refusals, Seq, Step,
};
use pb_run_losses::transit_of;
use std::alloc::Global;
use std::test::Fail;

/// What happened to a frame, in order. All steps of a network are in one row, each at its own kind of place.
#[derive(Clone, Copy)]
enum Event {
    /// It entered.
    Poll,
    /// A bridge relayed it to these ports, and the last ones got no copy.
    Relay(&'static [u8], &'static [(u8, NoRoom)]),
    /// A bridge dropped it.
    Filter,
    /// A link took it, or lost it.
    Take(bool),
    /// It left.
    Deliver,
    /// A bridge heard a BPDU.
    Hear,
}

/// A kind of place.
#[derive(Clone, Copy, PartialEq)]
enum Kind {
    Bridge,
    Lane,
    Customer,
}

use Event::{Deliver, Filter, Hear, Poll, Relay, Take};

/// What happened, and the line.
type Row = (&'static [Event], &'static str);

/// Networks with the frames that are left in them, counted by hand.
const ROWS: &[Row] = &[
    (&[], ""),
    // one frame entered and waits
    (&[Poll], "frames in transit: 1\n"),
    // it was copied to two ports, and one copy left
    (
        &[Poll, Relay(&[1, 2], &[]), Deliver],
        "frames in transit: 1\n",
    ),
    // both copies left
    (&[Poll, Relay(&[1, 2], &[]), Deliver, Deliver], ""),
    // one of three copies was refused, one was taken by a link and received, and dropped
    (
        &[
            Poll,
            Relay(&[1, 2, 3], &[(2, NoRoom::Full)]),
            Take(false),
            Filter,
        ],
        "frames in transit: 1\n",
    ),
    // a lost frame, a dropped one and one without a port are not in transit
    (&[Poll, Relay(&[4], &[]), Take(true)], ""),
    (&[Poll, Filter], ""),
    (&[Poll, Relay(&[], &[])], ""),
    // BPDUs do not count
    (&[Hear, Poll, Hear], "frames in transit: 1\n"),
    // sixteen entered, and one of them has fifteen copies
    (
        &[
            Poll,
            Poll,
            Poll,
            Poll,
            Poll,
            Poll,
            Poll,
            Poll,
            Poll,
            Poll,
            Poll,
            Poll,
            Poll,
            Poll,
            Poll,
            Poll,
            Relay(&[2, 3, 4, 5, 6, 7, 8, 9, 10, 11, 12, 13, 14, 15, 16], &[]),
        ],
        "frames in transit: 30\n",
    ),
];

/// Returns an item, of a customer or of a bridge's own.
fn item(alloc: Global, is_marked: bool) -> Result<Item, Memory> {
    let wire = Bytes::copy_from_slice(alloc, b"\xab\x01")?;
    let mark = if is_marked {
        Some(Mark {
            port: 1,
            number: FrameNumber::new(0),
        })
    } else {
        None
    };
    Ok(Item {
        mark,
        hops: 0,
        wire,
    })
}

/// Returns the outcome of an event at a bridge.
fn outcome_of(event: Event) -> Outcome {
    match event {
        Relay(chosen, refused) => Outcome::Relayed {
            chosen: PortSet::from_slice(chosen).unwrap_or(PortSet::new()),
            refused: Refusals::from_slice(refused).unwrap_or(Refusals::new()),
        },
        Filter => Outcome::Filtered(Reason::NotMember),
        _ => Outcome::Heard,
    }
}

/// Returns the step of an event.
fn step_of(alloc: Global, event: Event) -> Result<Step, Memory> {
    let item = item(alloc, !matches!(event, Hear))?;
    Ok(match event {
        Poll => Step::Poll { item },
        Take(lost) => Step::Take {
            number: 0,
            item,
            lost,
        },
        Deliver => Step::Deliver { item, gone: false },
        _ => Step::Receive {
            port: 9,
            item,
            learnt: None,
            outcome: outcome_of(event),
            moved: None,
        },
    })
}

/// Returns the kind of place at which an event happens.
fn kind_of(event: Event) -> Kind {
    match event {
        Poll | Deliver => Kind::Customer,
        Take(_) => Kind::Lane,
        Relay(_, _) | Filter | Hear => Kind::Bridge,
    }
}

/// Returns the steps of the events at a kind of place, as those of one place.
fn steps_of(alloc: Global, events: &[Event], kind: Kind) -> Result<Seq<Seq<Step>>, Memory> {
    let mut steps = Vec::new(alloc);
    for event in events {
        if kind_of(*event) == kind {
            steps.push(step_of(alloc, *event)?)?;
        }
    }
    let mut places = Vec::new(alloc);
    places.push(Seq::from_vec(steps))?;
    Ok(Seq::from_vec(places))
}

/// Returns the counts of a network with one place of each kind.
fn counts_of(alloc: Global, events: &[Event]) -> Result<Tallies, Memory> {
    let record = Record {
        bridges: steps_of(alloc, events, Kind::Bridge)?,
        lanes: steps_of(alloc, events, Kind::Lane)?,
        customers: steps_of(alloc, events, Kind::Customer)?,
    };
    Tallies::of(alloc, &record)
}

#[test]
fn frames_in_transit_are_counted(rt: HostRuntime) -> Result<(), Fail> {
    for (events, line) in ROWS {
        let counts = counts_of(rt.alloc(), events)?;
        let text = transit_of(rt.alloc(), &counts)?;
        assert_eq!(rt; text.as_str(), *line);
    }
    Ok(())
}
