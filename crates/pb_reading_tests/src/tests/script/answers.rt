//! The printed text of steps.

use super::plans::network;
use bytes::Bytes;
use pb_lan::{
    FrameNumber, Item, Mark, Moved, NoRoom, Outcome, Place, PortSet, Reason, Refusals, Seq, Step,
};
use pb_step_script::{put_done, put_idle, put_no_such};
use std::alloc::{AllocError, Global};
use std::process::Abort;
use std::test::Fail;

/// Returns a frame of two octets with a mark.
fn item(alloc: Global) -> Result<Item, AllocError> {
    Ok(Item {
        mark: Some(Mark {
            port: 2,
            number: FrameNumber::new(7),
        }),
        hops: 0,
        wire: Bytes::copy_from_slice(alloc, b"\xab\x01")?,
    })
}

/// Returns the report of a step in which no port changed.
fn moved(alloc: Global) -> Moved {
    Moved {
        states: Seq::from_vec(Vec::new(alloc)),
        flushed: Seq::from_vec(Vec::new(alloc)),
        queued: Seq::from_vec(Vec::new(alloc)),
        replaced: Seq::from_vec(Vec::new(alloc)),
        dropped: Seq::from_vec(Vec::new(alloc)),
    }
}

/// Returns a text to which the line of a step of a place was appended.
fn text_of(alloc: Global, place: Place, step: &Step) -> Result<String, Fail> {
    let plan = network(alloc)?;
    let mut out = String::from_str(alloc, "before\n")?;
    put_done(alloc, &mut out, &plan, place, step)?;
    Ok(out)
}

/// Asserts the line of a step of a place.
fn said(rt: &impl Abort, alloc: Global, place: Place, step: Step, want: &str) -> Result<(), Fail> {
    let text = text_of(alloc, place, &step)?;
    assert_eq!(rt; text.as_str().strip_prefix("before\n"), Some(want));
    Ok(())
}

#[test]
fn a_poll_is_told_with_its_number(rt: HostRuntime) -> Result<(), Fail> {
    let item = item(rt.alloc())?;
    said(
        &rt,
        rt.alloc(),
        Place::Customer(2),
        Step::Poll { item },
        "polled C2 7\n",
    )
}

#[test]
fn a_feed_is_told(rt: HostRuntime) -> Result<(), Fail> {
    let item = item(rt.alloc())?;
    said(
        &rt,
        rt.alloc(),
        Place::Customer(2),
        Step::Feed { item },
        "fed\n",
    )
}

#[test]
fn a_departure_is_told_with_its_octets(rt: HostRuntime) -> Result<(), Fail> {
    let item = item(rt.alloc())?;
    let deliver = Step::Deliver { item, gone: false };
    said(
        &rt,
        rt.alloc(),
        Place::Customer(2),
        deliver,
        "delivered ab01\n",
    )
}

/// Asserts the line of a lane that takes an item.
fn takes(rt: &impl Abort, alloc: Global, lost: bool, want: &str) -> Result<(), Fail> {
    let (number, item) = (3, item(alloc)?);
    let take = Step::Take { number, item, lost };
    said(rt, alloc, Place::Lane(1), take, want)
}

#[test]
fn lanes_tell_what_they_lose(rt: HostRuntime) -> Result<(), Fail> {
    takes(&rt, rt.alloc(), false, "taken 3\n")?;
    takes(&rt, rt.alloc(), true, "lost 3\n")
}

#[test]
fn a_put_is_told(rt: HostRuntime) -> Result<(), Fail> {
    let item = item(rt.alloc())?;
    said(&rt, rt.alloc(), Place::Lane(1), Step::Put { item }, "put\n")
}

#[test]
fn what_a_bridge_sends_is_told(rt: HostRuntime) -> Result<(), Fail> {
    let item = item(rt.alloc())?;
    let transmit = Step::Transmit { port: 1, item };
    said(&rt, rt.alloc(), Place::Bridge(1), transmit, "sent ab01\n")
}

#[test]
fn a_tick_is_told(rt: HostRuntime) -> Result<(), Fail> {
    let moved = moved(rt.alloc());
    let tick = Step::Tick { now: 1, moved };
    said(&rt, rt.alloc(), Place::Bridge(1), tick, "ticked\n")
}

#[test]
fn a_setting_is_told(rt: HostRuntime) -> Result<(), Fail> {
    let moved = moved(rt.alloc());
    let (port, up) = (1, false);
    let admin = Step::Admin { port, up, moved };
    said(&rt, rt.alloc(), Place::Bridge(1), admin, "set\n")
}

/// Asserts the line of a frame that a bridge received, with this outcome.
fn ruled(rt: &impl Abort, alloc: Global, outcome: Outcome, want: &str) -> Result<(), Fail> {
    let step = Step::Receive {
        port: 2,
        item: item(alloc)?,
        learnt: None,
        outcome,
        moved: None,
    };
    said(rt, alloc, Place::Bridge(1), step, want)
}

/// Asserts the line of a frame that is relayed to these ports, some of which got no copy.
fn relayed(
    rt: &impl Abort,
    alloc: Global,
    chosen: &[u8],
    refused: &[(u8, NoRoom)],
    want: &str,
) -> Result<(), Fail> {
    let outcome = Outcome::Relayed {
        chosen: PortSet::from_slice(chosen).ok_or(AllocError)?,
        refused: Refusals::from_slice(refused).ok_or(AllocError)?,
    };
    ruled(rt, alloc, outcome, want)
}

#[test]
fn relayed_frames_are_told_with_their_ports(rt: HostRuntime) -> Result<(), Fail> {
    let alloc = rt.alloc();
    relayed(&rt, alloc, &[2, 4], &[], "relayed 2 4\n")?;
    relayed(&rt, alloc, &[], &[], "relayed\n")?;
    relayed(
        &rt,
        alloc,
        &[2, 3],
        &[(2, NoRoom::Full)],
        "relayed 3 full 2\n",
    )?;
    let both = [(2, NoRoom::Memory), (3, NoRoom::Full)];
    relayed(&rt, alloc, &[2, 3], &both, "relayed memory 2 full 3\n")
}

#[test]
fn a_bpdu_is_told(rt: HostRuntime) -> Result<(), Fail> {
    ruled(&rt, rt.alloc(), Outcome::Heard, "heard\n")
}

#[test]
fn filtered_frames_are_told_with_the_reason(rt: HostRuntime) -> Result<(), Fail> {
    for (reason, want) in [
        (Reason::NotForwarding, "filtered not-forwarding\n"),
        (Reason::NotMember, "filtered not-member\n"),
        (Reason::Untagged, "filtered untagged\n"),
        (Reason::Reserved(14), "filtered reserved-14\n"),
        (Reason::Malformed, "filtered malformed\n"),
        (Reason::Worn, "filtered worn\n"),
        (Reason::Memory, "filtered memory\n"),
        (Reason::STagged, "filtered s-tagged\n"),
        (Reason::Long, "filtered long\n"),
    ] {
        ruled(&rt, rt.alloc(), Outcome::Filtered(reason), want)?;
    }
    Ok(())
}

#[test]
fn other_answers_are_words(rt: HostRuntime) -> Result<(), Fail> {
    let mut out = String::new(rt.alloc());
    put_idle(&mut out)?;
    put_no_such(&mut out)?;
    assert_eq!(rt; out.as_str(), "idle\nno such\n");
    Ok(())
}
