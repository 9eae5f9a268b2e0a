//! Tags.

use bytes::Bytes;
use pb_frame::{
    Memory, TagFault, Tci, has_priority_tag, has_service_type, look_c, pop_priority, pop_s,
    priority_of, push_s, vid_of, without_tag,
};
use std::alloc::Global;
use std::process::Abort;
use std::test::Fail;

/// A change of a frame, or a check of it.
#[derive(Clone, Copy)]
enum Case {
    /// With the tag of a VID, priority 0, it is this one.
    Tagged(u16, &'static [u8]),
    /// The tag of this VID is removed from it, and this frame remains.
    TakenOff(u16, &'static [u8]),
    /// No service tag is taken off it, for this.
    Stays(TagFault),
    /// It shows a customer tag of this priority, drop eligibility and VID, or none.
    Shows(Option<(u8, u8, u16)>),
    /// It has a priority tag of this priority, and is this one without it.
    HasPriority(u8, &'static [u8]),
    /// This priority tag is removed from it, or none, and this frame remains.
    LosesPriority(Option<u8>, &'static [u8]),
}

/// A frame, and a case that holds of it.
type Row = (&'static [u8], Case);

fn is_tagged(alloc: Global, frame: &Bytes, vid: u16, wanted: &[u8]) -> Result<bool, Memory> {
    if frame.len() < 14 {
        return Ok(false);
    }
    let tagged = push_s(alloc, frame, Tci::of(vid))?;
    Ok(tagged.as_slice() == wanted)
}

fn is_taken_off(alloc: Global, frame: &Bytes, vid: u16, wanted: &[u8]) -> Result<bool, TagFault> {
    let (tci, rest) = pop_s(alloc, frame)?;
    Ok(tci.vid == vid && rest.as_slice() == wanted)
}

fn shows(frame: &[u8], wanted: Option<(u8, u8, u16)>) -> bool {
    match look_c(frame) {
        Some(tci) => wanted == Some((tci.pcp, tci.dei, tci.vid)),
        None => wanted.is_none(),
    }
}

/// Checks whether a frame has a priority tag of this priority.
fn says_priority(frame: &[u8], priority: u8) -> bool {
    frame.len() >= 18
        && has_service_type(frame)
        && has_priority_tag(frame)
        && priority_of(frame) == priority
        && vid_of(frame) == 0
}

fn has_priority(alloc: Global, frame: &Bytes, priority: u8, wanted: &[u8]) -> Result<bool, Memory> {
    if frame.len() < 18 {
        return Ok(false);
    }
    let bare = without_tag(alloc, frame)?;
    Ok(says_priority(frame.as_slice(), priority) && bare.as_slice() == wanted)
}

fn loses_priority(
    alloc: Global,
    frame: &Bytes,
    wanted: Option<u8>,
    rest: &[u8],
) -> Result<bool, Memory> {
    if frame.len() < 14 {
        return Ok(false);
    }
    let (priority, left) = pop_priority(alloc, frame)?;
    Ok(priority == wanted && left.as_slice() == rest)
}

/// Checks whether a case holds of a frame.
fn holds(alloc: Global, frame: &Bytes, case: Case) -> Result<bool, Fail> {
    match case {
        Case::Tagged(vid, wanted) => Ok(is_tagged(alloc, frame, vid, wanted)?),
        Case::TakenOff(vid, wanted) => Ok(is_taken_off(alloc, frame, vid, wanted)?),
        Case::Stays(fault) => Ok(pop_s(alloc, frame).err() == Some(fault)),
        Case::Shows(wanted) => Ok(shows(frame.as_slice(), wanted)),
        Case::HasPriority(priority, bare) => Ok(has_priority(alloc, frame, priority, bare)?),
        Case::LosesPriority(wanted, rest) => Ok(loses_priority(alloc, frame, wanted, rest)?),
    }
}

/// Checks that each row holds.
fn all_hold(rt: &impl Abort, alloc: Global, rows: &[Row]) -> Result<(), Fail> {
    for (number, (octets, case)) in rows.iter().enumerate() {
        let frame = Bytes::from_static(octets);
        assert!(rt; holds(alloc, &frame, *case)?, "row {number}");
    }
    Ok(())
}

/// A broadcast with the customer tag of VID 5, priority 1.
const CUSTOMER: &[u8] = b"\xff\xff\xff\xff\xff\xff\x02\0\0\0\x01\x01\x81\0\x20\x05\x08\0";

/// A broadcast of the least length.
const SHORT: &[u8] = b"\xff\xff\xff\xff\xff\xff\x02\0\0\0\x01\x01\x08\0";

#[test]
fn a_service_tag_stands_behind_the_addresses(rt: HostRuntime) -> Result<(), Fail> {
    const TAGGED: &[u8] =
        b"\xff\xff\xff\xff\xff\xff\x02\0\0\0\x01\x01\x88\xa8\0\x64\x81\0\x20\x05\x08\0";
    const ROWS: &[Row] = &[
        (CUSTOMER, Case::Tagged(100, TAGGED)),
        (TAGGED, Case::TakenOff(100, CUSTOMER)),
    ];
    all_hold(&rt, rt.alloc(), ROWS)
}

#[test]
fn nothing_need_stand_behind_a_service_tag(rt: HostRuntime) -> Result<(), Fail> {
    const TAGGED: &[u8] = b"\xff\xff\xff\xff\xff\xff\x02\0\0\0\x01\x01\x88\xa8\0\x64\x08\0";
    const ROWS: &[Row] = &[
        (SHORT, Case::Tagged(100, TAGGED)),
        (TAGGED, Case::TakenOff(100, SHORT)),
    ];
    all_hold(&rt, rt.alloc(), ROWS)
}

#[test]
fn a_cut_service_tag_is_told(rt: HostRuntime) -> Result<(), Fail> {
    const CUT: &[u8] = b"\xff\xff\xff\xff\xff\xff\x02\0\0\0\x01\x01\x88\xa8\0\x64\x08";
    const ROWS: &[Row] = &[
        (CUT, Case::Stays(TagFault::Cut)),
        (SHORT, Case::Stays(TagFault::NoTag)),
        (b"\0\0", Case::Stays(TagFault::NoTag)),
    ];
    all_hold(&rt, rt.alloc(), ROWS)
}

#[test]
fn customer_tags_are_shown(rt: HostRuntime) -> Result<(), Fail> {
    const CUT: &[u8] = b"\xff\xff\xff\xff\xff\xff\x02\0\0\0\x01\x01\x81\0\x20\x05\x08";
    const ROWS: &[Row] = &[
        (CUSTOMER, Case::Shows(Some((1, 0, 5)))),
        (CUT, Case::Shows(None)),
    ];
    all_hold(&rt, rt.alloc(), ROWS)
}

#[test]
fn priority_tags_come_off(rt: HostRuntime) -> Result<(), Fail> {
    const TAGGED: &[u8] = b"\xff\xff\xff\xff\xff\xff\x02\0\0\0\x01\x01\x88\xa8\xa0\0\x08\0AB";
    const BARE: &[u8] = b"\xff\xff\xff\xff\xff\xff\x02\0\0\0\x01\x01\x08\0AB";
    const ROWS: &[Row] = &[
        (TAGGED, Case::HasPriority(5, BARE)),
        (TAGGED, Case::LosesPriority(Some(5), BARE)),
    ];
    all_hold(&rt, rt.alloc(), ROWS)
}

#[test]
fn tags_with_a_service_stay(rt: HostRuntime) -> Result<(), Fail> {
    const TAGGED: &[u8] = b"\xff\xff\xff\xff\xff\xff\x02\0\0\0\x01\x01\x88\xa8\0\x05\x08\0AB";
    const ROWS: &[Row] = &[(TAGGED, Case::LosesPriority(None, TAGGED))];
    all_hold(&rt, rt.alloc(), ROWS)
}
