//! Services, their members, and frames that enter.

use pb_frame::{Memory, Reason};
use pb_svlan::{AddFault, JoinFault, Services, Vid};
use std::alloc::{AllocError, Global};
use std::process::Abort;
use std::test::Fail;

/// Returns the number of a VID, if there is one.
fn number_of(vid: Option<Vid>) -> Option<u16> {
    Some(vid?.number())
}

/// Numbers, and the VID of each, if there is one.
const VIDS: &[(u16, Option<u16>)] = &[(0, None), (4095, None), (1, Some(1)), (4094, Some(4094))];

#[test]
fn vids_run_from_1_to_4094(rt: HostRuntime) {
    for (number, wanted) in VIDS {
        assert!(rt; number_of(Vid::new(*number)) == *wanted, "{number}");
    }
}

#[test]
fn a_copy_of_services_goes_on_alone(rt: HostRuntime) -> Result<(), Fail> {
    let mut services = Services::new(rt.alloc());
    assert!(rt; adds(rt.alloc(), &mut services, "red", 5, Ok(1)));
    let mut copy = services.clone()?;
    assert!(rt; adds(rt.alloc(), &mut copy, "red", 6, Err(AddFault::TakenName)));
    assert!(rt; adds(rt.alloc(), &mut copy, "blue", 6, Ok(2)));
    assert_eq!(rt; (services.len(), copy.len()), (1, 2));
    Ok(())
}

/// The priority of a frame that enters, and whether a tag is cut; or why it is refused.
type Entered = Result<(u8, bool), Reason>;

/// A change of services, or a check of them.
#[derive(Clone, Copy)]
enum Row {
    /// A service is added by its name and VID, with this result.
    Adds(&'static str, u16, Result<u8, AddFault>),
    /// This many services are added, from VID 1 on.
    AddsFirst(u8),
    /// There are this many services.
    Counts(usize),
    /// A port joins a service at a priority, with this result.
    Joins(u8, u8, u8, Result<(), JoinFault>),
    /// A port is made a trunk, of all services or of those listed, with this result.
    Trunks(u8, Option<&'static [u8]>, Result<(), JoinFault>),
    /// These ports are the members of a VID.
    Members(u16, &'static [u8]),
    /// A port is a member of a VID, or not.
    IsMember(u8, u16, bool),
    /// A port is taken, or not.
    IsTaken(u8, bool),
    /// The priority of a port.
    Priority(u8, Option<u8>),
    /// The VID at a port.
    VidAt(u8, Option<u16>),
    /// A frame of this length to 02-00-00-00-00-05, with these octets after its addresses, has this result at port 1.
    Enters(usize, &'static [u8], Entered),
    /// A frame to 01-80-C2-00-00-XX, with no octets after these, has this result at port 1.
    EntersTo(u8, &'static [u8], Entered),
}

/// Checks whether a service is added with this result.
fn adds(
    alloc: Global,
    services: &mut Services,
    name: &str,
    number: u16,
    wanted: Result<u8, AddFault>,
) -> bool {
    match Vid::new(number) {
        Some(vid) => services.add(alloc, name, vid) == wanted,
        None => false,
    }
}

/// Checks whether a service with this number and VID is added.
fn adds_number(alloc: Global, services: &mut Services, number: u8) -> Result<bool, Memory> {
    let name = format!(in alloc; "service {number}")?;
    Ok(adds(alloc, services, &name, u16::from(number), Ok(number)))
}

/// Checks whether this many services are added.
fn adds_first(alloc: Global, services: &mut Services, count: u8) -> Result<bool, Memory> {
    for number in 1..=count {
        if !adds_number(alloc, services, number)? {
            return Ok(false);
        }
    }
    Ok(true)
}

/// Checks whether these ports are the members of a VID.
fn has_members(
    alloc: Global,
    services: &Services,
    number: u16,
    wanted: &[u8],
) -> Result<bool, Memory> {
    let ports = services.ports_of(alloc, number)?;
    Ok(ports.as_slice() == wanted)
}

/// Returns a frame to an address, with these octets after its addresses and zeros up to this length.
fn frame(alloc: Global, to: [u8; 6], behind: &[u8], length: usize) -> Result<Vec<u8>, AllocError> {
    let mut octets = Vec::from_slice(alloc, &to)?;
    octets.extend_from_slice(&[2, 0, 0, 0, 0, 6])?;
    octets.extend_from_slice(behind)?;
    octets.resize(octets.len().max(length), 0)?;
    Ok(octets)
}

/// Returns the result of a frame at port 1.
fn entered(services: &Services, frame: &[u8]) -> Entered {
    if services.vid_at(1).is_none() {
        return Ok((9, false));
    }
    let entered = services.enter(1, frame)?;
    Ok((entered.pcp, entered.cut))
}

/// Checks whether this becomes of a frame to an address.
fn enters(
    alloc: Global,
    services: &Services,
    to: [u8; 6],
    (length, behind, wanted): (usize, &[u8], Entered),
) -> Result<bool, Memory> {
    let octets = frame(alloc, to, behind, length)?;
    Ok(entered(services, &octets) == wanted)
}

/// Checks whether a row holds.
fn holds(alloc: Global, services: &mut Services, row: Row) -> Result<bool, Memory> {
    match row {
        Row::AddsFirst(count) => adds_first(alloc, services, count),
        Row::Members(number, ports) => has_members(alloc, services, number, ports),
        Row::Enters(length, behind, wanted) => {
            enters(
                alloc,
                services,
                [2, 0, 0, 0, 0, 5],
                (length, behind, wanted),
            )
        }
        Row::EntersTo(last, behind, wanted) => {
            enters(
                alloc,
                services,
                [1, 0x80, 0xc2, 0, 0, last],
                (0, behind, wanted),
            )
        }
        _ => Ok(is_so(alloc, services, row)),
    }
}

/// Checks whether a row that makes nothing else holds.
fn is_so(alloc: Global, services: &mut Services, row: Row) -> bool {
    match row {
        Row::Adds(name, number, wanted) => adds(alloc, services, name, number, wanted),
        Row::Counts(count) => services.len() == count && services.is_empty() == (count == 0),
        Row::Joins(port, service, pcp, wanted) => {
            pcp <= 7 && services.join(port, service, pcp) == wanted
        }
        Row::Trunks(port, listed, wanted) => services.trunk(alloc, port, listed) == wanted,
        Row::IsMember(port, number, wanted) => services.is_member(port, number) == wanted,
        Row::IsTaken(port, wanted) => services.is_taken(port) == wanted,
        Row::Priority(port, wanted) => services.pcp_of(port) == wanted,
        Row::VidAt(port, wanted) => number_of(services.vid_at(port)) == wanted,
        _ => false,
    }
}

/// Checks that the rows hold one after the other, of services that are none at first.
fn all_hold(rt: &impl Abort, alloc: Global, rows: &[Row]) -> Result<(), Fail> {
    let mut services = Services::new(alloc);
    for (number, row) in rows.iter().enumerate() {
        assert!(rt;
            holds(alloc, &mut services, *row)?,
            "row {number}, the first being 0"
        );
    }
    Ok(())
}

#[test]
fn services_differ_in_name_and_vid(rt: HostRuntime) -> Result<(), Fail> {
    const ROWS: &[Row] = &[
        Row::Counts(0),
        Row::Adds("red", 100, Ok(1)),
        Row::Adds("blue", 200, Ok(2)),
        Row::Adds("red", 200, Err(AddFault::TakenName)),
        Row::Adds("green", 200, Err(AddFault::TakenVid)),
        Row::Counts(2),
    ];
    all_hold(&rt, rt.alloc(), ROWS)
}

#[test]
fn there_are_at_most_64_services(rt: HostRuntime) -> Result<(), Fail> {
    const ROWS: &[Row] = &[
        Row::AddsFirst(64),
        Row::Adds("one more", 65, Err(AddFault::TooMany)),
    ];
    all_hold(&rt, rt.alloc(), ROWS)
}

#[test]
fn ports_are_members_of_their_services(rt: HostRuntime) -> Result<(), Fail> {
    const ROWS: &[Row] = &[
        Row::Adds("red", 100, Ok(1)),
        Row::Adds("blue", 200, Ok(2)),
        Row::Trunks(9, None, Ok(())),
        Row::Trunks(8, Some(&[2]), Ok(())),
        Row::Joins(2, 1, 5, Ok(())),
        Row::Joins(1, 1, 0, Ok(())),
        Row::Joins(3, 2, 0, Ok(())),
        Row::Joins(4, 3, 0, Err(JoinFault::NoService)),
        Row::Joins(3, 3, 0, Err(JoinFault::NoService)),
        Row::Joins(3, 1, 0, Err(JoinFault::Taken)),
        Row::Trunks(3, Some(&[1, 3]), Err(JoinFault::NoService)),
        Row::Trunks(3, None, Err(JoinFault::Taken)),
        // The trunk for all services carries the one that is added last, too.
        Row::Adds("green", 300, Ok(3)),
        Row::Members(100, &[1, 2, 9]),
        Row::Members(200, &[3, 8, 9]),
        Row::Members(300, &[9]),
        Row::IsMember(9, 300, true),
        Row::IsMember(8, 300, false),
        Row::IsMember(5, 100, false),
        Row::IsTaken(9, true),
        Row::IsTaken(5, false),
        Row::Priority(2, Some(5)),
        Row::Priority(9, None),
        Row::VidAt(3, Some(200)),
    ];
    all_hold(&rt, rt.alloc(), ROWS)
}

/// The service red is added.
const RED: Row = Row::Adds("red", 100, Ok(1));

/// Port 1 joins it at priority 3.
const AT_PORT_1: Row = Row::Joins(1, 1, 3, Ok(()));

#[test]
fn frames_enter_or_are_refused(rt: HostRuntime) -> Result<(), Fail> {
    const ROWS: &[Row] = &[
        RED,
        AT_PORT_1,
        Row::Enters(60, &[8, 0], Ok((3, false))),
        Row::Enters(13, &[8], Err(Reason::Malformed)),
        Row::Enters(14, &[8, 0], Ok((3, false))),
        Row::Enters(60, &[0x81, 0, 0x20, 5], Ok((3, false))),
        Row::Enters(60, &[0x88, 0xa8, 0xa0, 0, 8, 0], Ok((5, true))),
        Row::Enters(60, &[0x88, 0xa8, 0xb0, 0, 8, 0], Ok((5, true))),
    ];
    all_hold(&rt, rt.alloc(), ROWS)
}

#[test]
fn tagged_frames_are_refused(rt: HostRuntime) -> Result<(), Fail> {
    const REFUSED: Entered = Err(Reason::STagged);
    const ROWS: &[Row] = &[
        RED,
        AT_PORT_1,
        Row::Enters(60, &[0x88, 0xa8, 0, 0x64, 8, 0], REFUSED),
        Row::Enters(60, &[0x88, 0xa8, 0, 5, 8, 0], REFUSED),
        Row::Enters(60, &[0x88, 0xa8, 0, 0, 0x88, 0xa8, 0, 0], REFUSED),
    ];
    all_hold(&rt, rt.alloc(), ROWS)
}

#[test]
fn long_frames_are_refused(rt: HostRuntime) -> Result<(), Fail> {
    const ROWS: &[Row] = &[
        RED,
        AT_PORT_1,
        Row::Enters(1992, &[8, 0], Ok((3, false))),
        Row::Enters(1993, &[8, 0], Err(Reason::Long)),
        Row::Enters(1996, &[0x88, 0xa8, 0xe0, 0], Ok((7, true))),
        Row::Enters(1997, &[0x88, 0xa8, 0xe0, 0], Err(Reason::Long)),
    ];
    all_hold(&rt, rt.alloc(), ROWS)
}

#[test]
fn reserved_destinations_are_refused(rt: HostRuntime) -> Result<(), Fail> {
    const ROWS: &[Row] = &[
        RED,
        AT_PORT_1,
        Row::EntersTo(1, &[0x88, 0xa8, 0, 5], Err(Reason::Reserved(1))),
        Row::EntersTo(8, &[0x88, 0xa8, 0, 5], Err(Reason::Reserved(8))),
        Row::EntersTo(14, &[0x88, 0xa8, 0, 5], Err(Reason::Reserved(14))),
        Row::EntersTo(0, &[8, 0], Ok((3, false))),
        Row::EntersTo(0, &[0x81, 0, 0, 5, 8, 0], Ok((3, false))),
        Row::EntersTo(11, &[8, 0], Ok((3, false))),
        Row::EntersTo(11, &[0x81, 0, 0, 5, 8, 0], Ok((3, false))),
        Row::EntersTo(15, &[8, 0], Ok((3, false))),
        Row::EntersTo(15, &[0x81, 0, 0, 5, 8, 0], Ok((3, false))),
    ];
    all_hold(&rt, rt.alloc(), ROWS)
}
