//! Values from outside: worked examples of the standards' layouts, and texts.

mod digits;
mod tags;
mod values;

use pb_frame::{FrameFault, Mac, Memory, Tci, destination_of, index_of, source_of, view};
use std::alloc::{AllocError, Global};
use std::test::Fail;

/// Checks whether a frame has these addresses, this type and this payload.
fn has_parts(frame: &[u8], dst: Mac, src: Mac, kind: u16, rest: &[u8]) -> bool {
    match view(frame) {
        Ok(parts) => {
            parts.dst == dst && parts.src == src && parts.kind == kind && parts.rest == rest
        }
        Err(_) => false,
    }
}

#[test]
fn frames_are_taken_apart(rt: HostRuntime) {
    const FRAME: &[u8] = b"\xff\xff\xff\xff\xff\xff\x02\0\0\0\x01\x01\x08\0AB";
    const SRC: Mac = Mac([2, 0, 0, 0, 1, 1]);
    assert!(rt; has_parts(FRAME, Mac([255; 6]), SRC, 0x0800, b"AB"));
    assert!(rt; destination_of(FRAME) == Mac([255; 6]) && source_of(FRAME) == SRC);
}

/// Addresses, and whether each is that of a group.
const GROUPS: &[(Mac, bool)] = &[
    (Mac([255; 6]), true),
    (Mac([1, 0x80, 0xc2, 0, 0, 0]), true),
    (Mac([2, 0, 0, 0, 1, 1]), false),
    (Mac([0, 1, 1, 1, 1, 1]), false),
];

#[test]
fn groups_are_known_by_one_bit(rt: HostRuntime) {
    for (address, wanted) in GROUPS {
        assert!(rt; address.is_group() == *wanted, "{address:?}");
    }
}

#[test]
fn numbers_begin_at_1(rt: HostRuntime) {
    assert!(rt; index_of(1) == 0 && index_of(255) == 254);
}

/// Returns the fault of a frame of this many octets, all 7.
fn fault_of(alloc: Global, octets: usize) -> Result<Option<FrameFault>, AllocError> {
    let frame = vec![in alloc; 7u8; octets]?;
    Ok(view(&frame).err())
}

/// Lengths of frames, and the fault of each.
const LENGTHS: &[(usize, Option<FrameFault>)] = &[
    (13, Some(FrameFault::Short)),
    (14, None),
    (1996, None),
    (1997, Some(FrameFault::Long)),
];

#[test]
fn frames_have_14_to_1996_octets(rt: HostRuntime) -> Result<(), Fail> {
    for (octets, wanted) in LENGTHS {
        assert!(rt; fault_of(rt.alloc(), *octets)? == *wanted, "{octets}");
    }
    Ok(())
}

/// Checks whether a control has this value, and is read from it.
fn has_value(tci: Tci, value: u16) -> bool {
    tci.value() == value && Tci::of(value) == tci
}

#[test]
fn control_is_priority_eligibility_and_vid(rt: HostRuntime) {
    let highest = Tci {
        pcp: 7,
        dei: 1,
        vid: 4094,
    };
    assert!(rt; has_value(highest, 0xfffe));
    let usual = Tci {
        pcp: 5,
        dei: 0,
        vid: 100,
    };
    assert!(rt; has_value(usual, 0xa064));
}

/// Texts, and the address that each is, if it is one.
const TEXTS: &[(&str, Option<Mac>)] = &[
    ("01-80-c2-00-00-0E", Some(Mac([1, 0x80, 0xc2, 0, 0, 0x0e]))),
    ("01:80:c2:00:00:0E", None),
    ("01-80-c2-00-00-0", None),
    ("01-80-c2-00-00-0g", None),
];

#[test]
fn addresses_are_read(rt: HostRuntime) {
    for (text, wanted) in TEXTS {
        assert!(rt; Mac::read(text) == *wanted, "{text}");
    }
}

/// Checks whether an address is written as this text.
fn is_written(alloc: Global, address: Mac, wanted: &str) -> Result<bool, Memory> {
    let text = address.text(alloc)?;
    Ok(text.as_str() == wanted)
}

#[test]
fn addresses_are_written(rt: HostRuntime) -> Result<(), Fail> {
    const ADDRESS: Mac = Mac([1, 0x80, 0xc2, 0, 0, 0x0e]);
    assert!(rt; is_written(rt.alloc(), ADDRESS, "01-80-C2-00-00-0E")?);
    Ok(())
}
