//! The frames that options describe.

ghost use Rattle.std.specs.Prelude.{◌≡◌, IfOk};
ghost use Rattle.pb_frame_options.specs.Frames.{frame_of};

use pb_frame::Mac;
use pb_frame_options::{
    Content, FrameOptions, TagTextFault, address_of, customer_tag_of, ethertype_of, frame_of,
    priority_tag, station_of,
};
use std::alloc::{AllocError, Global};
use std::process::Abort;
use std::test::Fail;

/// A broadcast of the station at port 1, without tags.
const BROADCAST: FrameOptions = FrameOptions {
    to: Mac([0xff; 6]),
    from: Mac([2, 0, 0, 0, 1, 1]),
    service: None,
    customer: None,
    content: Content::EtherType(0x0800),
    least: 0,
};

/// Calls `frame_of`. Its contract says which octets a caller gets.
fn explained(alloc: Global, options: &FrameOptions) -> Result<Vec<u8>, AllocError>
    ensures { IfOk result (λ frame. frame.items ≡ frame_of options.now) }
{
    frame_of(alloc, options)
}

/// Checks that options describe these octets.
fn describes(
    rt: &impl Abort,
    alloc: Global,
    options: &FrameOptions,
    octets: &[u8],
) -> Result<(), Fail> {
    let frame = explained(alloc, options)?;
    assert!(rt; frame.as_slice() == octets);
    Ok(())
}

#[test]
fn options_describe_frames(rt: HostRuntime) -> Result<(), Fail> {
    let alloc = rt.alloc();
    describes(
        &rt,
        alloc,
        &BROADCAST,
        b"\xff\xff\xff\xff\xff\xff\x02\0\0\0\x01\x01\x08\0",
    )?;
    let tagged = FrameOptions {
        service: priority_tag(5),
        customer: customer_tag_of("100:3").ok(),
        ..BROADCAST
    };
    describes(
        &rt,
        alloc,
        &tagged,
        b"\xff\xff\xff\xff\xff\xff\x02\0\0\0\x01\x01\x88\xa8\xa0\0\x81\0\x60\x64\x08\0",
    )?;
    let bpdu = FrameOptions {
        to: Mac([1, 0x80, 0xc2, 0, 0, 0]),
        content: Content::Bpdu,
        least: 23,
        ..BROADCAST
    };
    describes(
        &rt,
        alloc,
        &bpdu,
        b"\x01\x80\xc2\0\0\0\x02\0\0\0\x01\x01\0\x07\x42\x42\x03\0\0\0\x80\0\0",
    )
}

#[test]
fn addresses_have_hyphens_or_colons(rt: HostRuntime) {
    let address = Some(Mac([2, 0, 0xab, 0xcd, 0xef, 9]));
    assert!(&rt; address_of("02-00-ab-CD-eF-09") == address);
    assert!(&rt; address_of("02:00:AB:cd:ef:09") == address);
    for text in [
        "",
        "02-00-ab-cd-ef",
        "02.00.ab.cd.ef.09",
        "02-00-ab-cd-ef-0g",
        "0200abcdef09",
    ] {
        assert!(&rt; address_of(text).is_none());
    }
    assert!(&rt; station_of(128) == Mac([2, 0, 0, 0, 1, 128]));
}

#[test]
fn tags_have_ranges(rt: HostRuntime) {
    assert!(&rt; customer_tag_of("4094:7").is_ok());
    assert!(&rt; customer_tag_of("0").is_ok());
    assert_eq!(&rt; customer_tag_of("4095"), Err(TagTextFault::Vid(4095)));
    assert_eq!(&rt; customer_tag_of("5000:9"), Err(TagTextFault::Vid(5000)));
    assert_eq!(&rt; customer_tag_of("1:8"), Err(TagTextFault::Pcp(8)));
    for text in ["", ":", "1:", ":1", "1:2:3", "0x10", "-1", "4294967296"] {
        assert_eq!(&rt; customer_tag_of(text), Err(TagTextFault::Form));
    }
    assert!(&rt; priority_tag(7).is_some() && priority_tag(8).is_none());
}

#[test]
fn types_have_four_digits(rt: HostRuntime) {
    assert_eq!(&rt; ethertype_of("88cc"), Ok(0x88cc));
    assert_eq!(&rt; ethertype_of("0x88CC"), Ok(0x88cc));
    assert_eq!(&rt; ethertype_of("0600"), Ok(0x0600));
    assert_eq!(&rt; ethertype_of("05ff"), Err(TagTextFault::Length));
    for text in ["", "800", "08000", "080g", "x0800"] {
        assert_eq!(&rt; ethertype_of(text), Err(TagTextFault::Digits));
    }
}
