//! Service tags and BPDUs.

use std::test::Fail;

// example of pb_frame service_tag.rt push_s
#[test]
fn frame_push_s(rt: HostRuntime) -> Result<(), Fail> {
    use bytes::Bytes;
    use pb_frame::{Tci, push_s};

    let tci = Tci {
        pcp: 5,
        dei: 0,
        vid: 100,
    };
    let frame = Bytes::from_static(b"\xff\xff\xff\xff\xff\xff\x02\0\0\0\0\x01\x08\0AB");
    let tagged = push_s(rt.alloc(), &frame, tci)?;
    let wanted = b"\xff\xff\xff\xff\xff\xff\x02\0\0\0\0\x01\x88\xa8\xa0\x64\x08\0AB";
    assert_eq!(rt; tagged.as_slice(), wanted.as_slice());
    Ok(())
}

// example of pb_frame service_tag.rt pop_s
#[test]
fn frame_pop_s(rt: HostRuntime) -> Result<(), Fail> {
    use bytes::Bytes;
    use pb_frame::pop_s;

    let tagged = b"\xff\xff\xff\xff\xff\xff\x02\0\0\0\0\x01\x88\xa8\xa0\x64\x08\0AB";
    let frame = b"\xff\xff\xff\xff\xff\xff\x02\0\0\0\0\x01\x08\0AB";
    let (tci, untagged) = pop_s(rt.alloc(), &Bytes::from_static(tagged))?;
    assert_eq!(rt; (tci.pcp, tci.dei, tci.vid), (5, 0, 100));
    assert_eq!(rt; untagged.as_slice(), frame.as_slice());
    Ok(())
}

// example of pb_bpdu reading.rt read
// example of pb_bpdu writing.rt write
#[test]
fn bpdu_read_and_write(rt: HostRuntime) -> Result<(), Fail> {
    use pb_bpdu::{read, write};
    use pb_frame::Mac;

    // Bridge 8000.02-00-00-00-00-01 proposes itself as the root.
    let frame = b"\x01\x80\xc2\0\0\x08\x02\0\0\0\0\x01\0\x27\x42\x42\x03\0\0\x02\x02\x0e\
        \x80\0\x02\0\0\0\0\x01\0\0\0\0\x80\0\x02\0\0\0\0\x01\x80\x01\0\0\x14\0\x02\0\x0f\0\0";
    let bpdu = read(frame)?;
    assert!(rt; bpdu.proposal && !bpdu.agreement);
    assert_eq!(rt; (bpdu.root, bpdu.cost), (0x8000_0200_0000_0001, 0));
    let written = write(rt.alloc(), Mac([2, 0, 0, 0, 0, 1]), &bpdu)?;
    assert_eq!(rt; written.as_slice(), frame.as_slice());
    Ok(())
}
