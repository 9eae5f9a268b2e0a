//! The parts of a bridge: its learning table and its services.

use std::test::Fail;

// example of pb_fdb table.rt Fdb::learn
#[test]
fn fdb_learn(rt: HostRuntime) {
    use pb_fdb::{Fdb, Learnt};
    use pb_frame::Mac;

    let station = Mac([2, 0, 0, 0, 0, 1]);
    let mut fdb = Fdb::new(rt.alloc(), 4096, 300);
    assert_eq!(rt; fdb.learn(100, station, 1, 0), Learnt::New);
    assert_eq!(rt; fdb.learn(100, station, 1, 5), Learnt::Kept);
    assert_eq!(rt; fdb.learn(100, station, 2, 9), Learnt::Moved);
}

// example of pb_fdb table.rt Fdb::find
#[test]
fn fdb_find(rt: HostRuntime) {
    use pb_fdb::{Fdb, Learnt};
    use pb_frame::Mac;

    let station = Mac([2, 0, 0, 0, 0, 1]);
    let mut fdb = Fdb::new(rt.alloc(), 4096, 300);
    assert_eq!(rt; fdb.learn(100, station, 1, 0), Learnt::New);
    assert_eq!(rt; fdb.find(100, station, 299), Some(1));
    assert_eq!(rt; fdb.find(100, station, 300), None);
    assert_eq!(rt; fdb.find(200, station, 0), None);
}

// example of pb_svlan services.rt Services::enter
#[test]
fn services_enter(rt: HostRuntime) -> Result<(), Fail> {
    use pb_frame::Reason;
    use pb_svlan::{Entered, Services, Vid};

    let vid = Vid::new(100).ok_or("not a VID")?;
    let mut services = Services::new(rt.alloc());
    let red = services.add(rt.alloc(), "red", vid)?;
    services.join(2, red, 5)?;
    assert!(rt; services.vid_at(2).is_some());
    let frame = b"\xff\xff\xff\xff\xff\xff\x02\0\0\0\0\x01\x08\0AB";
    let (pcp, cut) = (5, false);
    assert_eq!(rt; services.enter(2, frame), Ok(Entered { vid, pcp, cut }));
    assert_eq!(rt; services.enter(2, b"AB"), Err(Reason::Malformed));
    Ok(())
}
