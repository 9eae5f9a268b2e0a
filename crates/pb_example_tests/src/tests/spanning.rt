//! The spanning tree of one bridge.

use std::test::Fail;

// example of pb_rstp rstp.rt Rstp::new
#[test]
fn rstp_new(rt: HostRuntime) -> Result<(), Fail> {
    use pb_frame::{Mac, Seq};
    use pb_rstp::{Config, Role, Rstp, RstpPort};

    let port = RstpPort {
        port: 1,
        cost: 20_000,
        priority: 128,
    };
    let config = Config {
        address: Mac([2, 0, 0, 0, 0, 1]),
        priority: 32_768,
        ports: Seq::from_vec(Vec::from_slice(rt.alloc(), &[port])?),
    };
    let bridge = Rstp::new(rt.alloc(), config)?;
    assert_eq!(rt; bridge.root().root, 0x8000_0200_0000_0001);
    assert_eq!(rt; bridge.roles(), [(1, Role::Designated)].as_slice());
    Ok(())
}

// example of pb_rstp calls.rt Rstp::hear
#[test]
fn rstp_hear(rt: HostRuntime) -> Result<(), Fail> {
    use pb_bpdu::read;
    use pb_frame::{Mac, Seq};
    use pb_lan::PortState;
    use pb_rstp::{Config, Role, Rstp, RstpPort};

    let port = RstpPort {
        port: 1,
        cost: 20_000,
        priority: 128,
    };
    let config = Config {
        address: Mac([2, 0, 0, 0, 0, 2]),
        priority: 32_768,
        ports: Seq::from_vec(Vec::from_slice(rt.alloc(), &[port])?),
    };
    // Bridge 8000.02-00-00-00-00-01 proposes itself as the root.
    let proposal = read(
        b"\x01\x80\xc2\0\0\x08\x02\0\0\0\0\x01\0\x27\x42\x42\x03\0\0\x02\x02\x0e\
        \x80\0\x02\0\0\0\0\x01\0\0\0\0\x80\0\x02\0\0\0\0\x01\x80\x01\0\0\x14\0\x02\0\x0f\0\0",
    )?;
    let mut bridge = Rstp::new(rt.alloc(), config)?;
    let change = bridge.hear(1, &proposal)?;
    assert_eq!(rt; bridge.roles(), [(1, Role::Root)].as_slice());
    assert_eq!(rt; bridge.states(), [(1, PortState::Forwarding)].as_slice());
    assert_eq!(rt; change.send.len(), 1);
    Ok(())
}

// example of pb_rstp calls.rt Rstp::tick
#[test]
fn rstp_tick(rt: HostRuntime) -> Result<(), Fail> {
    use pb_frame::{Mac, Seq};
    use pb_lan::PortState;
    use pb_rstp::{Config, Rstp, RstpPort};

    let port = RstpPort {
        port: 1,
        cost: 20_000,
        priority: 128,
    };
    let config = Config {
        address: Mac([2, 0, 0, 0, 0, 1]),
        priority: 32_768,
        ports: Seq::from_vec(Vec::from_slice(rt.alloc(), &[port])?),
    };
    let mut bridge = Rstp::new(rt.alloc(), config)?;
    // Forward Delay is 15 seconds.
    for _ in 0..15u8 {
        let _ = bridge.tick()?;
    }
    assert_eq!(rt; bridge.states(), [(1, PortState::Learning)].as_slice());
    Ok(())
}
