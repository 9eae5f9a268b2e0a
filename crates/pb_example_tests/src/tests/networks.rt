//! One bridge, and a network in one thread.

use std::test::Fail;

// example of pb_relay start.rt Bridge::new
#[test]
fn bridge_new(rt: HostRuntime) -> Result<(), Fail> {
    use pb_lan::PortState;
    use pb_relay::Bridge;
    use pb_service::read_plan;

    let file = b"
        bridge = [{ name = 'B1', address = '02-00-00-00-00-01' }]
        service = [{ name = 'red', vid = 100 }]
        port = [{ name = 'C1', bridge = 'B1', port = 1, service = 'red' }]";
    let (plan, _) = read_plan(rt.alloc(), file)?;
    assert_eq!(rt; plan.bridges.len(), 1);
    let bridge = Bridge::new(rt.alloc(), &plan, 1)?;
    assert_eq!(rt; bridge.shape()[0], PortState::Forwarding);
    assert_eq!(rt; bridge.shape()[1], PortState::Discarding);
    Ok(())
}

// example of pb_relay receive.rt Bridge::receive
#[test]
fn bridge_receive(rt: HostRuntime) -> Result<(), Fail> {
    use bytes::Bytes;
    use pb_lan::{Item, Outcome, PortSet, Refusals};
    use pb_relay::Bridge;
    use pb_service::read_plan;

    let chosen = PortSet::from_slice(&[2]).ok_or("not local ports")?;
    let file = b"
        bridge = [{ name = 'B1', address = '02-00-00-00-00-01' }]
        service = [{ name = 'red', vid = 100 }]
        port = [
            { name = 'C1', bridge = 'B1', port = 1, service = 'red' },
            { name = 'C2', bridge = 'B1', port = 2, service = 'red' },
        ]";
    let (plan, _) = read_plan(rt.alloc(), file)?;
    assert_eq!(rt; plan.bridges.len(), 1);
    let mut bridge = Bridge::new(rt.alloc(), &plan, 1)?;
    assert!(rt; bridge.has_port(1));
    let wire = Bytes::from_static(b"\xff\xff\xff\xff\xff\xff\x02\0\0\0\0\x01\x08\0");
    let (mark, hops, refused) = (None, 0, Refusals::new());
    let outcome = bridge.receive(1, Item { mark, hops, wire });
    assert_eq!(rt; outcome, Ok(Outcome::Relayed { chosen, refused }));
    Ok(())
}

// example of pb_relay changes.rt Bridge::tick
#[test]
fn bridge_tick(rt: HostRuntime) -> Result<(), Fail> {
    use pb_lan::Step;
    use pb_relay::Bridge;
    use pb_service::read_plan;

    let file = b"bridge = [{ name = 'B1', address = '02-00-00-00-00-01' }]";
    let (plan, _) = read_plan(rt.alloc(), file)?;
    assert_eq!(rt; plan.bridges.len(), 1);
    let mut bridge = Bridge::new(rt.alloc(), &plan, 1)?;
    assert_eq!(rt; bridge.tick(), Ok(()));
    assert!(rt; matches!(bridge.steps(), [Step::Tick { now: 1, .. }]));
    Ok(())
}

// example of pb_net start.rt Net::new
#[test]
fn net_new(rt: HostRuntime) -> Result<(), Fail> {
    use pb_lan::Place;
    use pb_net::Net;
    use pb_service::read_plan;

    let file = b"bridge = [{ name = 'B1', address = '02-00-00-00-00-01' }]";
    let (plan, _) = read_plan(rt.alloc(), file)?;
    let net = Net::new(rt.alloc(), plan)?;
    assert!(rt; net.has_place(Place::Bridge(1)));
    assert!(rt; !net.has_place(Place::Bridge(2)));
    Ok(())
}

// example of pb_net net.rt Net::step
#[test]
fn net_step(rt: HostRuntime) -> Result<(), Fail> {
    use bytes::Bytes;
    use pb_lan::Place;
    use pb_net::{Did, Event, Net, NetFault};
    use pb_service::read_plan;

    let file = b"
        bridge = [{ name = 'B1', address = '02-00-00-00-00-01' }]
        service = [{ name = 'red', vid = 100 }]
        port = [{ name = 'C1', bridge = 'B1', port = 1, service = 'red' }]";
    let (plan, _) = read_plan(rt.alloc(), file)?;
    let mut net = Net::new(rt.alloc(), plan)?;
    let frame = Bytes::from_static(b"\xff\xff\xff\xff\xff\xff\x02\0\0\0\0\x01\x08\0");
    let done = Ok(Did::Done(Place::Customer(1)));
    assert_eq!(rt; net.step(Event::Poll { port: 1, frame }), done);
    assert_eq!(rt; net.step(Event::Feed { port: 1 }), done);
    // The frame is at the bridge, and the customer port has no other.
    assert_eq!(rt; net.step(Event::Feed { port: 1 }), Ok(Did::Idle));
    assert_eq!(rt; net.step(Event::Feed { port: 2 }), Err(NetFault::NoSuch));
    Ok(())
}
