//! A port over a stream that reports its octets.

ghost use Rattle.std.specs.Prelude.{Some, true};

use bytes::Bytes;
use pb_port::{Device, Got, LengthField, Offered, Polled, Port, Pumped, SocketPort};
use std::collections::VecDeque;
use std::io::{Read, Write};
use std::test::Fail;

/// A stream whose reads and writes do not affect each other.
#[derive(Drop)]
struct Wire {
    input: VecDeque<u8>,
    output: VecDeque<u8>,
}

impl Device for Wire {
    ghost unread = { λ w. Some w.input.items };

    ghost written = { λ w. Some w.output.items };

    ghost is_duplex = { true };

    ghost failed = { λ w. 0 };

    fn read(&mut self, buf: &mut [u8]) -> Got {
        match self.input.read(buf) {
            Ok(count) => Got::Moved(count),
            Err(_) => Got::Wait,
        }
    }

    fn write(&mut self, buf: &[u8]) -> Got {
        match self.output.write(buf) {
            Ok(count) => Got::Moved(count),
            Err(_) => Got::Wait,
        }
    }

    fn failures(&self) -> u64 {
        0
    }
}

#[test]
fn a_stream_that_reports_its_octets_is_read_and_written(rt: HostRuntime) -> Result<(), Fail> {
    let alloc = rt.alloc();
    let mut input = VecDeque::new(alloc);
    input.write_all(&[0, 1, 7, 0, 2, 8, 9])?;
    let output = VecDeque::new(alloc);
    let mut port = SocketPort::new(alloc, 4, LengthField::Two, Wire { input, output });
    assert!(rt; matches!(port.poll(), Polled::Frame(frame) if frame.len() == 1));
    let frame = Bytes::copy_from_slice(alloc, &[5])?;
    assert_eq!(rt; port.offer(&frame), Offered::Taken);
    assert_eq!(rt; port.pump(0), Pumped::Wrote(1));
    assert!(rt; matches!(port.poll(), Polled::Frame(frame) if frame.len() == 2));
    assert!(rt; matches!(port.poll(), Polled::End));
    Ok(())
}
