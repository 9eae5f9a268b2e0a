//! Copies a capture frame by frame through a port, for `bench/ports.sh`. `pb_bench_ports IN OUT` reads the capture IN,
//! writes its frames to the capture OUT, begun at second 0, and prints how many they are. The exit status is 1 if a
//! file can't be opened, a fault ends the reading or the writing, or an allocation failed.
#![tactic(auto)]

ghost use Rattle.std.specs.Prelude.{◌<◌, length};

use anyhow::{Context, Result, bail, ensure};
use bytes::Bytes;
use pb_port::{CapturePort, Offered, Over, Polled, Port, Pumped};
use std::env;
use std::fs::File;

/// The number of frames that wait before they are written.
const CAPACITY: u16 = 4_096;

/// Reads the arguments, copies the capture, and prints how many frames it has.
fn main(rt: HostRuntime) -> Result<()> {
    let mut words = env::args(&rt)?;
    let (Some(_), Some(input), Some(output)) = (words.next(), words.next(), words.next()) else {
        bail!("usage: pb_bench_ports IN OUT");
    };
    let reader = Over::new(File::open(&rt, input.as_str()).context("opening IN")?);
    let writer = Over::new(File::create(&rt, output.as_str()).context("making OUT")?);
    let mut port = CapturePort::new(rt.alloc(), CAPACITY, reader, writer);
    let count = copy(&mut port)?;
    println!(rt; "{count} frames")?;
    Ok(())
}

/// Copies each frame that comes, up to the end. Returns how many came.
///
/// # Errors
///
/// A message if the input or the output has a fault, or an allocation failed.
fn copy<P: Port>(port: &mut P) -> Result<u64> {
    let mut count: u64 = 0;
    for polls in 0..u64::MAX {
        match port.poll() {
            Polled::Frame(frame) => {
                ensure!(frame.len() < 65_536, "a frame of more than 65,535 octets");
                send(port, &frame)?;
                count += 1;
            }
            Polled::Nothing => {}
            Polled::End => {
                drain(port)?;
                return Ok(count);
            }
            Polled::Fault(fault) => bail!("fault {} of the input", fault.number()),
        }
    }
    bail!("too many polls")
}

/// Offers a frame. If the port is full, the frames that wait are written first.
///
/// # Errors
///
/// A message if the output has a fault, or an allocation failed.
fn send<P: Port>(port: &mut P, frame: &Bytes) -> Result<()>
    requires { length frame.now < 65536 }
{
    match port.offer(frame) {
        Offered::Taken => return Ok(()),
        Offered::Full => drain(port)?,
        Offered::Gone => bail!("a write failed"),
        Offered::Memory => bail!("no memory for a frame"),
    }
    match port.offer(frame) {
        Offered::Taken => Ok(()),
        _ => bail!("no room for a frame"),
    }
}

/// Writes the frames that wait.
///
/// # Errors
///
/// A message if the output has a fault.
fn drain<P: Port>(port: &mut P) -> Result<()> {
    for pumps in 0..u64::MAX {
        if port.unsent().is_empty() {
            return Ok(());
        }
        match port.pump(0) {
            Pumped::Wrote(_) | Pumped::Nothing => {}
            Pumped::Fault(fault) => bail!("fault {} of the output", fault.number()),
        }
    }
    bail!("too many pumps")
}
