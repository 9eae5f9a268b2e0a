//! Ports over capture files, and the times of their records.

ghost use Rattle.std.specs.Prelude.{◌≡◌, ◌<◌, ◌≤◌, []};

use crate::completing::WrittenFile;
use crate::cut::WriteError;
use crate::input::Input;
use crate::pacing::{PacedInput, unpaced};
use crate::pipe::Pipe;
use crate::sink::Sink;
use crate::system::Output;
use pb_port::{CapturePort, Over, Timescale};
use pb_service::Stamp;
use std::alloc::{AllocError, Global};
use std::sync::Arc;
use std::time::Clock;

/// A port over files of the system: over two captures or over one.
pub(crate) type FilePort = CapturePort<PacedInput, Over<Sink>>;

/// The maximum time of tick 0, in microseconds since 1970.
const LATEST: u64 = 4_611_686_018_427_387_903;

/// Returns the scale of a clock that shows the time of day: tick 0 is now, and each tick has `tick_ms` milliseconds. If
/// the system's clock can't be read, tick 0 is the beginning of 1970.
pub(crate) fn day_scale<R: Clock>(rt: &R, tick_ms: u64) -> Timescale {
    let start = match rt.since_1970() {
        Ok(time) => time
            .as_secs()
            .saturating_mul(1_000_000)
            .saturating_add(u64::from(time.subsec_micros())),
        Err(_) => 0,
    };
    Timescale {
        start: start.min(LATEST),
        tick: (tick_ms.min(60_000) * 1_000) as u32,
    }
}

/// Returns the scale of the time stamps of a capture.
pub(crate) fn scale_of(stamp: Stamp, day: Timescale) -> Timescale {
    match stamp {
        Stamp::Ticks => Timescale::ticks(),
        Stamp::Time => day,
    }
}

/// Parts the two handles of a file that a port writes: that of the port, and that which is kept until the run is over.
/// Both have the error of a write.
///
/// # Errors
///
/// `AllocError` if an allocation failed.
pub(crate) fn parted(alloc: Global, output: Output) -> Result<(Sink, WrittenFile), AllocError> {
    let Output {
        file,
        twin,
        path,
        is_pipe,
        ..
    } = output;
    let error = Arc::new(alloc, WriteError::none())?;
    let noted = Arc::try_clone(&error)?;
    let sink = if is_pipe {
        Sink::Pipe(Pipe::new(file), noted)
    } else {
        Sink::File(file, noted)
    };
    let written = WrittenFile {
        path,
        file: twin,
        error,
    };
    Ok((sink, written))
}

/// Returns a port that reads one capture and writes another, or drops the frames that leave.
pub(crate) fn capture_port(
    alloc: Global,
    capacity: u16,
    scale: Timescale,
    input: PacedInput,
    sink: Sink,
) -> FilePort
    requires { (0 < capacity) × (capacity ≤ 4096) }
    ensures { result.sender.unsent.items ≡ [] }
{
    CapturePort::on_scale(alloc, capacity, scale, input, Over::new(sink))
}

/// Returns a port that writes a capture and that no frame enters.
pub(crate) fn record_port(alloc: Global, capacity: u16, scale: Timescale, sink: Sink) -> FilePort
    requires { (0 < capacity) × (capacity ≤ 4096) }
    ensures { result.sender.unsent.items ≡ [] }
{
    let (input, sink) = (unpaced(Input::Empty), Over::new(sink));
    CapturePort::recording(alloc, capacity, scale, input, sink)
}
