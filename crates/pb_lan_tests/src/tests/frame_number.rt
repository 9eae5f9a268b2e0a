//! Numbers of frames.

use pb_lan::FrameNumber;
use std::process::Abort;

const NUMBERS: &[u64] = &[0, 1, 255, 256, u64::MAX];

/// Checks whether the frame number of a number is that number, and equal to another one of it.
fn is_its_number(number: u64) -> bool {
    FrameNumber::new(number).get() == number && FrameNumber::new(number) == FrameNumber::new(number)
}

#[test]
fn a_frame_number_is_its_number(rt: HostRuntime) {
    for number in NUMBERS {
        assert!(rt; is_its_number(*number), "{number}");
    }
    assert!(rt; FrameNumber::new(1) != FrameNumber::new(256));
}
