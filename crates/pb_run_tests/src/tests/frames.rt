//! Numbered broadcasts.

use bytes::Bytes;
use pb_frame::Memory;
use std::alloc::Global;
use std::collections::VecDeque;

/// A broadcast from 02-00-00-00-01-01, without what it carries.
const BROADCAST: [u8; 14] = [255, 255, 255, 255, 255, 255, 2, 0, 0, 0, 1, 1, 8, 0];

/// Lists of broadcasts, each of which carries its number in four octets.
#[derive(Clone, Copy)]
pub(super) enum Frames {
    /// This many, numbered from 0 on.
    First(u32),
    /// This many or more, numbered from 0 on.
    Least(u32),
    /// Those of these numbers.
    These(&'static [u32]),
    /// This many, numbered from 0 on, without the one of this number.
    Without(u32, u32),
}

/// Returns the broadcast of a number: 18 octets.
pub(super) fn frame_of(alloc: Global, number: u32) -> Result<Bytes, Memory> {
    let mut octets = Vec::from_slice(alloc, &BROADCAST)?;
    for octet in number.to_be_bytes() {
        octets.push(octet)?;
    }
    Ok(Bytes::copy_from_slice(alloc, octets.as_slice())?)
}

/// Returns a script of this many broadcasts, numbered from 0 on.
pub(super) fn script_of(alloc: Global, count: u32) -> Result<VecDeque<Bytes>, Memory> {
    let mut script = VecDeque::new(alloc);
    for number in 0..count {
        script.push_back(frame_of(alloc, number)?)?;
    }
    Ok(script)
}

/// Checks whether a frame is the broadcast of a number, octet for octet.
fn is_frame(frame: &Bytes, number: u32) -> bool {
    let octets = frame.as_slice();
    octets.len() == 18
        && octets.starts_with(BROADCAST.as_slice())
        && octets.ends_with(number.to_be_bytes().as_slice())
}

/// Checks whether a list is the expected one, octet for octet.
pub(super) fn are_frames(frames: &[Bytes], wanted: Frames) -> bool {
    match wanted {
        Frames::First(count) => {
            frames.len() == count as usize
                && frames
                    .iter()
                    .zip(0..count)
                    .all(|(frame, number)| is_frame(frame, number))
        }
        Frames::Least(count) => {
            frames.len() >= count as usize
                && frames
                    .iter()
                    .zip(0..u32::MAX)
                    .all(|(frame, number)| is_frame(frame, number))
        }
        Frames::Without(count, gap) => {
            frames.len() == (count as usize).saturating_sub(1)
                && frames.iter().zip(0..count).all(|(frame, place)| is_frame(
                    frame,
                    place.saturating_add(u32::from(gap <= place)),
                ))
        }
        Frames::These(numbers) => {
            frames.len() == numbers.len()
                && frames
                    .iter()
                    .zip(numbers)
                    .all(|(frame, number)| is_frame(frame, *number))
        }
    }
}

/// Returns the number of broadcasts in a list, if they are numbered from 0 on.
pub(super) fn count_of(frames: &[Bytes]) -> Option<usize> {
    let count = u32::try_from(frames.len()).ok()?;
    are_frames(frames, Frames::First(count)).then_some(frames.len())
}
