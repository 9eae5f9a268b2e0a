//! Memory of frames that were given, for those that follow.

ghost use Rattle.std.specs.Prelude.{◌≡◌, [], IfOk, IfSome};

use bytes::{Bytes, BytesMut};
use std::alloc::{AllocError, Global};
use std::collections::VecDeque;

/// The most frames whose memory is used again.
const MOST: usize = 1_024;

/// The most octets of such a frame, so that the memory stays small.
const LARGEST: usize = 2_048;

/// Frames that were given, and whose memory is used again once nobody else has them. So the thread that makes frames
/// also gives their memory back, and no other thread waits for it.
#[derive(Drop)]
pub(crate) struct Spares {
    alloc: Global,
    given: VecDeque<Bytes>,
}

impl Spares {
    /// Returns a store without frames. Allocates nothing.
    pub(crate) fn new(alloc: Global) -> Spares {
        Spares {
            alloc,
            given: VecDeque::new(alloc),
        }
    }

    /// Returns a frame of these octets, in memory of an older frame if there is some that is large enough.
    ///
    /// # Errors
    ///
    /// `AllocError` if an allocation failed.
    pub(crate) fn copy_of(&mut self, octets: &[u8]) -> Result<Bytes, AllocError>
        ensures { IfOk result (λ frame. frame ≡ octets.now) }
    {
        let frame = match self.spare() {
            Some(block) => filled(self.alloc, block, octets)?,
            None => Bytes::copy_from_slice(self.alloc, octets)?,
        };
        self.keep(&frame);
        Ok(frame)
    }

    /// Returns the memory of the frame that was given first, if the store is full and nobody else has that frame.
    /// Otherwise that frame becomes the last one.
    fn spare(&mut self) -> Option<BytesMut>
        ensures { IfSome result (λ block. block.items ≡ []) }
    {
        if self.given.len() < MOST {
            return None;
        }
        match self.given.pop_front()?.try_into_mut() {
            Ok(mut block) => {
                block.clear();
                Some(block)
            }
            Err(frame) => {
                let _ = self.given.push_back(frame);
                None
            }
        }
    }

    /// Keeps a frame that is given, if the store is not full and the frame has 1 to 2,048 octets.
    fn keep(&mut self, frame: &Bytes) {
        if self.given.len() >= MOST || frame.is_empty() || frame.len() > LARGEST {
            return;
        }
        if let Ok(frame) = frame.clone() {
            let _ = self.given.push_back(frame);
        }
    }
}

/// Returns a frame of these octets in a block without octets, if that has the space, and otherwise in a new one.
///
/// # Errors
///
/// `AllocError` if an allocation failed.
fn filled(alloc: Global, block: BytesMut, octets: &[u8]) -> Result<Bytes, AllocError>
    requires { block.items ≡ [] }
    ensures { IfOk result (λ frame. frame ≡ octets.now) }
{
    if block.capacity() < octets.len() {
        return Bytes::copy_from_slice(alloc, octets);
    }
    let mut block = block;
    block.extend_reserved(octets);
    match block.freeze() {
        Ok(frame) => Ok(frame),
        Err(_) => Err(AllocError),
    }
}
