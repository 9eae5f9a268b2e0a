//! What a lane has for each file that records it.

ghost use Rattle.std.specs.Prelude.{◌≡◌, ◌++◌, true, IfOk, option_to_list};
ghost use Rattle.pb_tap.specs.Taps.{own_of, HasRoom, IsPrepared};

use crate::feeder::Feeder;
use crate::tape::Tape;
use bytes::Bytes;
use pb_frame::Memory;
use pb_port::Port;

/// Where the frames of a lane are recorded.
#[derive(Drop)]
pub enum Recorder<P> {
    /// On a tape of the lane's own.
    Tape(Tape<P>),
    /// On the tape of the lane back.
    Feeder(Feeder),
}

/// What a lane has for a file that records it.
#[derive(Drop)]
pub struct Tap<P> {
    /// Where the frames are recorded.
    pub recorder: Recorder<P>,
    /// A copy of the next frame.
    ready: Option<Bytes>,
}

impl<P> Tap<P> {
    /// Returns the tap of a tape or a feeder.
    pub fn new(recorder: Recorder<P>) -> Tap<P>
        ensures { result.recorder ≡ recorder }
    {
        Tap {
            recorder,
            ready: None,
        }
    }

    /// Checks whether the recorder has space for one more frame.
    fn has_room(&mut self) -> bool
        ensures room { result ≡ true → HasRoom self.new.recorder }
        ensures own { own_of self.new.recorder ≡ own_of self.old.recorder }
    {
        match &mut self.recorder {
            Recorder::Tape(tape) => tape.has_room(),
            Recorder::Feeder(feeder) => feeder.has_room(),
        }
    }

    /// Keeps a copy of the next frame, if the recorder has space for it. Returns whether it does. The copy shares the
    /// octets.
    ///
    /// # Errors
    ///
    /// `Memory` if the allocation failed.
    pub fn prepare(&mut self, wire: &Bytes) -> Result<bool, Memory>
        ensures ready { IfOk result (λ is_ready. is_ready ≡ true → IsPrepared wire.now self.new) }
        ensures own { own_of self.new.recorder ≡ own_of self.old.recorder }
    {
        if !self.has_room() {
            return Ok(false);
        }
        self.ready = Some(wire.clone()?);
        Ok(true)
    }

    /// Records the frame of which there is a copy. Allocates nothing.
    pub fn commit(&mut self)
        requires { HasRoom self.old.recorder }
        ensures { own_of self.new.recorder ≡ own_of self.old.recorder ++ option_to_list self.old.ready }
    {
        let Some(wire) = self.ready.take() else {
            return;
        };
        match &mut self.recorder {
            Recorder::Tape(tape) => tape.accept(wire),
            Recorder::Feeder(feeder) => feeder.accept(wire),
        }
    }
}

impl<P: Port> Tap<P> {
    /// Passes frames to the port of a tape, as [`Tape::record`] does.
    ///
    /// # Errors
    ///
    /// `Memory` if an allocation failed. The next call goes on.
    pub fn record(&mut self, now: u32, is_idle: bool) -> Result<bool, Memory>
        ensures { own_of self.new.recorder ≡ own_of self.old.recorder }
    {
        match &mut self.recorder {
            Recorder::Tape(tape) => tape.record(now, is_idle),
            Recorder::Feeder(_) => Ok(false),
        }
    }

    /// Checks whether it has space for a frame, nothing waits in it, and nothing can come to it over a ring.
    pub fn may_sleep(&self) -> bool {
        match &self.recorder {
            Recorder::Tape(tape) => tape.may_sleep(),
            Recorder::Feeder(feeder) => feeder.may_sleep(),
        }
    }
}
