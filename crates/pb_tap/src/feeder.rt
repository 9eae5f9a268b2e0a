//! The end of a ring by which a lane sends its frames to the tape of the lane back.

ghost use Rattle.std.specs.Prelude.{◌≡◌, ◌<◌, ◌++◌, ◌∷◌, [], ◌↔◌, IsTrue};
ghost use Rattle.rtrb.specs.Ring.{sent, known_free};

use bytes::Bytes;
use rtrb::Producer;

/// The end of a ring by which a lane sends its frames to the tape of the lane back.
#[derive(Drop)]
pub struct Feeder {
    /// The sending end.
    pub to: Producer<Bytes>,
}

impl Feeder {
    /// Checks whether the ring has space for one more frame. The tape may free space at any time.
    pub(crate) fn has_room(&mut self) -> bool
        ensures room { IsTrue result ↔ (0 < known_free self.new.to) }
        ensures sent { sent self.new.to ≡ sent self.old.to }
    {
        !self.to.is_full()
    }

    /// Checks whether the ring is known to have space for one more frame. Until it has, nothing tells the lane when to
    /// go on.
    pub(crate) fn may_sleep(&self) -> bool {
        self.to.cached_slots() > 0
    }

    /// Sends a frame, for which the ring has space. Allocates nothing.
    pub(crate) fn accept(&mut self, wire: Bytes)
        requires { 0 < known_free self.old.to }
        ensures { sent self.new.to ≡ sent self.old.to ++ wire ∷ [] }
    {
        self.to.push_reserved(wire);
    }
}
