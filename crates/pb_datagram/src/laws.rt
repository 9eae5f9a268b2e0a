//! Laws of the datagrams that ports send and receive.
ghost use Rattle.pb_datagram.specs.Laws.{WrittenIsRead, HasOneFrame, IsRefusedOrCarried};

/// Shows that the datagram which is sent of a frame carries this frame, if the frame has an Ethernet header.
pub fn what_is_written_is_read()
    ensures { WrittenIsRead }
{}

/// Shows that a datagram carries one frame at most, and none if it is refused.
pub fn datagrams_carry_one_frame()
    ensures one { HasOneFrame }
    ensures refused { IsRefusedOrCarried }
{}
