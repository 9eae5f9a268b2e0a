//! Laws of the streams that ports read.
ghost use Rattle.pb_port.specs.Inputs.{EachIsRead};
ghost use Rattle.pb_port.specs.ReadBack.{SentIsRead};
ghost use Rattle.pb_port.specs.Whole.{HasOneReading};
ghost use Rattle.pb_port.specs.Runs.{RunsReadStreams};
ghost use Rattle.pb_port.specs.Written.{WrittenIsRead};

/// Shows that an input has one reading: its octets alone decide its frames, how many of its records are skipped, and
/// its end or fault.
pub fn streams_have_one_reading()
    ensures { HasOneReading }
{}

/// Shows that each input has a reading, whose frames are those that contracts of ports call the frames in it.
pub fn inputs_have_a_reading()
    ensures { EachIsRead }
{}

/// Shows that the results of successive polls, however the reads are cut, are the reading of the input: its frames in
/// order, its end or fault, and the count of its skipped records, at most the greatest `u64`.
pub fn polls_spell_the_reading()
    ensures { RunsReadStreams }
{}

/// Shows that at least one frame that is written, in a capture or on a socket, is read as the same frames.
pub fn what_is_written_is_read()
    ensures { WrittenIsRead }
{}

/// Shows that what a port wrote to an empty output is read as the frames that it sent. A beginning of the next frame
/// may follow them.
pub fn what_was_sent_is_read()
    ensures { SentIsRead }
{}
