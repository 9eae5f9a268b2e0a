//! A law of runs between captures.
ghost use Rattle.pb_run.specs.Captures.{RunsCarryCaptures};

/// Shows that the capture that comes out of a port is read as the frames that left there, and that the frames that
/// entered there are those in the capture that went in, if the devices of the port report their octets.
///
/// The frames that wait are left out of the one, and those that are not read yet out of the other.
pub fn runs_carry_captures()
    ensures { RunsCarryCaptures }
{}
