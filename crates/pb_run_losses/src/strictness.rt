//! Whether a run with losses has an exit status of its own.

ghost use Rattle.std.specs.Prelude.{◌≡◌};
ghost use Rattle.pb_run_losses.specs.Strict.{exit_status};

/// The exit status of a strict run that had losses but no fault.
const LOST: u8 = 4;

/// Whether a run with losses has an exit status of its own.
#[derive(Clone, Copy, PartialEq, Eq, Debug)]
pub enum Strictness {
    /// The status is 0 if no fault is reported.
    Lenient,
    /// The status is 4 in place of 0 if a queue or a learning table was full, an allocation for either failed, a
    /// dropped frame was lost, a frame could not be written, the run did not end drained, or the bridges have not
    /// converged.
    Strict,
}

/// Returns the exit status of a run from the status of its report and whether the run was whole.
pub fn exit_status(strictness: Strictness, is_whole: bool, status: u8) -> u8
    ensures { result ≡ exit_status strictness is_whole status }
{
    match strictness {
        Strictness::Strict if !is_whole && status == 0 => LOST,
        _ => status,
    }
}
