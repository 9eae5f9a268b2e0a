//! Limits that a network reaches, and whether it had the memory that it asked for.

ghost use Rattle.std.specs.Prelude.{◌≡◌, ◌≢◌, true, IfOk};
ghost use Rattle.pb_converge.specs.Enough.{HasEnoughMemory};

use crate::fault::DriveFault;
use crate::nets::copied;
use pb_frame::Memory;
use pb_net::{Net, Tallies};

/// Returns the counts of a network's steps.
///
/// # Errors
///
/// `Memory` if an allocation failed.
fn tallies_of(net: &Net) -> Result<Tallies, Memory>
    ensures { IfOk result (λ tallies. tallies ≡ net.now.rec) }
{
    copied(net)?.tallies()
}

/// Checks whether no allocation failed in the steps of a network's bridges. Returns false also if its counts can't be
/// copied.
fn had_memory(net: &Net) -> bool
    ensures { result ≡ true → HasEnoughMemory net.now.rec }
{
    match tallies_of(net) {
        Ok(tallies) => !tallies.lacked_memory(),
        Err(_) => false,
    }
}

/// Returns the fault of a network that is at a limit: this fault, or `Memory` if an allocation failed in one of its
/// steps, or now. With enough memory it might not have reached the limit.
pub fn fault_in(net: &Net, fault: DriveFault) -> DriveFault
    ensures fault { result ≢ DriveFault.Memory → result ≡ fault }
    ensures enough { result ≢ DriveFault.Memory → HasEnoughMemory net.now.rec }
{
    if had_memory(net) {
        fault
    } else {
        DriveFault::Memory
    }
}
