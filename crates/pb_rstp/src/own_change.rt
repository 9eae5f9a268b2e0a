//! The change with which a call begins, and its end without one.

ghost use Rattle.std.specs.Prelude.{◌≡◌};
ghost use Rattle.pb_rstp.specs.Machine.{moved_by, moving, own_change};
ghost use Rattle.pb_rstp.specs.Settling.{befores, nows};

use crate::hearing::receive;
use crate::moving::Moving;
use crate::port::Port;
use crate::setting::set_enabled;
use crate::ticking::tick;
use crate::vector::Vector;
use pb_bpdu::Bpdu;

/// A call's own change, before roles are computed.
#[derive(Clone, Copy)]
pub(crate) enum OwnChange {
    /// The port of this number receives a BPDU. The bridge has this root vector.
    Hearing { root: Vector, port: u8, bpdu: Bpdu },
    /// A second passes.
    Ticking { fwd_delay: u16, hello: bool },
    /// The port of this number is enabled or disabled.
    Setting { port: u8, up: bool },
}

impl OwnChange {
    /// Changes a port.
    fn change(&self, p: &mut Port)
        ensures { p.new ≡ own_change self.now p.old }
    {
        match self {
            OwnChange::Hearing { root, port, bpdu } => receive(root, *port, bpdu, p),
            OwnChange::Ticking { fwd_delay, hello } => tick(*fwd_delay, *hello, p),
            OwnChange::Setting { port, up } => set_enabled(*port, *up, p),
        }
    }

    /// Keeps a port as it was before the call, and changes it.
    fn begin_at(&self, p: &mut Moving)
        ensures { p.exit.now ≡ moving (own_change self.now) p.entry.now.now }
    {
        p.was = p.now;
        self.change(&mut p.now);
    }

    /// Keeps each port as it was before the call, and changes it.
    pub(crate) fn begin(&self, ports: &mut [Moving])
        ensures { ports.new ≡ moved_by (own_change self.now) (nows ports.old) }
    {
        for p in ports.iter_mut() {
            self.begin_at(p);
        }
    }
}

/// Makes a port what it was before the call.
fn undo_at(p: &mut Moving)
    ensures { p.exit.now ≡ record { was = p.entry.now.was; now = p.entry.now.was } }
{
    p.now = p.was;
}

/// Makes each port what it was before the call.
pub(crate) fn undo(ports: &mut [Moving])
    ensures { nows ports.new ≡ befores ports.old }
{
    for p in ports.iter_mut() {
        undo_at(p);
    }
}
