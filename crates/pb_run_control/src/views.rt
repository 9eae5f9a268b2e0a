//! The views of a bridge's ports while it runs.

ghost use Rattle.std.specs.Prelude.{◌≤◌};

use pb_lan::PortState;
use pb_rstp::Role;
use pb_threads::PortView;
use std::alloc::{AllocError, Global};
use std::sync::atomic::{AtomicU64, Ordering};

/// The number of local ports of a bridge.
const PORTS: usize = 16;

/// The number of ticks without a change after which a bridge may seem to have converged: two hello times (IEEE
/// 802.1D-2004 table 17-1).
const QUIET: u64 = 4;

/// The views of a bridge's ports, as its worker shows them.
#[derive(Drop)]
pub(crate) struct Views {
    /// The view of each local port as a number, 0 if none was shown.
    ports: Vec<AtomicU64>,
    /// The ticks at which a port last showed a changed view.
    stirred: AtomicU64,
}

/// Returns the number of a role, from 0 to 5.
fn role_code(role: Option<Role>) -> u64
    ensures { result ≤ 5 }
{
    match role {
        None => 0,
        Some(Role::Disabled) => 1,
        Some(Role::Root) => 2,
        Some(Role::Designated) => 3,
        Some(Role::Alternate) => 4,
        Some(Role::Backup) => 5,
    }
}

/// Returns the role with this number.
fn role_of(code: u64) -> Option<Role> {
    match code {
        1 => Some(Role::Disabled),
        2 => Some(Role::Root),
        3 => Some(Role::Designated),
        4 => Some(Role::Alternate),
        5 => Some(Role::Backup),
        _ => None,
    }
}

/// Returns the number of a state, from 1 to 3.
fn state_code(state: PortState) -> u64
    ensures { result ≤ 3 }
{
    match state {
        PortState::Discarding => 1,
        PortState::Learning => 2,
        PortState::Forwarding => 3,
    }
}

/// Returns the view with this number, if there is one.
fn view_of(code: u64) -> Option<PortView> {
    let state = match code % 4 {
        1 => PortState::Discarding,
        2 => PortState::Learning,
        3 => PortState::Forwarding,
        _ => return None,
    };
    Some(PortView {
        role: role_of(code / 4),
        state,
    })
}

/// Checks whether the port has the state of its role, which it keeps while nothing changes (IEEE 802.1D-2004 clause
/// 17.10).
fn is_at_rest(view: PortView) -> bool {
    match view.role {
        None => true,
        Some(Role::Root | Role::Designated) => view.state == PortState::Forwarding,
        Some(Role::Disabled | Role::Alternate | Role::Backup) => {
            view.state == PortState::Discarding
        }
    }
}

impl Views {
    /// Returns the views of a bridge that has shown none.
    ///
    /// # Errors
    ///
    /// `AllocError` if an allocation failed.
    pub(crate) fn new(alloc: Global) -> Result<Views, AllocError> {
        let mut ports = Vec::with_capacity(alloc, PORTS)?;
        for _ in 0..PORTS {
            ports.push(AtomicU64::new(0))?;
        }
        Ok(Views {
            ports,
            stirred: AtomicU64::new(0),
        })
    }

    /// Records the view of the local port of this number, from 1, after `ticks` ticks. Only the bridge's own worker
    /// calls this.
    pub(crate) fn show(&self, port: u8, view: PortView, ticks: u64) {
        if let Some(kept) = self.ports.get(usize::from(port).wrapping_sub(1)) {
            let code = 4 * role_code(view.role) + state_code(view.state);
            if kept.swap(code, Ordering::SeqCst) != code {
                self.stirred.store(ticks, Ordering::SeqCst);
            }
        }
    }

    /// Returns the view of the port at this index, from 0.
    fn at(&self, place: usize) -> Option<PortView> {
        view_of(self.ports.get(place)?.load(Ordering::SeqCst))
    }

    /// Returns the views of the local ports, `None` for one that was not shown.
    pub(crate) fn all(&self) -> [Option<PortView>; 16] {
        let mut views = [None; 16];
        for place in 0..PORTS {
            views[place] = self.at(place);
        }
        views
    }

    /// Checks whether the bridge seems to have converged after `ticks` ticks: each port has the state of its role, and
    /// none has changed for two hello times.
    pub(crate) fn are_quiet(&self, ticks: u64) -> bool {
        if ticks < self.stirred.load(Ordering::SeqCst).saturating_add(QUIET) {
            return false;
        }
        for view in self.all() {
            if let Some(view) = view {
                if !is_at_rest(view) {
                    return false;
                }
            }
        }
        true
    }
}
