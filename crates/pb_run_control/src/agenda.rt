//! The planned events of one bridge.

ghost use Rattle.std.specs.Prelude.{◌≡◌, ◌==◌, IfOk};
ghost use Rattle.std.specs.List.{filter};
ghost use Rattle.pb_run_control.specs.Agendas.{wish_due};

use pb_frame::Memory;
use pb_service::PortEvent;
use pb_threads::Wish;
use std::alloc::Global;
use std::sync::atomic::{AtomicU64, Ordering};

/// The planned events of one bridge in the order of their ticks, and the count of those that have come.
#[derive(Drop)]
pub(crate) struct Agenda {
    events: Vec<PortEvent>,
    come: AtomicU64,
}

/// Returns the wish of the event after the first `come`, if the bridge's clock has ticked as often as the event says.
fn wish_due(events: &[PortEvent], come: u64, now: u32) -> Option<Wish>
    ensures { result ≡ wish_due events.now come now }
{
    if come >= events.len() as u64 {
        return None;
    }
    let event = events[come as usize];
    if event.at > now {
        return None;
    }
    Some(Wish {
        port: event.port,
        up: event.up,
    })
}

/// Returns the events of a bridge, in the order of all events.
///
/// # Errors
///
/// `Memory` if an allocation failed.
fn events_of(alloc: Global, events: &[PortEvent], bridge: u8) -> Result<Vec<PortEvent>, Memory>
    ensures { IfOk result (λ own. own.items ≡ filter (λ e. e.bridge == bridge) events.now) }
{
    let mut own = Vec::new(alloc);
    for event in events {
        if event.bridge == bridge {
            own.push(*event)?;
        }
    }
    Ok(own)
}

impl Agenda {
    /// Returns the agenda of a bridge from the events of all bridges, which are in the order of their ticks. No event
    /// has come.
    ///
    /// # Errors
    ///
    /// `Memory` if an allocation failed.
    pub(crate) fn of(alloc: Global, events: &[PortEvent], bridge: u8) -> Result<Agenda, Memory> {
        Ok(Agenda {
            events: events_of(alloc, events, bridge)?,
            come: AtomicU64::new(0),
        })
    }

    /// Takes the wish of the next event, if the bridge's clock has ticked often enough. Only the bridge's own worker
    /// calls this.
    pub(crate) fn take(&self, now: u32) -> Option<Wish> {
        let come = self.come.load(Ordering::SeqCst);
        let wish = wish_due(self.events.as_slice(), come, now)?;
        self.come.store(come.saturating_add(1), Ordering::SeqCst);
        Some(wish)
    }

    /// Returns how many events have not come.
    pub(crate) fn left(&self) -> u64 {
        let count = self.events.len() as u64;
        count.saturating_sub(self.come.load(Ordering::SeqCst))
    }
}
