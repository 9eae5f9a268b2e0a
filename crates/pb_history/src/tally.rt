//! The counts of the steps of a place.

ghost use Rattle.std.specs.Prelude.{◌≡◌, ◌≤◌, ◌<◌, ◌*◌, ◌^◌, [], ◌∷◌, ◌++◌, length, flat_map, unwrap_or};
ghost use Rattle.std.specs.List.{count_by, list_any, sum_by};
ghost use Rattle.pb_lan.specs.Shapes.{changed, changes_of};
ghost use Rattle.pb_lan.specs.declared.shape.PortState.{PortState};
ghost use Rattle.pb_history.specs.Draining.{gain, loss};
ghost use Rattle.pb_history.specs.Drops.{is_dropped, goes_nowhere};
ghost use Rattle.pb_history.specs.Late.{changes_late};
ghost use Rattle.pb_history.specs.Losses.{refused_by, dropped_by, unlearnt_by, counts_at, counts_of};
ghost use Rattle.pb_history.specs.Memory.{lacks_memory};
ghost use Rattle.pb_history.specs.Passages.{is_poll, is_departure, is_gone, is_filtered, is_take, is_loss};

use crate::balance::Balance;
use crate::cause_counts::CauseCounts;
use crate::drops::Drops;
use crate::filtered::Filtered;
use crate::lacks::Lacks;
use crate::late::Late;
use crate::loss_counts::LossCounts;
use crate::newest::Newest;
use crate::passages::Passages;
use pb_lan::{PortState, Reason, Step};
use std::alloc::AllocError;
use std::marker::Model;

/// The counts of the steps of a place. It has less than 2,800 octets for any number of steps, and keeps no step.
///
/// Contracts see the list of the steps.
#[derive(Drop)]
pub struct Tally {
    passages: Passages,
    filtered: Filtered,
    newest: Newest,
    balance: Balance,
    losses: LossCounts,
    drops: Drops,
    late: Late,
    lacks: Lacks,
}

impl Model for Tally {
    ghost use Rattle.std.specs.Prelude.{◌≡◌, List};
    ghost use Rattle.pb_lan.specs.declared.step.Step.{Step};

    ghost Value = { List Step };

    ghost view = { λ t. t.passages };

    ghost invariant = { λ t. (t.filtered ≡ t.passages) × (t.newest ≡ t.passages) × (t.balance ≡ t.passages)
        × (t.losses ≡ t.passages) × (t.drops ≡ t.passages) × (t.late ≡ t.passages) × (t.lacks ≡ t.passages) };
}

impl Tally {
    /// Returns the tally of no steps. Allocates nothing.
    pub fn new() -> Tally
        ensures { result ≡ [] }
    {
        Tally {
            passages: Passages::new(),
            filtered: Filtered::new(),
            newest: Newest::new(),
            balance: Balance::new(),
            losses: LossCounts::new(),
            drops: Drops::new(),
            late: Late::new(),
            lacks: Lacks::new(),
        }
    }

    /// Returns the tally of these steps. Allocates nothing. The time is linear in them, which no contract states.
    pub fn of(steps: &[Step]) -> Tally
        ensures { result ≡ steps.now }
    {
        let mut tally = Tally::new();
        for step in steps {
            tally.note(step);
        }
        tally
    }

    /// Returns a copy. Allocates nothing.
    pub fn copied(&self) -> Tally
        ensures { result ≡ self.now }
    {
        Tally {
            passages: self.passages.copied(),
            filtered: self.filtered.copied(),
            newest: self.newest.copied(),
            balance: self.balance.copied(),
            losses: self.losses.copied(),
            drops: self.drops.copied(),
            late: self.late.copied(),
            lacks: self.lacks.copied(),
        }
    }

    /// Records one more step. Allocates nothing.
    #[inline(always)]
    pub fn note(&mut self, step: &Step)
        requires { length self.old < u64.MAX }
        ensures { self.new ≡ self.old ++ step.now ∷ [] }
    {
        self.passages.note(step);
        self.filtered.note(step);
        self.newest.note(step);
        self.balance.note(step);
        self.losses.note(step);
        self.drops.note(step);
        self.late.note(step);
        self.lacks.note(step);
    }

    /// Returns the number of steps.
    #[inline(always)]
    pub fn len(&self) -> u64
        ensures { result ≡ length self.now }
    {
        self.passages.len()
    }

    /// Returns how many frames entered through a customer port.
    pub fn entered(&self) -> u64
        ensures { result ≡ count_by is_poll self.now }
    {
        self.passages.entered()
    }

    /// Returns how many frames left through a customer port.
    pub fn left(&self) -> u64
        ensures { result ≡ count_by is_departure self.now }
    {
        self.passages.left()
    }

    /// Returns how many frames were lost at a customer port that takes no more frames.
    pub fn gone(&self) -> u64
        ensures { result ≡ count_by is_gone self.now }
    {
        self.passages.gone()
    }

    /// Returns how many items a lane took, including those that it lost.
    pub fn taken(&self) -> u64
        ensures { result ≡ count_by is_take self.now }
    {
        self.passages.taken()
    }

    /// Returns how many items a lane lost.
    pub fn lost(&self) -> u64
        ensures { result ≡ count_by is_loss self.now }
    {
        self.passages.lost()
    }

    /// Returns how many frames that a bridge's local port, 1 to 16, received were filtered.
    pub fn filtered(&self, port: u8) -> u64
        requires { port ≤ 16 }
        ensures { result ≡ count_by (is_filtered port) self.now }
    {
        self.filtered.at(port)
    }

    /// Returns how many frames that a bridge's local port, 1 to 16, received were dropped for a reason (IEEE 802.1Q
    /// clause 8.6). The frames to all reserved addresses are counted together, whatever octet the reason names.
    pub fn dropped(&self, port: u8, reason: Reason) -> u64
        requires { port ≤ 16 }
        ensures { result ≡ count_by (is_dropped port reason) self.now }
    {
        self.drops.at(port, reason)
    }

    /// Returns how many frames that a bridge's local port, 1 to 16, received were relayed to no port: there was no
    /// other Forwarding port of their VLAN, or none where their destination is.
    pub fn relayed_nowhere(&self, port: u8) -> u64
        requires { port ≤ 16 }
        ensures { result ≡ count_by (goes_nowhere port) self.now }
    {
        self.drops.nowhere(port)
    }

    /// Returns whether a port of a bridge changed its state after the bridge had received a customer's frame.
    pub fn changed_late(&self) -> bool
        ensures { result ≡ changes_late self.now }
    {
        self.late.is_late()
    }

    /// Returns whether an allocation failed in the course of a step: a frame was dropped, a copy or a BPDU was not
    /// queued, or a source was not learnt for that.
    pub fn lacked_memory(&self) -> bool
        ensures { result ≡ list_any lacks_memory self.now }
    {
        self.lacks.lacked()
    }

    /// Returns the newest state to which a step set a bridge's local port, 1 to 16, or `None` if no step set it.
    pub fn newest_state(&self, port: u8) -> Option<PortState>
        requires { port ≤ 16 }
        ensures { (start : PortState) → unwrap_or result start ≡ changed port start (changes_of self.now) }
    {
        self.newest.at(port)
    }

    /// Returns how many customers' frames the steps add to the network: each that entered, and each copy that a
    /// bridge queued.
    pub fn gained(&self) -> u128
        ensures exact { result ≡ sum_by gain self.now }
        ensures few { result ≤ 16 * 2 ^ 64 }
    {
        self.balance.gained()
    }

    /// Returns how many customers' frames the steps remove from the network: each that a bridge received, and each
    /// that was delivered or lost.
    pub fn parted(&self) -> u128
        ensures exact { result ≡ sum_by loss self.now }
        ensures few { result ≤ 2 ^ 64 }
    {
        self.balance.parted()
    }

    /// Returns how many copies of relayed frames were not queued at a bridge's local port, 1 to 16, by cause (IEEE
    /// 802.1Q clauses 8.6.6 and 8.6.7).
    pub fn copies_not_queued(&self, port: u8) -> CauseCounts
        requires { port ≤ 16 }
        ensures { result ≡ counts_at port (flat_map refused_by self.now) }
    {
        self.losses.copies(port)
    }

    /// Returns how many BPDUs of a bridge's own were not queued at its local port, 1 to 16, by cause.
    pub fn bpdus_not_queued(&self, port: u8) -> CauseCounts
        requires { port ≤ 16 }
        ensures { result ≡ counts_at port (flat_map dropped_by self.now) }
    {
        self.losses.bpdus(port)
    }

    /// Returns for how many sources a bridge's learning table got no entry, by cause (IEEE 802.1Q clause 8.8).
    pub fn sources_not_learnt(&self) -> CauseCounts
        ensures { result ≡ counts_of (flat_map unlearnt_by self.now) }
    {
        self.losses.sources()
    }
}

/// The copy is equal.
impl Clone for Tally {
    ghost is_clone = { λ tally copy. copy ≡ tally };

    fn clone(&self) -> Result<Tally, AllocError> {
        Ok(self.copied())
    }
}
