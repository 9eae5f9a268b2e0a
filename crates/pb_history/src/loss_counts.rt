//! Counts of what a bridge lost.

ghost use Rattle.std.specs.Prelude.{◌≡◌, ◌≤◌, ◌<◌, ◌+◌, ◌*◌, ◌^◌, ◌++◌, ◌∷◌, [], length, flat_map};
ghost use Rattle.pb_history.specs.Losses.{refused_by, dropped_by, unlearnt_by, counts_at, counts_of};

use crate::cause_counts::CauseCounts;
use crate::port_counts::PortCounts;
use crate::source_counts::SourceCounts;
use pb_frame::Learnt;
use pb_lan::{NoRoom, Outcome, Past, Step};
use std::marker::Model;

/// The copies, BPDUs and sources that a bridge lost. Contracts see the list of recorded steps.
#[derive(Drop)]
pub(crate) struct LossCounts {
    past: Past<Step>,
    copies: PortCounts,
    bpdus: PortCounts,
    sources: SourceCounts,
}

impl Model for LossCounts {
    ghost use Rattle.std.specs.Prelude.{List};
    ghost use Rattle.pb_lan.specs.declared.step.Step.{Step};
    ghost use Rattle.pb_history.specs.Losses.{AreNoted};

    ghost Value = { List Step };

    ghost view = { λ c. c.past.items };

    ghost invariant = { λ c. AreNoted c.past.items c.copies c.bpdus c.sources };
}

/// Records the ports that got no copy of a frame.
#[inline(always)]
fn note_copies(copies: &mut PortCounts, step: &Step)
    requires { length copies.old + 2 ^ 64 ≤ u128.MAX }
    ensures noted { copies.new ≡ copies.old ++ refused_by step.now }
    ensures few { length (refused_by step.now) ≤ 2 ^ 64 }
{
    if let Step::Receive {
        outcome: Outcome::Relayed { refused, .. },
        ..
    } = step
    {
        if !refused.is_empty() {
            copies.note_all(refused.list().as_slice());
        }
    }
}

/// Returns the ports at which a BPDU was not queued, with the causes.
#[inline(always)]
pub(crate) fn dropped_by(step: &Step) -> &[(u8, NoRoom)]
    ensures { result.now ≡ dropped_by step.now }
{
    match step {
        Step::Receive {
            moved: Some(moved),
            ..
        } => moved.get().dropped.as_slice(),
        Step::Tick { moved, .. } => moved.dropped.as_slice(),
        Step::Admin { moved, .. } => moved.dropped.as_slice(),
        _ => &[],
    }
}

/// Records the ports at which a BPDU was not queued.
#[inline(always)]
fn note_bpdus(bpdus: &mut PortCounts, step: &Step)
    requires { length bpdus.old + 2 ^ 64 ≤ u128.MAX }
    ensures noted { bpdus.new ≡ bpdus.old ++ dropped_by step.now }
    ensures few { length (dropped_by step.now) ≤ 2 ^ 64 }
{
    let dropped = dropped_by(step);
    if dropped.len() != 0 {
        bpdus.note_all(dropped);
    }
}

/// Records a source for which the learning table got no entry.
#[inline(always)]
fn note_source(sources: &mut SourceCounts, step: &Step)
    requires { length sources.old ≤ 2 ^ 64 }
    ensures noted { sources.new ≡ sources.old ++ unlearnt_by step.now }
    ensures few { length (unlearnt_by step.now) ≤ 1 }
{
    match step {
        Step::Receive {
            learnt: Some(Learnt::Full),
            ..
        } => sources.note(NoRoom::Full),
        Step::Receive {
            learnt: Some(Learnt::Memory),
            ..
        } => sources.note(NoRoom::Memory),
        _ => {}
    }
}

impl LossCounts {
    /// Returns the counts of no steps.
    pub(crate) fn new() -> LossCounts
        ensures { result ≡ [] }
    {
        LossCounts {
            past: Past::new(),
            copies: PortCounts::new(),
            bpdus: PortCounts::new(),
            sources: SourceCounts::new(),
        }
    }

    /// Returns an equal copy. Allocates nothing.
    pub(crate) fn copied(&self) -> LossCounts
        ensures { result ≡ self.now }
    {
        LossCounts {
            past: self.past.copied(),
            copies: self.copies.copied(),
            bpdus: self.bpdus.copied(),
            sources: self.sources.copied(),
        }
    }

    /// Records one more step.
    #[inline(always)]
    pub(crate) fn note(&mut self, step: &Step)
        requires { length self.old < u64.MAX }
        ensures { self.new ≡ self.old ++ step.now ∷ [] }
    {
        note_copies(&mut self.copies, step);
        note_bpdus(&mut self.bpdus, step);
        note_source(&mut self.sources, step);
        self.past.note(step);
    }

    /// Returns how many copies of frames were not queued at a port, by cause.
    pub(crate) fn copies(&self, port: u8) -> CauseCounts
        requires { port ≤ 16 }
        ensures { result ≡ counts_at port (flat_map refused_by self.now) }
    {
        self.copies.at(port)
    }

    /// Returns how many BPDUs of the bridge's own were not queued at a port, by cause.
    pub(crate) fn bpdus(&self, port: u8) -> CauseCounts
        requires { port ≤ 16 }
        ensures { result ≡ counts_at port (flat_map dropped_by self.now) }
    {
        self.bpdus.at(port)
    }

    /// Returns for how many sources the learning table got no entry, by cause.
    pub(crate) fn sources(&self) -> CauseCounts
        ensures { result ≡ counts_of (flat_map unlearnt_by self.now) }
    {
        self.sources.counts()
    }
}
