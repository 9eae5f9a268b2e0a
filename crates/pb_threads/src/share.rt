//! A worker's share of what is left to do.

use crate::gate::Gate;
use crate::words::Words;

/// The amount that a worker takes or gives back at once.
const PART: u64 = 64;

/// The number of turns in a row without a count after which a worker gives all back. A tick counts nothing: a bridge
/// that ticks every few turns gives back its share like an idle one.
const PATIENCE: u32 = 32;

/// The amount by which the shared counter exceeds what is left to do on this worker's account. The worker counts
/// against it, and writes the counter only once in many turns. The counter is never below what is left to do. Once all
/// workers have given back their shares, it is what is left. No contract speaks of it.
#[derive(Drop)]
pub(crate) struct Share {
    spare: u64,
    /// The turns in a row in which nothing was counted.
    quiet: u32,
}

impl Share {
    /// Returns an empty share.
    pub(crate) fn new() -> Share {
        Share { spare: 0, quiet: 0 }
    }

    /// Counts what a turn added to what is left to do and took from it.
    pub(crate) fn count<G: Gate>(&mut self, gate: &G, words: &Words, more: u64, fewer: u64) {
        if more > 0 || fewer > 0 {
            self.quiet = 0;
            self.reckon(gate, words, more, fewer);
            return;
        }
        self.quiet = self.quiet.saturating_add(1);
        if self.quiet >= PATIENCE {
            self.give_back(gate, words);
        }
    }

    /// Counts against the spare amount. Adds to the shared counter if too little is spare, and subtracts if too much
    /// is.
    fn reckon<G: Gate>(&mut self, gate: &G, words: &Words, more: u64, fewer: u64) {
        let mut spare = self.spare.saturating_add(fewer);
        if spare < more {
            let part = (more - spare).saturating_add(PART);
            words.add(part);
            spare = spare.saturating_add(part);
        }
        spare = spare.saturating_sub(more);
        if spare > 2 * PART {
            words.take(gate, spare - PART);
            spare = PART;
        }
        self.spare = spare;
    }

    /// Gives all of it back. A worker does so before it sleeps.
    pub(crate) fn give_back<G: Gate>(&mut self, gate: &G, words: &Words) {
        if self.spare > 0 {
            words.take(gate, self.spare);
            self.spare = 0;
        }
    }
}
