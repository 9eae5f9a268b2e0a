//! The list of steps of a place.

ghost use Rattle.std.specs.Prelude.{◌≡◌, ◌<◌, ◌&&◌, [], true, false, length, vec_capacity, IfOk, OnOk, OnErr, IsOk};
ghost use Rattle.pb_history.specs.StepLists.{with_step, given_back};

use crate::tally::Tally;
use pb_frame::Memory;
use pb_lan::Step;
use std::alloc::{AllocError, Global};
use std::marker::Model;

/// The steps that a place has taken, in order, with their tally. Either each step is kept in memory, or the steps are
/// only counted.
///
/// In both cases contracts see the list of steps, whether they are kept, and whether space for one more is reserved.
#[derive(Drop)]
pub struct Steps {
    tally: Tally,
    kept: Vec<Step>,
    is_kept: bool,
    is_reserved: bool,
}

impl Model for Steps {
    ghost use Rattle.std.specs.Prelude.{vec_capacity};
    ghost use Rattle.pb_history.specs.StepLists.{StepsView, AreTold};

    ghost Value = { StepsView };

    ghost view = { λ s. record { steps = s.tally; is_kept = s.is_kept; is_reserved = s.is_reserved } };

    ghost invariant = { λ s. AreTold s.tally s.kept.items (vec_capacity s.kept) s.is_kept s.is_reserved };
}

impl Steps {
    /// Returns a list without steps that will keep each step. Allocates nothing.
    pub fn kept(alloc: Global) -> Steps
        ensures { result ≡ record { steps = []; is_kept = true; is_reserved = false } }
    {
        Steps::none(alloc, true)
    }

    /// Returns a list without steps that will only count steps. Allocates nothing.
    pub fn counted(alloc: Global) -> Steps
        ensures { result ≡ record { steps = []; is_kept = false; is_reserved = false } }
    {
        Steps::none(alloc, false)
    }

    /// Returns a list without steps.
    fn none(alloc: Global, is_kept: bool) -> Steps
        ensures { result ≡ record { steps = []; is_kept = is_kept; is_reserved = false } }
    {
        Steps {
            tally: Tally::new(),
            kept: Vec::new(alloc),
            is_kept,
            is_reserved: false,
        }
    }

    /// Returns the number of steps.
    #[inline(always)]
    pub fn len(&self) -> u64
        ensures { result ≡ length self.now.steps }
    {
        self.tally.len()
    }

    /// Checks whether each step is kept.
    #[inline(always)]
    pub fn are_kept(&self) -> bool
        ensures { result ≡ self.now.is_kept }
    {
        self.is_kept
    }

    /// Reserves space for one step, which the next step uses. If space is reserved already, nothing changes. It never
    /// fails then, nor if steps are only counted and fewer than 2^64-1 were taken.
    ///
    /// # Errors
    ///
    /// `Memory` if the allocation for a step failed, or 2^64-1 steps were taken. Nothing has changed then.
    #[inline(always)]
    pub fn reserve(&mut self) -> Result<(), Memory>
        ensures ok { OnOk result (self.new ≡ record self.old { is_reserved = true }) }
        ensures err { OnErr result (self.new ≡ self.old) }
        ensures reserved { self.old.is_reserved ≡ true → IsOk result }
        ensures counted { self.old.is_kept ≡ false → length self.old.steps < u64.MAX → IsOk result }
    {
        if self.is_reserved {
            return Ok(());
        }
        if self.tally.len() == u64::MAX {
            return Err(Memory);
        }
        if self.is_kept {
            self.kept.reserve(1)?;
        }
        self.is_reserved = true;
        Ok(())
    }

    /// Checks whether space for one step is reserved.
    #[inline(always)]
    pub fn has_room(&self) -> bool
        ensures { result ≡ self.now.is_reserved }
    {
        self.is_reserved
    }

    /// Gives up the reserved space for one step, unless `is_kept` is set.
    #[inline(always)]
    pub fn keep_room(&mut self, is_kept: bool)
        ensures { self.new ≡ record self.old { is_reserved = self.old.is_reserved && is_kept } }
    {
        self.is_reserved = self.is_reserved && is_kept;
    }

    /// Appends a step, which uses the reserved space. It returns the step if it is only counted. Allocates nothing.
    #[inline(always)]
    pub fn append(&mut self, step: Step) -> Option<Step>
        requires { self.old.is_reserved ≡ true }
        ensures steps { self.new ≡ with_step self.old step }
        ensures back { result ≡ given_back self.old.is_kept step }
    {
        self.tally.note(&step);
        self.is_reserved = false;
        if !self.is_kept {
            return Some(step);
        }
        let _ = self.kept.push(step);
        None
    }

    /// Returns the tally of the steps.
    pub fn tally(&self) -> &Tally
        ensures { result.now ≡ self.now.steps }
    {
        &self.tally
    }

    /// Returns the steps if they are kept, otherwise none.
    pub fn as_slice(&self) -> &[Step]
        ensures kept { self.now.is_kept ≡ true → result.now ≡ self.now.steps }
    {
        self.kept.as_slice()
    }

    /// Returns the steps if they are kept, otherwise none. Allocates nothing.
    pub fn into_vec(self) -> Vec<Step>
        ensures kept { self.is_kept ≡ true → result.items ≡ self.steps }
    {
        let Steps {
            tally: _,
            kept,
            is_kept: _,
            is_reserved: _,
        } = self;
        kept
    }

    /// Returns the tally, and the steps if they are kept, otherwise none. Allocates nothing.
    pub fn into_parts(self) -> (Tally, Vec<Step>)
        ensures tally { result.0 ≡ self.steps }
        ensures kept { self.is_kept ≡ true → result.1.items ≡ self.steps }
    {
        let Steps {
            tally,
            kept,
            is_kept: _,
            is_reserved: _,
        } = self;
        (tally, kept)
    }
}

/// Returns a copy of kept steps, with space for one more if `has_room` is set.
fn copied_list(kept: &Vec<Step>, has_room: bool) -> Result<Vec<Step>, AllocError>
    ensures items { IfOk result (λ copy. copy.items ≡ kept.now.items) }
    ensures room { IfOk result (λ copy. has_room ≡ true → length copy.items < vec_capacity copy) }
{
    let mut copy = kept.clone()?;
    if has_room {
        copy.reserve(1)?;
    }
    Ok(copy)
}

/// The copy is equal, and space for one more step is reserved if it is in the source.
impl Clone for Steps {
    ghost is_clone = { λ steps copy. copy ≡ steps };

    fn clone(&self) -> Result<Steps, AllocError> {
        let kept = copied_list(&self.kept, self.is_reserved && self.is_kept)?;
        Ok(Steps {
            tally: self.tally.copied(),
            kept,
            is_kept: self.is_kept,
            is_reserved: self.is_reserved,
        })
    }
}
