//! The active links of a service, as bridges are removed.

ghost use Rattle.std.specs.Prelude.{◌≡◌, ◌≢◌, ◌++◌, ◌+◌, ◌<◌, ◌≤◌, ◌^◌, ℕ, [], ◌∷◌, Some, None, MatchOption, OnOk};
ghost use Rattle.std.specs.Prelude.{IfOk, length, slice_set, slice_index};
ghost use Rattle.std.specs.List.{list_any};
ghost use Rattle.std.specs.Option.{is_some};
ghost use Rattle.pb_forest.specs.Graphs.{at, share, degree, IsLast, IsBetween};
ghost use Rattle.pb_forest.specs.Counting.{IsCounted, IsNext};

use pb_frame::Memory;
use std::alloc::Global;

/// The indexes of the bridges that a link joins, counted from 0.
#[derive(Clone, Copy)]
pub(crate) struct Ends {
    pub(crate) a: usize,
    pub(crate) b: usize,
}

/// A bridge that is removed with its last remaining link.
#[derive(Clone, Copy)]
pub(crate) struct Branch {
    /// The bridge's index.
    pub(crate) bridge: usize,
    /// The index of the bridge at the link's other end.
    pub(crate) above: usize,
    /// The link's index.
    pub(crate) link: usize,
}

/// The remaining links, and the numbers and indexes of those at each bridge.
#[derive(Drop)]
pub(crate) struct Graph {
    /// The bridges that each link joins, or `None` if it is not active or was removed.
    links: Vec<Option<Ends>>,
    /// The number of ends of remaining links at each bridge.
    degrees: Vec<u32>,
    /// The sum of the indexes of these ends' links at each bridge.
    sums: Vec<u32>,
}

/// Adds to one of the counts.
fn add_at(counts: &mut [u32], bridge: usize, n: u32)
    requires there { bridge < length counts.old }
    requires fits { slice_index counts.old bridge + n < 2 ^ 32 }
    ensures { (x : ℕ) → slice_index counts.new x ≡ slice_index counts.old x + at bridge x n }
{
    counts[bridge] += n;
}

/// Subtracts from one of the counts.
fn take_at(counts: &mut [u32], bridge: usize, n: u32)
    requires there { bridge < length counts.old }
    requires fits { n ≤ slice_index counts.old bridge }
    ensures { (x : ℕ) → slice_index counts.new x + at bridge x n ≡ slice_index counts.old x }
{
    counts[bridge] -= n;
}

/// Adds to the counts of both ends.
fn add_ends(counts: &mut [u32], ends: Ends, n: u32)
    requires there { IsBetween (length counts.old) (Some ends) }
    requires fits { (x : ℕ) → slice_index counts.old x + share (Some ends) x n < 2 ^ 32 }
    ensures { (x : ℕ) → slice_index counts.new x ≡ slice_index counts.old x + share (Some ends) x n }
{
    add_at(counts, ends.a, n);
    add_at(counts, ends.b, n);
}

/// Subtracts from the counts of both ends.
fn take_ends(counts: &mut [u32], ends: Ends, n: u32)
    requires there { IsBetween (length counts.old) (Some ends) }
    requires fits { (x : ℕ) → share (Some ends) x n ≤ slice_index counts.old x }
    ensures { (x : ℕ) → slice_index counts.new x + share (Some ends) x n ≡ slice_index counts.old x }
{
    take_at(counts, ends.a, n);
    take_at(counts, ends.b, n);
}

impl Graph {
    /// Returns a graph of bridges without links.
    ///
    /// # Errors
    ///
    /// `Memory` if an allocation failed.
    pub(crate) fn new(alloc: Global, bridges: usize) -> Result<Graph, Memory>
        ensures { IfOk result (λ g. IsCounted g × (length g.degrees.items ≡ bridges) × (g.links.items ≡ [])) }
    {
        Ok(Graph {
            links: Vec::new(alloc),
            degrees: vec![in alloc; 0; bridges]?,
            sums: vec![in alloc; 0; bridges]?,
        })
    }

    /// Returns the number of bridges.
    pub(crate) fn bridges(&self) -> usize
        ensures { result ≡ length self.now.degrees.items }
    {
        self.degrees.len()
    }

    /// Appends the next link with the bridges that it joins, or `None` if it is not active.
    ///
    /// # Errors
    ///
    /// `Memory` if an allocation failed.
    pub(crate) fn push(&mut self, joined: Option<Ends>) -> Result<(), Memory>
        requires counted { IsCounted self.old }
        requires room { length self.old.links.items < 255 }
        requires within { IsBetween (length self.old.degrees.items) joined }
        ensures { OnOk result (IsNext self.old self.new (self.old.links.items ++ joined ∷ [])) }
    {
        let link = self.links.len() as u32;
        self.links.push(joined)?;
        if let Some(ends) = joined {
            add_ends(&mut self.degrees, ends, 1);
            add_ends(&mut self.sums, ends, link);
        }
        Ok(())
    }

    /// Checks whether a link remains.
    pub(crate) fn has_links(&self) -> bool
        ensures { result ≡ list_any is_some self.now.links.items }
    {
        self.links.iter().any(|link| link.is_some())
    }

    /// Returns the bridge with its link, if exactly one link remains at it, otherwise `None`.
    pub(crate) fn last_branch(&self, bridge: usize) -> Option<Branch>
        requires counted { IsCounted self.now }
        requires there { bridge < length self.now.degrees.items }
        ensures { MatchOption result (degree self.now.links.items bridge ≢ 1) (λ b. (b.bridge ≡ bridge)
            × IsLast self.now.links.items b) }
    {
        if self.degrees[bridge] != 1 {
            return None;
        }
        let link = self.sums[bridge] as usize;
        let Some(ends) = self.links[link] else {
            unreachable!()
        };
        let above = if ends.a == bridge { ends.b } else { ends.a };
        Some(Branch {
            bridge,
            above,
            link,
        })
    }

    /// Removes the bridge's link.
    pub(crate) fn take_off(&mut self, branch: Branch)
        requires counted { IsCounted self.old }
        requires last { IsLast self.old.links.items branch }
        ensures { IsNext self.old self.new (slice_set self.old.links.items branch.link None) }
    {
        let ends = Ends {
            a: branch.bridge,
            b: branch.above,
        };
        self.links[branch.link] = None;
        take_ends(&mut self.degrees, ends, 1);
        take_ends(&mut self.sums, ends, branch.link as u32);
    }
}
