//! Marks of bridges.

ghost use Rattle.std.specs.Fn.{FnReturnsAt};
ghost use Rattle.std.specs.Prelude.{◌≡◌, ◌<◌, ◌==◌, ℕ, Bool, map, slice_index, if◌then◌else◌};
ghost use Rattle.pb_lan.specs.Plans.{IsSound};
ghost use Rattle.pb_lan.specs.declared.plan.LinkPlan.{LinkPlan};
ghost use Rattle.pb_joins.specs.Joins.{Computes, TellsJoined, mark_at};

use pb_frame::index_of;
use pb_lan::{LinkPlan, Plan};

/// A different mark for each bridge.
const OWN_MARKS: [u8; 32] = [
    0, 1, 2, 3, 4, 5, 6, 7, 8, 9, 10, 11, 12, 13, 14, 15, 16, 17, 18, 19, 20, 21, 22, 23, 24, 25,
    26, 27, 28, 29, 30, 31,
];

/// Returns the mark of a bridge after one mark is replaced by another.
fn replaced(gone: u8, kept: u8, mark: u8) -> u8
    ensures { result ≡ (if mark == gone then kept else mark) }
{
    if mark == gone { kept } else { mark }
}

/// Gives all bridges with the mark at index `from` the mark at index `into`.
fn join(marks: &mut [u8; 32], into: usize, from: usize)
    requires into { into < 32 }
    requires from { from < 32 }
    ensures { marks.new ≡ map (λ m. if m == slice_index marks.old from then slice_index marks.old into else m)
        marks.old }
{
    let (kept, gone) = (marks[into], marks[from]);
    for mark in marks.iter_mut() {
        *mark = replaced(gone, kept, *mark);
    }
}

/// Returns a mark for each bridge of a plan. Two bridges have the same mark if and only if links join them for which
/// `open` returns true.
pub fn marks<F: Fn(&LinkPlan) -> bool>(plan: &Plan, open: &F) -> [u8; 32]
    requires sound { IsSound plan.now }
    requires callable { F.IsAlwaysCallable open.now }
    ensures joined { (test : LinkPlan → Bool) → Computes (FnReturnsAt F.Fn open.now) test
        → TellsJoined plan.now test result }
    ensures below { (bridge : ℕ) → mark_at result bridge < 32 }
{
    let mut marks = OWN_MARKS;
    for link in plan.links.as_slice() {
        if open(link) {
            let into = index_of(link.a.bridge);
            let from = index_of(link.b.bridge);
            join(&mut marks, into, from);
        }
    }
    marks
}

/// Returns the mark of a bridge.
pub fn mark_at(marks: &[u8; 32], bridge: u8) -> u8
    ensures { result ≡ mark_at marks.now bridge }
{
    match marks.get((bridge as usize).saturating_sub(1)) {
        Some(mark) => *mark,
        None => 0,
    }
}
