//! Looks at several things in parallel.

ghost use Rattle.std.specs.List.{AllZip};
ghost use Rattle.std.specs.Prelude.{IfOk, Ok};

use crate::progress::FailureProgress;
use pb_converge::DriveFault;
use rayon::prelude::*;
use std::alloc::{AllocError, Global};
use std::sync::OnceLock;
use std::thread::Threads;

/// Returns what a look at `what` gives, or the fault in `met` if another look has met one. The first fault is kept in
/// `met`.
fn look_unless_met<X: Copy, Y: Drop, F: Fn(X) -> Result<Y, DriveFault>>(
    what: X,
    look: &F,
    met: &OnceLock<DriveFault>,
) -> Result<Y, DriveFault>
    requires { F.IsAlwaysCallable look.now }
    ensures { IfOk result (λ y. F.post look.now what (Ok y)) }
{
    if let Some(fault) = met.get() {
        return Err(*fault);
    }
    let looked = look(what);
    if let Err(fault) = &looked {
        let _ = met.try_set(*fault);
    }
    looked
}

/// Returns what `look` gives at each of several things, in their order.
///
/// They are looked at in parallel, by as many threads as there are processors or twice as many. If a thread can't be
/// started, its share is done in turn. `progress.looked` is called after each look.
///
/// # Errors
///
/// Those of `look`, and `Memory` if the list can't be allocated. After the first fault no further look begins, and a
/// fault that was met is returned.
pub fn look_each<R, X, Y, F, V>(
    rt: &R,
    alloc: Global,
    those: &[X],
    look: &F,
    progress: &V,
) -> Result<Vec<Y>, DriveFault>
where
    R: Threads + Sync,
    X: Copy + Sync,
    Y: Drop + Send,
    F: Fn(X) -> Result<Y, DriveFault> + Sync,
    V: FailureProgress,
    requires { F.IsAlwaysCallable look.now }
    ensures { IfOk result (λ ys. AllZip (λ x y. F.post look.now x (Ok y)) those.now ys.items) }
{
    let all = those.len();
    let fault = OnceLock::new();
    let met = &fault;
    let looked: Result<Result<Vec<Y>, DriveFault>, AllocError> = those
        .par_iter()
        .with_min_len(1)
        .map(
            |what: &X| -> Result<Y, DriveFault>
                requires { F.IsAlwaysCallable look.now }
                ensures { IfOk result (λ y. F.post look.entry.now what.now (Ok y)) }
            {
                let looked = look_unless_met(*what, look, met);
                progress.looked(all);
                looked
            },
        )
        .collect(rt, alloc);
    match looked {
        Ok(ys) => ys,
        Err(_) => Err(DriveFault::Memory),
    }
}
