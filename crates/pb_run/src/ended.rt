//! The end of a run.

ghost use Rattle.std.specs.Prelude.{◌≡◌, ◌↔◌, IsTrue};

use pb_threads::Finish;

/// The end of a run.
#[derive(Clone, Copy, PartialEq, Eq, Debug)]
pub enum Ended {
    /// No more frames come, and none is on its way.
    Drained,
    /// An allocation of a worker failed.
    NoMemory,
    /// A worker took as many turns, or its place as many steps, as it may.
    Limit,
    /// None of these: the gate stopped the run, or nothing was left to do after the input of a port had a fault.
    Stopped,
}

/// The reasons for which workers ended while something was left to do.
#[derive(Clone, Copy, PartialEq, Eq, Debug)]
pub(crate) struct Causes {
    /// An allocation failed.
    pub memory: bool,
    /// A limit was reached.
    pub limit: bool,
}

impl Causes {
    /// Returns these reasons, with that of one more worker.
    pub(crate) fn and(self, finish: Option<Finish>) -> Causes {
        Causes {
            memory: self.memory || finish == Some(Finish::Memory),
            limit: self.limit || finish == Some(Finish::Limit),
        }
    }
}

/// Returns the end of a run, by whether it has drained and by what ended its workers.
pub(crate) fn ended_by(is_drained: bool, causes: Causes) -> Ended
    ensures { (result ≡ Ended.Drained) ↔ IsTrue is_drained }
{
    if is_drained {
        return Ended::Drained;
    }
    if causes.memory {
        return Ended::NoMemory;
    }
    if causes.limit {
        return Ended::Limit;
    }
    Ended::Stopped
}
