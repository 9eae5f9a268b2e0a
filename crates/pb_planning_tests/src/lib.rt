//! The tests of `draw`, `survive` and of driving a network to convergence, with enough memory. Begin reading at
//! `tests.rt`.
#![tactic(auto)]

#[cfg(test)]
mod tests;
