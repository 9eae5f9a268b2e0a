//! The tests of `check`, `show`, `init`, `step`, `trace` and `tree`, with enough memory. Begin reading at `tests.rt`.
#![tactic(auto)]

#[cfg(test)]
mod tests;
