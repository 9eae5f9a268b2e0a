//! The tests of pb_export, with enough memory. Begin reading at `tests.rt`.
#![tactic(auto)]

#[cfg(test)]
mod tests;
