//! Tests of plan files, of the places of their errors, and of step scripts, without failing allocations.
#![tactic(auto)]

#[cfg(test)]
mod tests;
