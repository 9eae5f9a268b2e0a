//! Tests of pb_cmd_run without failing allocations.
#![tactic(auto)]

#[cfg(test)]
mod tests;
