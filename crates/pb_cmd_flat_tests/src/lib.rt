//! Tests of pb_cmd_flat without failing allocations.
#![tactic(auto)]

#[cfg(test)]
mod tests;
