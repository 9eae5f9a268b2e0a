//! The tests of pb_diagnostics and pb_plan_errors.
#![tactic(auto)]

#[cfg(test)]
mod tests;
