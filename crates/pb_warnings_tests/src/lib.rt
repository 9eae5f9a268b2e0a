//! The tests of pb_warnings.
#![tactic(auto)]

#[cfg(test)]
mod tests;
