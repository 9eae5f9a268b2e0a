//! The tests of pb_standstill. The library is empty.
#![tactic(auto)]

#[cfg(test)]
mod tests;
