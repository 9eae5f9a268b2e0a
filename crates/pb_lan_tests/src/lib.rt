//! Tests of pb_lan with ample memory. The library is empty. Plans and records are short tables in the tests, and a
//! harness makes each for its row.
#![tactic(auto)]

#[cfg(test)]
mod tests;
