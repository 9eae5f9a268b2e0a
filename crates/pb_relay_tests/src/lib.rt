//! Tests of one bridge with ample memory. The library is empty. Each test is a table of calls and checks, row by row.
#![tactic(auto)]

#[cfg(test)]
mod tests;
