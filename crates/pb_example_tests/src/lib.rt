//! Examples of the calls that a user of the crates meets first. `scripts/examples --write` copies the body of each test
//! into the docstrings of the calls that the comments above the test name. In all of them `rt` is the `HostRuntime`
//! that
//! `main` or a test gets.
#![tactic(auto)]

#[cfg(test)]
mod tests;
