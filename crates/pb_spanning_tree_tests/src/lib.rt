//! Tests of pb_spanning_tree with ample memory. The library is empty.
#![tactic(auto)]

#[cfg(test)]
mod tests;
