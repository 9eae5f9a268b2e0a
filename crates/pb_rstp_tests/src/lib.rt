//! Tests of pb_rstp with ample memory. The library is empty.
#![tactic(auto)]

#[cfg(test)]
mod tests;
