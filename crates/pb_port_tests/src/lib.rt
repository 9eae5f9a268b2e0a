//! Tests of pb_port with ample memory. The library is empty.
#![tactic(auto)]

#[cfg(test)]
mod tests;
