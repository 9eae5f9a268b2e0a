//! Tests of pb_control_socket with ample memory. The library is empty.
#![tactic(auto)]

#[cfg(test)]
mod tests;
