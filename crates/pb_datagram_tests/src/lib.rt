//! Tests of pb_datagram. The library is empty.
#![tactic(auto)]

#[cfg(test)]
mod tests;
