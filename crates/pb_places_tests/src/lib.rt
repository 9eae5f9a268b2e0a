//! Tests of pb_link, pb_ring and pb_threads with ample memory. The library is empty.
#![tactic(auto)]

#[cfg(test)]
mod tests;
