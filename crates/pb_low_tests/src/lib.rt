//! Runs of the lowest libraries with ample memory: pb_frame, pb_reserved, pb_bpdu, pb_fdb and pb_svlan.
#![tactic(auto)]

#[cfg(test)]
mod tests;
