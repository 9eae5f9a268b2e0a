//! Tests of pb_lines, pb_cli, pb_frame_options, pb_run_losses and the arguments of lines, without failing
//! allocations.
#![tactic(auto)]

#[cfg(test)]
mod tests;
