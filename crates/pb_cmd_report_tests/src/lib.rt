//! The tests of pb_cmd_report, over its public calls. The library is empty. Begin reading at `tests.rt`.
#![tactic(auto)]

#[cfg(test)]
mod tests;
