//! Tests of workers over whole plans. The library is empty. Each test is a table of runs with their expected results,
//! and one harness performs them. Each run ends by itself, whatever the schedule.
#![tactic(auto)]

#[cfg(test)]
mod tests;
