//! Runs with ample memory, a file for each library.

mod bpdu;
mod fdb;
mod frame;
mod reserved;
mod svlan;
