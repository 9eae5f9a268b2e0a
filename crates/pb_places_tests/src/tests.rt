//! Runs with ample memory, a file for each library. Each ends by itself, whatever the schedule.

mod floor;
mod link;
mod ring;
mod work;
