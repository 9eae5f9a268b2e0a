//! Runs with ample memory.

mod copies;
mod counts;
mod draft;
mod frame_number;
mod made;
mod plans;
mod port_list;
mod states;
mod tally;
mod unsound;
