//! Tests without failing allocations, one file for each library or command.

mod arguments;
mod asked;
mod diff_arguments;
mod draw_arguments;
mod format_arguments;
mod frame_options;
mod line_words;
mod lines;
mod losses;
mod report_arguments;
mod survive_arguments;
mod transit;
mod wanted;
