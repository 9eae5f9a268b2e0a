//! The command line: commands, options and their help, over the parser of clap. Begin with [`command_line_of`], which
//! returns the parsed [`CommandLine`]. Each command has a file with its options and the texts of its help.
#![tactic(auto)]

mod arguments;
mod check_options;
mod command_line;
mod commands;
mod control_options;
mod diff_options;
mod draw_options;
mod frame_arguments;
mod init_options;
mod page_options;
mod plan_help;
mod report_options;
mod run_options;
mod survive_options;
mod table;
mod trace_options;
mod tree_options;

pub use arguments::ReportFormat;
pub use check_options::CheckOptions;
pub use command_line::{CommandLine, VERSION, command_line_of};
pub use control_options::ControlOptions;
pub use diff_options::DiffOptions;
pub use draw_options::{DrawOptions, PictureFormat};
pub use frame_arguments::TraceFrame;
pub use init_options::{InitNetwork, InitOptions};
pub use page_options::PageOptions;
pub use report_options::ReportOptions;
pub use run_options::RunOptions;
pub use survive_options::{SurviveOptions, SurviveScope};
pub use trace_options::{TraceEntry, TraceOptions};
pub use tree_options::TreeOptions;
