//! The command `report`: one page in HTML about a plan's network and what failures do to it.
//!
//! It builds on pb_cmd_survive (failures and what they do), pb_cmd_draw (the picture), pb_cmd_diff (changes),
//! pb_converge and pb_names.
//! Begin reading at `report.rt`, [`run_report`], then `page.rt`, `failures.rt` and `html.rt`.
#![tactic(auto)]

mod analysis;
mod asked;
mod change;
mod criteria;
mod end;
mod failures;
mod html;
mod page;
mod picture;
mod raise;
mod report;
mod script;
mod services;
mod sites;
mod states;
mod style;
mod texts;
mod trees;
mod words;

pub use analysis::Analysis;
pub use asked::{Asked, OldPlan};
pub use end::ReportEnd;
pub use report::run_report;
