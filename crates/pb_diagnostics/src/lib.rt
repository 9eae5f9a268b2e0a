//! Errors in a line of a TOML text, printed as compilers print them.
//!
//! It finds the lines that give a key its value, the octets of key and value, and the nearest of several names.
//! It builds on `toml` and `strsim`. Begin with [`statement_of`] in `statement.rt`, then [`excerpt_of`] in `excerpt.rt`
//! and [`put_diagnostic`] in `diagnostic.rt`.
#![tactic(auto)]

mod diagnostic;
mod excerpt;
mod line;
mod mark;
mod site;
mod statement;
mod suggesting;

pub use diagnostic::{Diagnostic, put_diagnostic};
pub use excerpt::{Excerpt, excerpt_of};
pub use mark::{Mark, Part, mark_of};
pub use site::{Site, has_site, row_at, table_at};
pub use statement::{Statement, statement_of};
pub use suggesting::nearest;
