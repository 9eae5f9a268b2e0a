//! Reports as JSON and CSV: templates read the lines of a report, and the values become a document or a table.
//!
//! A template is a fixed text and the slots after it. A line fits a template if it equals the template's text with
//! values in the slots, octet for octet. The rows give the whole report back, so nothing is left out or invented. A
//! [`Form`] has the templates of one command, and the place of each line in the document. Begin reading at
//! `templates.rt`, then `reading.rt`, [`read_report`], [`json_of`] and [`csv_of`].
#![tactic(auto)]

mod as_json;
mod documents;
mod faults;
mod forms;
mod heads;
mod parts;
mod reading;
mod rows;
mod tables;
mod templates;
mod values;
mod words;

pub use as_json::json_of;
pub use faults::FormatFault;
pub use forms::{CHECK, COUNTS, DIFF, FAILURES, RUN, STEP, SURVIVE, SURVIVE_BESIDE, TRACE, TREE};
pub use heads::Head;
pub use reading::read_report;
pub use rows::{Field, Filled, Row};
pub use tables::{Cell, CellRow, Table, csv_of};
pub use templates::{Choice, Form, Kind, ListForm, ListShape, Said, Slot, Template};
