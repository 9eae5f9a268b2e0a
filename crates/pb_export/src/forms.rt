//! The forms of the commands' reports.

/// The fixed texts that a slot may hold, each with its meaning.
macro_rules! choices {
    ($(($text:literal, $says:expr)),* $(,)?) => {
        &[$($crate::templates::Choice { text: $text, says: $says }),*]
    };
}

/// Slots, each by its key, its kind, and the fixed text after it.
macro_rules! slots {
    ($(($key:literal, $kind:expr, $until:literal)),* $(,)?) => {
        &[$($crate::templates::Slot { key: $key, kind: $kind, until: $until }),*]
    };
}

/// The template of a line: its list, the fixed text at the start, and the slots after it.
macro_rules! template {
    ($home:literal, $lead:literal, $slots:expr) => {
        $crate::templates::Template { home: $home, lead: $lead, slots: $slots }
    };
}

/// A list of a document: its key, its shape, and the lists inside each of its objects.
macro_rules! list {
    ($key:literal, $shape:expr, $inner:expr) => {
        $crate::templates::ListForm { key: $key, shape: $shape, inner: $inner }
    };
}

mod checking;
mod counting;
mod diffing;
mod shared;
mod surviving;
mod tracing;
mod treeing;

pub use checking::CHECK;
pub use counting::{COUNTS, RUN, STEP};
pub use diffing::DIFF;
pub use surviving::{FAILURES, SURVIVE, SURVIVE_BESIDE};
pub use tracing::TRACE;
pub use treeing::TREE;
