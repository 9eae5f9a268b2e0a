//! The lines that several reports have.

use crate::templates::{Choice, Kind, ListForm, ListShape, Said, Slot, Template};

/// Yes or no.
pub(super) const YES_OR_NO: &[Choice] = choices![("yes", Said::Yes), ("no", Said::No),];

/// Whether the bridges have converged, before the ticks.
pub(super) const CONVERGED: &[Choice] = choices![
    ("converged ticks ", Said::Yes),
    ("not converged ticks ", Said::No),
];

/// Whether the active links are a forest.
const FOREST_SLOTS: &[Slot] = slots![("forest", Kind::OneOf(YES_OR_NO), ""),];

/// A service whose active links form a loop.
const LOOP_SLOTS: &[Slot] = slots![("service", Kind::Text, ""),];

/// The rule that a plan file breaks, with a key or a name.
const NAMED_PLAN_FAULT_SLOTS: &[Slot] = slots![
    ("rule", Kind::Number, " "),
    ("fault", Kind::Text, " "),
    ("name", Kind::Text, ""),
];

/// The rule that a plan file breaks, without a key or a name.
const PLAN_FAULT_SLOTS: &[Slot] = slots![("rule", Kind::Number, " "), ("fault", Kind::Text, ""),];

/// Why a command ended early.
const FAULT_SLOTS: &[Slot] = slots![("fault", Kind::Text, ""),];

/// Whether the bridges have converged, and after how many ticks.
const CONVERGED_SLOTS: &[Slot] = slots![
    ("converged", Kind::OneOf(CONVERGED), ""),
    ("ticks", Kind::Number, ""),
];

/// A line of any form.
const LINE_SLOTS: &[Slot] = slots![("line", Kind::Text, ""),];

/// Whether the active links of each service are a forest.
pub(super) const FOREST: Template = template!("", "forest ", FOREST_SLOTS);

/// A service whose active links form a loop.
pub(super) const LOOP: Template = template!("loops", "loop ", LOOP_SLOTS);

/// The rule that a plan file breaks, with a key or a name.
pub(super) const NAMED_PLAN_FAULT: Template = template!(
    "plan_fault",
    "plan: ",
    NAMED_PLAN_FAULT_SLOTS
);

/// The rule that a plan file breaks, without a key or a name.
pub(super) const PLAN_FAULT: Template = template!("plan_fault", "plan: ", PLAN_FAULT_SLOTS);

/// Why a command ended early.
pub(super) const FAULT: Template = template!("", "fault: ", FAULT_SLOTS);

/// Whether the bridges have converged, and after how many ticks.
pub(super) const CONVERGED_AFTER: Template = template!("", "", CONVERGED_SLOTS);

/// A line of any other form.
pub(super) const OTHER: Template = template!("other", "", LINE_SLOTS);

/// The services whose active links form a loop.
pub(super) const LOOPS: ListForm = list!("loops", ListShape::Values, &[]);

/// Why a plan file is refused.
pub(super) const PLAN_FAULTS: ListForm = list!("plan_fault", ListShape::Single, &[]);

/// The lines of other forms.
pub(super) const OTHERS: ListForm = list!("other", ListShape::Leftovers, &[]);
