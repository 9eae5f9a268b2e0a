//! The reports of `diff`.

use super::shared::{FAULT, NAMED_PLAN_FAULT, OTHER, OTHERS, PLAN_FAULT, PLAN_FAULTS};
use crate::templates::{Choice, Form, Kind, ListForm, ListShape, Said, Slot, Template};

/// The kinds of parts of a plan.
const KINDS: &[Choice] = choices![
    ("bridge ", Said::Word("bridge")),
    ("link ", Said::Word("link")),
    ("service ", Said::Word("service")),
    ("port ", Said::Word("port")),
];

/// Nothing is down.
const NONE_DOWN: &[Choice] = choices![("nothing down: ", Said::Word("nothing")),];

/// A link or a bridge is down.
const ONE_DOWN: &[Choice] = choices![
    ("link ", Said::Word("link")),
    ("bridge ", Said::Word("bridge")),
];

/// Two links are down.
const TWO_DOWN: &[Choice] = choices![("links ", Said::Word("links")),];

/// Whether ports reach each other now.
const REACHES: &[Choice] = choices![
    ("now reach each other:", Said::Yes),
    ("no longer reach each other:", Said::No),
];

/// Whether a service forms a loop now.
const LOOPS: &[Choice] = choices![
    ("now forms a forwarding loop", Said::Yes),
    ("no longer forms a forwarding loop", Said::No),
];

/// Whether bridges converge now.
const CONVERGES: &[Choice] = choices![
    ("bridges now converge", Said::Yes),
    ("bridges no longer converge", Said::No),
];

/// A part is added.
const IS_ADDED: &[Choice] = choices![("added", Said::Word("added")),];

/// A part is removed.
const IS_REMOVED: &[Choice] = choices![("removed", Said::Word("removed")),];

/// There is no difference.
const IS_SAME: &[Choice] = choices![("difference", Said::No),];

/// A part that is added.
const ADDED: &[Slot] = slots![
    ("part", Kind::OneOf(KINDS), ""),
    ("name", Kind::Text, ": "),
    ("change", Kind::OneOf(IS_ADDED), ""),
];

/// A part that is removed.
const REMOVED: &[Slot] = slots![
    ("part", Kind::OneOf(KINDS), ""),
    ("name", Kind::Text, ": "),
    ("change", Kind::OneOf(IS_REMOVED), ""),
];

/// A field of a part that differs.
const ALTERED: &[Slot] = slots![
    ("part", Kind::OneOf(KINDS), ""),
    ("name", Kind::Text, ": "),
    ("key", Kind::Text, ": "),
    ("old", Kind::Text, " -> "),
    ("new", Kind::Text, ""),
];

/// A field of the network itself that differs.
const NETWORK: &[Slot] = slots![
    ("key", Kind::Text, ": "),
    ("old", Kind::Text, " -> "),
    ("new", Kind::Text, ""),
];

/// Ports reach each other now, or not any more, with nothing down.
const REACH: &[Slot] = slots![
    ("service", Kind::Text, ": "),
    ("down", Kind::OneOf(NONE_DOWN), ""),
    ("reach", Kind::OneOf(REACHES), ""),
    ("groups", Kind::Groups, ""),
];

/// The same with a link or a bridge down.
const ONE_REACH: &[Slot] = slots![
    ("service", Kind::Text, ": "),
    ("down", Kind::OneOf(ONE_DOWN), ""),
    ("name", Kind::Text, " down: "),
    ("reach", Kind::OneOf(REACHES), ""),
    ("groups", Kind::Groups, ""),
];

/// The same with two links down.
const TWO_REACH: &[Slot] = slots![
    ("service", Kind::Text, ": "),
    ("down", Kind::OneOf(TWO_DOWN), ""),
    ("name", Kind::Text, " "),
    ("other", Kind::Text, " down: "),
    ("reach", Kind::OneOf(REACHES), ""),
    ("groups", Kind::Groups, ""),
];

/// A service forms a loop now, or not any more, with nothing down.
const LOOP: &[Slot] = slots![
    ("service", Kind::Text, ": "),
    ("down", Kind::OneOf(NONE_DOWN), ""),
    ("loop", Kind::OneOf(LOOPS), ""),
];

/// The same with a link or a bridge down.
const ONE_LOOP: &[Slot] = slots![
    ("service", Kind::Text, ": "),
    ("down", Kind::OneOf(ONE_DOWN), ""),
    ("name", Kind::Text, " down: "),
    ("loop", Kind::OneOf(LOOPS), ""),
];

/// The same with two links down.
const TWO_LOOP: &[Slot] = slots![
    ("service", Kind::Text, ": "),
    ("down", Kind::OneOf(TWO_DOWN), ""),
    ("name", Kind::Text, " "),
    ("other", Kind::Text, " down: "),
    ("loop", Kind::OneOf(LOOPS), ""),
];

/// The ends of a link with nothing down.
const ENDS: &[Slot] = slots![
    ("link", Kind::Text, " with nothing down: a "),
    ("old_a", Kind::Text, ", b "),
    ("old_b", Kind::Text, " -> a "),
    ("new_a", Kind::Text, ", b "),
    ("new_b", Kind::Text, ""),
];

/// Bridges converge now, or not any more, with nothing down.
const CONVERGENCE: &[Slot] = slots![
    ("down", Kind::OneOf(NONE_DOWN), ""),
    ("converges", Kind::OneOf(CONVERGES), ""),
];

/// The same with a link or a bridge down.
const ONE_CONVERGENCE: &[Slot] = slots![
    ("down", Kind::OneOf(ONE_DOWN), ""),
    ("name", Kind::Text, " down: "),
    ("converges", Kind::OneOf(CONVERGES), ""),
];

/// The same with two links down.
const TWO_CONVERGENCE: &[Slot] = slots![
    ("down", Kind::OneOf(TWO_DOWN), ""),
    ("name", Kind::Text, " "),
    ("other", Kind::Text, " down: "),
    ("converges", Kind::OneOf(CONVERGES), ""),
];

/// How the network has changed under the failure of a link or a bridge.
const ONE_CHANGE: &[Slot] = slots![
    ("down", Kind::OneOf(ONE_DOWN), ""),
    ("name", Kind::Text, " down: "),
    ("change", Kind::Text, ""),
];

/// The same with two links down.
const TWO_CHANGE: &[Slot] = slots![
    ("down", Kind::OneOf(TWO_DOWN), ""),
    ("name", Kind::Text, " "),
    ("other", Kind::Text, " down: "),
    ("change", Kind::Text, ""),
];

/// The most ticks to convergence in both plans.
const TICKS: &[Slot] = slots![
    ("old_most_ticks", Kind::Number, " -> "),
    ("new_most_ticks", Kind::Number, ""),
];

/// Those of the first plan alone.
const OLD_TICKS: &[Slot] = slots![("old_most_ticks", Kind::Number, " -> none"),];

/// Those of the second plan alone.
const NEW_TICKS: &[Slot] = slots![("new_most_ticks", Kind::Number, ""),];

/// The last line.
const SUMMARY: &[Slot] = slots![
    ("better", Kind::Number, " of "),
    ("failures_tried", Kind::Number, " failures; worse: "),
    ("worse", Kind::Number, " of "),
    (
        "failures_tried",
        Kind::Number,
        " failures; with nothing down: "
    ),
    ("nothing_down_change", Kind::Text, ""),
];

/// That there is no difference.
const SAME: &[Slot] = slots![("differs", Kind::OneOf(IS_SAME), ""),];

/// Neither plan has the service with a name.
const NO_SERVICE: &[Slot] = slots![("service", Kind::Text, ""),];

/// The lines.
const LINES: &[Template] = &[
    template!("reach", "service ", REACH),
    template!("reach", "service ", ONE_REACH),
    template!("reach", "service ", TWO_REACH),
    template!("loop_changes", "service ", LOOP),
    template!("loop_changes", "service ", ONE_LOOP),
    template!("loop_changes", "service ", TWO_LOOP),
    template!("ends", "link ", ENDS),
    template!("convergence", "", CONVERGENCE),
    template!("convergence", "", ONE_CONVERGENCE),
    template!("convergence", "", TWO_CONVERGENCE),
    template!("failures", "", ONE_CHANGE),
    template!("failures", "", TWO_CHANGE),
    template!("parts", "", ADDED),
    template!("parts", "", REMOVED),
    template!("fields", "", ALTERED),
    template!("network", "network: ", NETWORK),
    template!("", "most ticks to convergence: ", TICKS),
    template!("", "most ticks to convergence: ", OLD_TICKS),
    template!("", "most ticks to convergence: none -> ", NEW_TICKS),
    template!("", "better: ", SUMMARY),
    template!("", "no ", SAME),
    template!("no_such", "no such service ", NO_SERVICE),
    FAULT,
    NAMED_PLAN_FAULT,
    PLAN_FAULT,
    OTHER,
];

/// The lists of the document.
const LISTS: &[ListForm] = &[
    list!("parts", ListShape::Objects, &[]),
    list!("fields", ListShape::Objects, &[]),
    list!("network", ListShape::Objects, &[]),
    list!("reach", ListShape::Objects, &[]),
    list!("loop_changes", ListShape::Objects, &[]),
    list!("ends", ListShape::Objects, &[]),
    list!("convergence", ListShape::Objects, &[]),
    list!("failures", ListShape::Objects, &[]),
    list!("no_such", ListShape::Single, &[]),
    PLAN_FAULTS,
    OTHERS,
];

/// The form of what `diff` prints.
pub const DIFF: Form = Form {
    templates: LINES,
    lists: LISTS,
};
