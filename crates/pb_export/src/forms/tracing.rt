//! The reports of `trace`.

use super::shared::{
    CONVERGED_AFTER, FAULT, NAMED_PLAN_FAULT, OTHER, OTHERS, PLAN_FAULT, PLAN_FAULTS,
};
use crate::templates::{Choice, Form, Kind, ListForm, ListShape, Said, Slot, Template};

/// A bridge received a frame.
const FROM: &[Choice] = choices![("from ", Said::Word("received")),];

/// A bridge sent a frame.
const TO: &[Choice] = choices![("to ", Said::Word("sent")),];

/// What the bridge learnt from the frame.
const SOURCES: &[Choice] = choices![
    (", source learnt", Said::Word("learnt")),
    (", source known", Said::Word("known")),
    (", source moved", Said::Word("moved")),
    (", table full", Said::Word("table full")),
    (", source is a group address", Said::Word("group")),
    (", source not learnt", Said::Word("not learnt")),
    ("", Said::Nothing),
];

/// Why the frame is sent where it is.
const WAYS: &[Choice] = choices![
    (", known", Said::Word("known")),
    (", flooded", Said::Word("flooded")),
    ("", Said::Nothing),
];

/// The frame was relayed.
const RELAYED: &[Choice] = choices![("relayed", Said::Word("relayed")),];

/// The frame was dropped.
const DROPPED: &[Choice] = choices![("dropped: ", Said::Word("dropped")),];

/// The frame has no tag.
const BARE: &[Choice] = choices![("untagged", Said::Yes),];

/// The tag was removed.
const TAKEN_OFF: &[Choice] = choices![("removed", Said::Word("removed")),];

/// The tag was added.
const PUT_ON: &[Choice] = choices![("added", Said::Yes),];

/// A direction of a link.
const DIRECTIONS: &[Choice] = choices![("ab", Said::Word("ab")), ("ba", Said::Word("ba")),];

/// What a link did with a frame.
const PASSAGES: &[Choice] = choices![
    ("taken ", Said::Word("taken")),
    ("lost ", Said::Word("lost")),
];

/// The frame was delivered.
const DELIVERED: &[Choice] = choices![("delivered ", Said::Word("delivered")),];

/// The slots of a frame that a bridge received and relayed, with these slots for its tag.
macro_rules! relayed {
    ($($tag:tt),+) => {
        slots![
            ("depth", Kind::Depth, ""),
            ("bridge", Kind::Text, " "),
            ("port", Kind::Number, " "),
            ("event", Kind::OneOf(FROM), ""),
            ("from", Kind::Text, ", "),
            $($tag),+,
            ("source", Kind::OneOf(SOURCES), ""),
            ("way", Kind::OneOf(WAYS), ": "),
            ("outcome", Kind::OneOf(RELAYED), ""),
            ("relayed_to", Kind::Numbers, ""),
            ("no_room", Kind::Words, ""),
        ]
    };
}

/// The slots of a frame that a bridge received and dropped, with these slots for its tag.
macro_rules! dropped {
    ($($tag:tt),+) => {
        slots![
            ("depth", Kind::Depth, ""),
            ("bridge", Kind::Text, " "),
            ("port", Kind::Number, " "),
            ("event", Kind::OneOf(FROM), ""),
            ("from", Kind::Text, ", "),
            $($tag),+,
            ("source", Kind::OneOf(SOURCES), ""),
            ("way", Kind::OneOf(WAYS), ": "),
            ("outcome", Kind::OneOf(DROPPED), ""),
            ("reason", Kind::Text, ""),
        ]
    };
}

/// The slots of a frame that a bridge sent, with the text after the next place, and these slots for its tag.
macro_rules! sent {
    ($until:literal $(, $tag:tt)*) => {
        slots![
            ("depth", Kind::Depth, ""),
            ("bridge", Kind::Text, " "),
            ("port", Kind::Number, " "),
            ("event", Kind::OneOf(TO), ""),
            ("to", Kind::Text, $until),
            $($tag),*
        ]
    };
}

/// A frame of a service that was relayed.
const SERVICE_RELAYED: &[Slot] = relayed![
    ("service", Kind::Text, " vid "),
    ("vid", Kind::Number, " priority "),
    ("priority", Kind::Number, "")
];

/// A frame of a service that was dropped.
const SERVICE_DROPPED: &[Slot] = dropped![
    ("service", Kind::Text, " vid "),
    ("vid", Kind::Number, " priority "),
    ("priority", Kind::Number, "")
];

/// A frame that was relayed, and whose priority tag was removed.
const TAGGED_RELAYED: &[Slot] = relayed![
    ("service", Kind::Text, " vid "),
    ("vid", Kind::Number, " priority "),
    ("priority", Kind::Number, ", tag "),
    ("tag_taken_off", Kind::Text, " removed")
];

/// A frame that was dropped, and whose priority tag was removed.
const TAGGED_DROPPED: &[Slot] = dropped![
    ("service", Kind::Text, " vid "),
    ("vid", Kind::Number, " priority "),
    ("priority", Kind::Number, ", tag "),
    ("tag_taken_off", Kind::Text, " removed")
];

/// An untagged frame from a link that was relayed.
const UNTAGGED_RELAYED: &[Slot] = relayed![("untagged", Kind::OneOf(BARE), "")];

/// An untagged frame from a link that was dropped.
const UNTAGGED_DROPPED: &[Slot] = dropped![("untagged", Kind::OneOf(BARE), "")];

/// A bridge sent a frame without its tag.
const SENT_BARE: &[Slot] = sent![", tag ", ("tag", Kind::OneOf(TAKEN_OFF), "")];

/// A bridge sent a frame with a new tag.
const SENT_FIRST: &[Slot] = sent![
    ", tag ",
    ("tag", Kind::Text, " "),
    ("put_on", Kind::OneOf(PUT_ON), "")
];

/// A bridge sent a frame with its tag.
const SENT_ON: &[Slot] = sent![", tag ", ("tag", Kind::Text, "")];

/// A bridge sent a frame.
const SENT: &[Slot] = sent![""];

/// A link took a frame.
const TOOK: &[Slot] = slots![
    ("depth", Kind::Depth, ""),
    ("link", Kind::Text, " "),
    ("direction", Kind::OneOf(DIRECTIONS), ": "),
    ("event", Kind::OneOf(PASSAGES), ""),
    ("number", Kind::Number, ""),
];

/// A customer port delivered a frame.
const LEFT: &[Slot] = slots![
    ("depth", Kind::Depth, ""),
    ("port", Kind::Text, ": "),
    ("event", Kind::OneOf(DELIVERED), ""),
    ("frame", Kind::Text, ""),
];

/// A frame was injected.
const ENTERED: &[Slot] = slots![
    ("frame", Kind::Text, ": polled "),
    ("port", Kind::Text, " "),
    ("number", Kind::Number, ""),
];

/// Other events were due.
const BESIDES: &[Slot] = slots![("others", Kind::Number, ""),];

/// A frame is in a forwarding loop.
const ROUND: &[Slot] = slots![
    ("goes_round_over", Kind::Words, "; ended after "),
    ("events", Kind::Number, " events"),
];

/// The summary of all frames.
const SUMMARY: &[Slot] = slots![
    ("left_at", Kind::Words, "; dropped "),
    ("dropped", Kind::Number, "; refused "),
    ("refused", Kind::Number, "; lost "),
    ("lost", Kind::Number, ""),
];

/// The lines.
const LINES: &[Template] = &[
    template!("frames", "in ", ENTERED),
    template!("", "other events ", BESIDES),
    template!("", "loops over", ROUND),
    template!("", "delivered at", SUMMARY),
    template!("", "not delivered", SUMMARY),
    CONVERGED_AFTER,
    FAULT,
    NAMED_PLAN_FAULT,
    PLAN_FAULT,
    template!("hops", "", SERVICE_RELAYED),
    template!("hops", "", SERVICE_DROPPED),
    template!("hops", "", TAGGED_RELAYED),
    template!("hops", "", TAGGED_DROPPED),
    template!("hops", "", UNTAGGED_RELAYED),
    template!("hops", "", UNTAGGED_DROPPED),
    template!("hops", "", SENT_BARE),
    template!("hops", "", SENT_FIRST),
    template!("hops", "", SENT_ON),
    template!("hops", "", SENT),
    template!("hops", "", TOOK),
    template!("hops", "", LEFT),
    OTHER,
];

/// The lists of the document.
const LISTS: &[ListForm] = &[
    list!("frames", ListShape::Objects, &["hops"]),
    PLAN_FAULTS,
    OTHERS,
];

/// The form of what `trace` prints.
pub const TRACE: Form = Form {
    templates: LINES,
    lists: LISTS,
};
