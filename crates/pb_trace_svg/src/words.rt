//! The words of hops.

ghost use Rattle.std.specs.Prelude.{◌≡◌, ◌++◌, string_bytes, OnOk};
ghost use Rattle.pb_lan.specs.Events.{ends_at};
ghost use Rattle.pb_trace_svg.specs.Words.{cause_word, dropped_words, far_name, gone_word, hop_words, kind_word};
ghost use Rattle.pb_trace_svg.specs.Words.{link_of, lost_word, room_word, tag_words};
ghost use Rattle.pb_trace_svg.specs.declared.hops.Hop.TheVariants.{Crossed};

use crate::hops::{Cause, Hop, Tag};
use pb_forest::numbered;
use pb_frame::Memory;
use pb_lan::{LinkPlan, NoRoom, Plan};
use pb_messages::put_reason;
use pb_names::bridge_name;

/// Returns the number of the link of a lane.
pub(crate) fn link_of(lane: u8) -> u8
    ensures { result ≡ link_of lane }
{
    ((u16::from(lane) + 1) / 2) as u8
}

/// Returns the bridge to which a lane of a link leads.
fn far_bridge(lane: u8, link: &LinkPlan) -> u8
    ensures { result ≡ (ends_at lane link.now).bridge }
{
    if lane % 2 == 1 {
        link.b.bridge
    } else {
        link.a.bridge
    }
}

/// Returns the name of the bridge to which a lane leads, or an empty text if the plan lacks its link.
pub(crate) fn far_name(plan: &Plan, lane: u8) -> &str
    ensures { result.now ≡ far_name plan.now lane }
{
    match numbered(plan.links.as_slice(), link_of(lane) as usize) {
        None => "",
        Some(link) => bridge_name(plan, far_bridge(lane, link)),
    }
}

/// Returns the word for a kind of hop.
pub(crate) fn kind_word(hop: Hop) -> &'static str
    ensures { result.now ≡ kind_word hop }
{
    match hop {
        Hop::Entered(_) => "in",
        Hop::Crossed(_, _, lost) => { if lost { "lost" } else { "taken" } }
        Hop::Dropped(_, _, _) | Hop::Refused(_, _, _) => "dropped",
        Hop::Delivered(_, gone) => { if gone { "gone" } else { "out" } }
    }
}

/// Appends a word.
fn put_word(out: &mut String, word: &str) -> Result<(), Memory>
    ensures { OnOk result (string_bytes out.new ≡ string_bytes out.old ++ word.now) }
{
    out.push_str(word)?;
    Ok(())
}

/// Appends a tag.
pub(crate) fn put_tag(out: &mut String, tag: Tag) -> Result<(), Memory>
    ensures { OnOk result (string_bytes out.new ≡ string_bytes out.old ++ tag_words tag) }
{
    match tag {
        Tag::Untagged => put_word(out, "untagged"),
        Tag::Service { vid, pcp } => {
            write!(out, "VID {vid} PCP {pcp}")?;
            Ok(())
        }
    }
}

/// Appends the word for the cause for which a bridge dropped a frame.
fn put_cause(out: &mut String, cause: Cause) -> Result<(), Memory>
    ensures { OnOk result (string_bytes out.new ≡ string_bytes out.old ++ cause_word cause) }
{
    match cause {
        Cause::Filtered(reason) => put_reason(out, reason),
        Cause::NoPort => put_word(out, "no-port"),
    }
}

/// Returns the word for the cause for which a port got no copy.
fn room_word(cause: NoRoom) -> &'static str
    ensures { result.now ≡ room_word cause }
{
    match cause {
        NoRoom::Full => "full",
        NoRoom::Memory => "memory",
    }
}

/// Returns what follows the tag of a frame that a link lost, or an empty text.
fn lost_word(lost: bool) -> &'static str
    ensures { result.now ≡ lost_word lost }
{
    if lost { ", lost" } else { "" }
}

/// Returns the words for a frame that left the network, or that the customer did not take.
fn gone_word(gone: bool) -> &'static str
    ensures { result.now ≡ gone_word gone }
{
    if gone { "out, not taken" } else { "out" }
}

/// Appends the words for a frame on a link.
fn put_crossed(out: &mut String, plan: &Plan, lane: u8, tag: Tag, lost: bool) -> Result<(), Memory>
    ensures { OnOk result (string_bytes out.new ≡ string_bytes out.old
        ++ hop_words plan.now (Crossed lane tag lost)) }
{
    out.push_str("to ")?;
    out.push_str(far_name(plan, lane))?;
    out.push_str(": ")?;
    put_tag(out, tag)?;
    out.push_str(lost_word(lost))?;
    Ok(())
}

/// Appends the words for a frame that a bridge dropped.
fn put_dropped(out: &mut String, cause: Cause) -> Result<(), Memory>
    ensures { OnOk result (string_bytes out.new ≡ string_bytes out.old ++ dropped_words (cause_word cause)) }
{
    out.push_str("dropped: ")?;
    put_cause(out, cause)
}

/// Appends the words for a copy that a bridge dropped.
fn put_refused(out: &mut String, cause: NoRoom) -> Result<(), Memory>
    ensures { OnOk result (string_bytes out.new ≡ string_bytes out.old ++ dropped_words (room_word cause)) }
{
    out.push_str("dropped: ")?;
    put_word(out, room_word(cause))
}

/// Appends the words of a hop.
pub(crate) fn put_hop_words(out: &mut String, plan: &Plan, hop: Hop) -> Result<(), Memory>
    ensures { OnOk result (string_bytes out.new ≡ string_bytes out.old ++ hop_words plan.now hop) }
{
    match hop {
        Hop::Entered(_) => put_word(out, "in"),
        Hop::Crossed(lane, tag, lost) => put_crossed(out, plan, lane, tag, lost),
        Hop::Dropped(_, _, cause) => put_dropped(out, cause),
        Hop::Refused(_, _, cause) => put_refused(out, cause),
        Hop::Delivered(_, gone) => put_word(out, gone_word(gone)),
    }
}
