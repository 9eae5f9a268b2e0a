//! Words, colours and dashes of a picture.

ghost use Rattle.std.specs.Prelude.{◌≡◌};
ghost use Rattle.pb_cmd_draw.specs.Words.{tone_word, link_word, end_word, bridge_word, role_of, site_word, losing_word};
ghost use Rattle.pb_cmd_draw.specs.Words.{is_lossless, colour_of, dashes_of};

use pb_draw_layout::{LinkState, Tone};
use pb_lan::{LinkPlan, PortState};
use pb_names::state_word;

/// Returns the word for a tone.
pub(crate) fn tone_word(tone: Tone) -> &'static str
    ensures { result.now ≡ tone_word tone }
{
    match tone {
        Tone::Plain => "plain",
        Tone::Lit => "lit",
        Tone::Faint => "faint",
    }
}

/// Returns the word for the state of a link.
pub(crate) fn link_word(state: LinkState) -> &'static str
    ensures { result.now ≡ link_word state }
{
    match state {
        LinkState::Active => "active",
        LinkState::Standby => "standby",
        LinkState::Failed => "failed",
    }
}

/// Returns the word for the state of an end of a link, which is disabled or not.
pub(crate) fn end_word(disabled: bool, state: PortState) -> &'static str
    ensures { result.now ≡ end_word disabled state }
{
    if disabled {
        "disabled"
    } else {
        state_word(state)
    }
}

/// Returns the word for a bridge that has failed or not.
pub(crate) fn bridge_word(failed: bool) -> &'static str
    ensures { result.now ≡ bridge_word failed }
{
    if failed { "failed" } else { "up" }
}

/// Returns the word for a bridge that is a root or not.
pub(crate) fn role_of(root: bool) -> &'static str
    ensures { result.now ≡ role_of root }
{
    if root { "root" } else { "bridge" }
}

/// Returns the word for a customer port that is cut off or not.
pub(crate) fn site_word(cut_off: bool) -> &'static str
    ensures { result.now ≡ site_word cut_off }
{
    if cut_off { "cut-off" } else { "up" }
}

/// Checks whether a link loses no frame.
pub(crate) fn is_lossless(link: &LinkPlan) -> bool
    ensures { result ≡ is_lossless link.now }
{
    link.lost_ab.len() == 0 && link.lost_ba.len() == 0
}

/// Returns what follows the name of a link that loses frames, or an empty text for another link.
pub(crate) fn losing_word(link: &LinkPlan) -> &'static str
    ensures { result.now ≡ losing_word link.now }
{
    if is_lossless(link) { "" } else { " (loses)" }
}

/// Returns the colour of a service, 0 to 7.
pub(crate) fn colour_of(service: u8) -> u32
    ensures { result ≡ colour_of service }
{
    (service as u32 + 7) % 8
}

/// Returns the dashes of a service's bar, from 1. 1 is a solid bar, for the first eight services.
pub(crate) fn dashes_of(service: u8) -> u32
    ensures { result ≡ dashes_of service }
{
    (service as u32 + 7) / 8
}
