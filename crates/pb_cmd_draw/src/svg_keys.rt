//! The signs in the legend of an SVG picture.

ghost use Rattle.std.specs.Prelude.{◌≡◌, ◌++◌, string_bytes, OnOk};
ghost use Rattle.pb_cmd_draw.specs.SvgKeys.{key_word, sign_of, label_of, key_group, key_label, key_element};

use crate::svg_boxes::put_place;
use pb_draw_layout::{Key, KeyMark};
use pb_frame::Memory;

/// Returns the word for a sign.
fn key_word(key: Key) -> &'static str
    ensures { result.now ≡ key_word key }
{
    match key {
        Key::Root => "root",
        Key::FailedBridge => "failed-bridge",
        Key::ActiveLink => "active",
        Key::StandbyLink => "standby",
        Key::FailedLink => "failed",
        Key::DiscardingPort => "discarding",
        Key::LearningPort => "learning",
        Key::CutOff => "cut-off",
    }
}

/// Returns the drawing of a sign.
fn sign_of(key: Key) -> &'static str
    ensures { result.now ≡ sign_of key }
{
    match key {
        Key::Root => "<rect class=\"root\" y=\"-10\" width=\"22\" height=\"12\" rx=\"3\"/>",
        Key::FailedBridge => {
            "<rect class=\"failed\" y=\"-10\" width=\"22\" height=\"12\" rx=\"3\"/>\
            <path class=\"failed\" d=\"M0-10l22 12m0-12l-22 12\"/>"
        }
        Key::ActiveLink => "<path class=\"active\" d=\"M0-4h22\"/>",
        Key::StandbyLink => "<path class=\"standby\" d=\"M0-4h22\"/>",
        Key::FailedLink => {
            "<path class=\"failed\" d=\"M0-4h22\"/><path class=\"disabled\" d=\"M4-11l14 14m0-14l-14 14\"/>"
        }
        Key::DiscardingPort =>
            "<path class=\"discarding\" d=\"M6-9h10v10h-10zm2 2l6 6m0-6l-6 6\"/>",
        Key::LearningPort => "<path class=\"learning\" d=\"M6-4a5 5 0 1 0 10 0a5 5 0 1 0-10 0z\"/>",
        Key::CutOff => "<path class=\"cut\" d=\"M5-10l12 12m0-12l-12 12\"/>",
    }
}

/// Returns the explanation of a sign.
fn label_of(key: Key) -> &'static str
    ensures { result.now ≡ label_of key }
{
    match key {
        Key::Root => "root bridge",
        Key::FailedBridge => "failed bridge",
        Key::ActiveLink => "active link",
        Key::StandbyLink => "standby link",
        Key::FailedLink => "failed link",
        Key::DiscardingPort => "discarding port",
        Key::LearningPort => "learning port",
        Key::CutOff => "cut-off site",
    }
}

/// Appends the opening tag of a sign's group, without its position.
fn put_key_group(out: &mut String, key: Key) -> Result<(), Memory>
    ensures { OnOk result (string_bytes out.new ≡ string_bytes out.old ++ key_group key) }
{
    let word = key_word(key);
    write!(out, "<g class=\"key\" data-key=\"{word}\" ")?;
    Ok(())
}

/// Appends a sign and its explanation.
fn put_key_label(out: &mut String, key: Key) -> Result<(), Memory>
    ensures { OnOk result (string_bytes out.new ≡ string_bytes out.old ++ key_label key) }
{
    let sign = sign_of(key);
    let label = label_of(key);
    write!(out, "{sign}<text x=\"30\">{label}</text></g>\n")?;
    Ok(())
}

/// Appends the line of a sign in the legend.
pub(crate) fn put_key(out: &mut String, mark: &KeyMark) -> Result<(), Memory>
    ensures { OnOk result (string_bytes out.new ≡ string_bytes out.old ++ key_element mark.now) }
{
    put_key_group(out, mark.key)?;
    put_place(out, mark.corner)?;
    put_key_label(out, mark.key)
}
