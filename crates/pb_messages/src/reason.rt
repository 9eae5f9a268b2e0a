//! Drop reasons.

ghost use Rattle.std.specs.Prelude.{◌≡◌, ◌++◌, string_bytes, OnOk};
ghost use Rattle.pb_messages.specs.Reasons.{reason_word, drop_word};

use pb_frame::Memory;
use pb_lan::Reason;

/// Appends the reason for which a frame was dropped to a text.
///
/// # Errors
///
/// `Memory` if an allocation failed. A part of the reason may follow the text then.
pub fn put_reason(out: &mut String, reason: Reason) -> Result<(), Memory>
    ensures { OnOk result (string_bytes out.new ≡ string_bytes out.old ++ reason_word reason) }
{
    match reason {
        Reason::NotForwarding => out.push_str("not-forwarding")?,
        Reason::NotMember => out.push_str("not-member")?,
        Reason::Untagged => out.push_str("untagged")?,
        Reason::Reserved(number) => write!(out, "reserved-{number}")?,
        Reason::Malformed => out.push_str("malformed")?,
        Reason::Worn => out.push_str("worn")?,
        Reason::Memory => out.push_str("memory")?,
        Reason::STagged => out.push_str("s-tagged")?,
        Reason::Long => out.push_str("long")?,
    }
    Ok(())
}

/// Returns the word for the frames that are counted under a number: the drop reason, `reserved` for all reserved
/// addresses, or `no-port` for frames that were relayed to no port. The numbers are those of `drop_number` and
/// `NO_PORT` of pb_history. Every number above 8 gives `no-port`.
pub fn drop_word(number: u8) -> &'static str
    ensures { result.now ≡ drop_word number }
{
    match number {
        0 => "not-forwarding",
        1 => "not-member",
        2 => "untagged",
        3 => "reserved",
        4 => "malformed",
        5 => "worn",
        6 => "memory",
        7 => "s-tagged",
        8 => "long",
        _ => "no-port",
    }
}
