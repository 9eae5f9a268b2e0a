//! Tags and types in options.

ghost use Rattle.std.specs.Prelude.{◌≡◌, ◌≤◌, ◌<◌, ◌∷◌, [], ℕ, option_map, IfErr, IfNone, IfOk, IfSome};
ghost use Rattle.pb_frame.specs.Hex.{IsHex};
ghost use Rattle.pb_frame_options.specs.Tags.{IsNumberText, IsNoNumber, IsPriorityText, IsCustomerTagText, IsTypeText};
ghost use Rattle.pb_frame_options.specs.Tags.{vid_text, pcp_text, type_digits};
ghost use Rattle.pb_frame_options.specs.Tags.{IsVidFault, IsPcpFault, IsTagFault, IsTypeFault};

use crate::address::octet;
use pb_frame::Tci;
use thiserror::Error;

/// The largest VID of a customer's tag; 4095 is reserved (IEEE 802.1Q clause 9.6).
const LARGEST_VID: u32 = 4094;

/// The largest priority.
const LARGEST_PCP: u32 = 7;

/// The least EtherType; a smaller number is a length (IEEE 802.3 clause 3.2.6).
const LEAST_TYPE: u16 = 0x0600;

/// Why the text of a tag or a type is refused.
#[derive(Clone, Copy, Debug, PartialEq, Eq, Error)]
pub enum TagTextFault {
    /// The text is not `VID` or `VID:PCP` in decimal digits.
    #[error("not VID or VID:PCP in decimal digits")]
    Form,
    /// The VID is too large.
    #[error("VID {0} is not in 0..4094")]
    Vid(u32),
    /// The priority is too large.
    #[error("PCP {0} is not in 0..7")]
    Pcp(u32),
    /// The type is not four hexadecimal digits.
    #[error("not four hexadecimal digits")]
    Digits,
    /// The type is a length.
    #[error("not in 0600..ffff")]
    Length,
}

/// Returns the number of a text in decimal digits, below 2^32. None for any other text.
fn number_in(text: &str) -> Option<u32>
    ensures some { IfSome result (IsNumberText text.now) }
    ensures none { IfNone result (IsNoNumber text.now) }
{
    text.parse::<u32>().ok()
}

/// Returns the VID of a text in decimal digits, 0 to 4094.
///
/// # Errors
///
/// `Form` if the text is not digits, `Vid` if the number is above 4094.
fn vid_in(text: &str) -> Result<u16, TagTextFault>
    ensures value { IfOk result (IsNumberText text.now) }
    ensures range { IfOk result (λ vid. vid ≤ 4094) }
    ensures fault { IfErr result (IsVidFault text.now) }
{
    match number_in(text) {
        None => Err(TagTextFault::Form),
        Some(vid) if vid > LARGEST_VID => Err(TagTextFault::Vid(vid)),
        Some(vid) => Ok(vid as u16),
    }
}

/// Returns the priority of a text in decimal digits, 0 to 7. Without a text it is 0.
///
/// # Errors
///
/// `Form` if the text is not digits, `Pcp` if the number is above 7.
fn pcp_in(text: Option<&str>) -> Result<u8, TagTextFault>
    ensures value { IfOk result (IsPriorityText (option_map (λ t. t.now) text.entry)) }
    ensures range { IfOk result (λ pcp. pcp ≤ 7) }
    ensures fault { IfErr result (IsPcpFault (option_map (λ t. t.now) text.entry)) }
{
    let Some(text) = text else {
        return Ok(0);
    };
    match number_in(text) {
        None => Err(TagTextFault::Form),
        Some(pcp) if pcp > LARGEST_PCP => Err(TagTextFault::Pcp(pcp)),
        Some(pcp) => Ok(pcp as u8),
    }
}

/// Returns the texts before and after the first colon. Without a colon there is no second text.
fn parts_of(text: &str) -> (&str, Option<&str>)
    ensures vid { result.0.now ≡ vid_text text.now }
    ensures pcp { option_map (λ t. t.now) result.1 ≡ pcp_text text.now }
{
    match text.split_once(':') {
        Some((vid, pcp)) => (vid, Some(pcp)),
        None => (text, None),
    }
}

/// Reads a customer's tag from the text `VID` or `VID:PCP` in decimal digits. Without PCP the priority is 0.
///
/// # Errors
///
/// `Form` if the text has another form. `Vid` if the VID is above 4094, whatever follows it. `Pcp` if the priority is
/// above 7.
pub fn customer_tag_of(text: &str) -> Result<Tci, TagTextFault>
    ensures text { IfOk result (λ tag. IsCustomerTagText text.now tag.vid tag.pcp) }
    ensures range { IfOk result (λ tag. (tag.vid ≤ 4094) × (tag.pcp ≤ 7) × (tag.dei ≡ 0)) }
    ensures fault { IfErr result (IsTagFault text.now) }
{
    let (vid, pcp) = parts_of(text);
    let vid = vid_in(vid)?;
    let pcp = pcp_in(pcp)?;
    Ok(Tci { pcp, dei: 0, vid })
}

/// Returns the priority tag of a priority from 0 to 7: its VID is 0. None above 7.
pub fn priority_tag(pcp: u8) -> Option<Tci>
    ensures some { IfSome result (λ tag. (tag.pcp ≡ pcp) × (tag.dei ≡ 0) × (tag.vid ≡ 0)) }
    ensures none { IfNone result (7 < pcp) }
{
    if pcp > 7 {
        return None;
    }
    Some(Tci {
        pcp,
        dei: 0,
        vid: 0,
    })
}

/// Returns the digits of a type, without `0x` before them.
fn type_digits(text: &[u8]) -> &[u8]
    ensures { result.now ≡ type_digits text.now }
{
    match text {
        [b'0', b'x', digits @ ..] => digits,
        _ => text,
    }
}

/// Returns the octets of four hexadecimal digits. None for any other text.
fn two_octets(digits: &[u8]) -> Option<(u8, u8)>
    ensures some { IfSome result (λ pair. IsHex digits.now (pair.0 ∷ pair.1 ∷ [])) }
    ensures none { IfNone result ((high : ℕ) (low : ℕ) → IsHex digits.now (high ∷ low ∷ []) → ⊥) }
{
    match digits {
        [a, b, c, d] => Some((octet(*a, *b)?, octet(*c, *d)?)),
        _ => None,
    }
}

/// Reads an EtherType from four hexadecimal digits, in either case, with or without `0x` before them.
///
/// # Errors
///
/// `Digits` if the text has another form, `Length` if the number is below 0600, which is a length.
pub fn ethertype_of(text: &str) -> Result<u16, TagTextFault>
    ensures value { IfOk result (IsTypeText text.now) }
    ensures range { IfOk result (λ number. 1536 ≤ number) }
    ensures fault { IfErr result (IsTypeFault text.now) }
{
    let digits = type_digits(text.as_bytes());
    let Some((high, low)) = two_octets(digits) else {
        return Err(TagTextFault::Digits);
    };
    let number = u16::from(high) * 256 + u16::from(low);
    if number < LEAST_TYPE {
        return Err(TagTextFault::Length);
    }
    Ok(number)
}
