//! Lines that bring a frame to a port.

ghost use Rattle.std.specs.Prelude.{◌≡◌, ◌≤◌, ℕ, List, IfSome, IfNone};
ghost use Rattle.pb_frame.specs.Hex.{IsHex};
ghost use Rattle.pb_cmd_flat.specs.Words.{IsFrameLine};

use pb_messages::{cut, read_port};

/// The port at which the frame of a line enters, and the rest of the line: the hexadecimal digits of the frame, if it
/// is digits.
#[derive(Clone, Copy)]
pub(crate) struct Handed<'a> {
    pub port: u8,
    pub digits: &'a [u8],
}

/// Reads the line `in PORT HEX`, without the digits of HEX.
///
/// The parts are separated by one space each. PORT is a decimal number from 1 to `ports` without leading zeros. HEX is
/// not empty. Returns `None` for any other line and for a line of more than `limit` octets.
pub(crate) fn read_frame_line<'a>(limit: usize, ports: u8, line: &'a [u8]) -> Option<Handed<'a>>
    ensures some { IfSome result (λ h. (frame : List ℕ) → IsHex h.digits.now frame →
        IsFrameLine limit ports line.now h.port frame) }
    ensures first { IfSome result (λ h. (1 ≤ h.port) × (h.port ≤ ports)) }
    ensures only { IfSome result (λ h. (port : ℕ) (frame : List ℕ) →
        IsFrameLine limit ports line.now port frame → IsHex h.digits.now frame) }
    ensures none { IfNone result ((port : ℕ) (frame : List ℕ) → IsFrameLine limit ports line.now port frame → ⊥) }
{
    if line.len() > limit || !line.starts_with(b"in ") {
        return None;
    }
    let Some((digits, hex)) = cut(&line[3..]) else {
        return None;
    };
    let Some(port) = read_port(digits) else {
        return None;
    };
    if port > u16::from(ports) {
        return None;
    }
    if hex.is_empty() {
        return None;
    }
    Some(Handed {
        port: port as u8,
        digits: hex,
    })
}
