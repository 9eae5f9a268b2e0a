//! Station addresses.

ghost use Rattle.std.specs.Prelude.{◌≡◌, ◌+◌, ◌*◌, string_bytes, IfOk, IfSome, IfNone, ℕ, List};
ghost use Rattle.pb_frame.specs.Frames.{is_group};
ghost use Rattle.pb_frame.specs.Hex.{IsMacText, mac_text};

use crate::hex::{octet, put_upper};
use crate::memory::Memory;
use std::alloc::Global;

/// The address of a station or of a group of stations (IEEE 802.3 clause 3).
#[derive(Clone, Copy, Debug, PartialEq, Eq, PartialOrd, Ord, Hash)]
pub struct Mac(pub [u8; 6]);

impl Mac {
    /// Reads six pairs of hexadecimal digits, in either case, with hyphens between them. Returns `None` for any other
    /// text. Allocates nothing.
    pub fn read(text: &str) -> Option<Mac>
        ensures found { IfSome result (λ m. IsMacText text.now m.0) }
        ensures none { IfNone result ((octets : List ℕ) → IsMacText text.now octets → ⊥) }
    {
        let digits = text.as_bytes();
        if digits.len() != 17 {
            return None;
        }
        for k in 0..5usize {
            if digits[3 * k + 2] != b'-' {
                return None;
            }
        }
        let mut octets = [0u8; 6];
        for i in 0..6usize {
            octets[i] = octet(digits[3 * i], digits[3 * i + 1])?;
        }
        Some(Mac(octets))
    }

    /// Checks whether it is a group address: whether the lowest bit of its first octet is set (IEEE 802.3 clause
    /// 3.2.3).
    #[inline(always)]
    pub fn is_group(&self) -> bool
        ensures { result ≡ is_group self.now.0 }
    {
        self.0[0] % 2 == 1
    }

    /// Returns six pairs of hexadecimal digits in upper case, with hyphens between them.
    ///
    /// # Errors
    ///
    /// `Memory` if an allocation failed.
    pub fn text(&self, alloc: Global) -> Result<String, Memory>
        ensures { IfOk result (λ text. string_bytes text ≡ mac_text self.now.0) }
    {
        let mut text = String::new(alloc);
        put_upper(&mut text, self.0[0])?;
        for octet in &self.0[1..] {
            text.push('-')?;
            put_upper(&mut text, *octet)?;
        }
        Ok(text)
    }
}
