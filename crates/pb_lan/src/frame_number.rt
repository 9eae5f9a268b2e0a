//! Numbers of frames.

ghost use Rattle.std.specs.Prelude.{◌≡◌, nat_eq};
ghost use Rattle.std.specs.Cmp.{nat_eq_equiv, partial_equiv_from_equiv};

use std::fmt;
use std::marker::Model;

/// The number of a frame among those of its customer port. The first is 0.
///
/// The eight octets need no alignment, which avoids padding in an item. Contracts see the number.
#[derive(Clone, Copy)]
pub struct FrameNumber([u8; 8]);

impl Model for FrameNumber {
    ghost use Rattle.std.specs.Prelude.{ℕ, ◌≡◌, ◌<◌, length, slice_index, refl};
    ghost use Rattle.std.proofs.Common.{ap};
    ghost use Rattle.std.specs.Int.{w64, from_le_bytes, to_le_bytes};
    ghost use Rattle.std.proofs.lemmas.Nat.{le_bytes_8};

    ghost Value = { ℕ };

    ghost view = { λ n. from_le_bytes w64 n.0 };

    ghost invariant = { λ n. (length n.0 ≡ 8) × ((i : ℕ) → slice_index n.0 i < 256) };

    ghost inverse = { λ n. record { 0 = to_le_bytes w64 n } };

    ghost inverse_ok = { λ n h.
        ap (λ octets. record { 0 = octets }) (le_bytes_8 n.0 (from_le_bytes w64 n.0) h.0 h.1 refl) };
}

impl FrameNumber {
    /// Returns a frame number of this value.
    pub fn new(number: u64) -> FrameNumber
        ensures { result ≡ number }
    {
        FrameNumber(number.to_le_bytes())
    }

    /// Returns the value as an integer.
    pub fn get(self) -> u64
        ensures { result ≡ self }
    {
        u64::from_le_bytes(self.0)
    }
}

/// Compares the values.
impl PartialEq for FrameNumber {
    ghost eq = { nat_eq };

    ghost laws = { partial_equiv_from_equiv nat_eq_equiv };

    fn eq(&self, other: &Self) -> bool {
        self.get() == other.get()
    }
}

impl Eq for FrameNumber {
    ghost laws = { nat_eq_equiv };
}

/// Formats the value.
impl fmt::Debug for FrameNumber {
    fn fmt<W: fmt::Write>(&self, f: &mut fmt::Formatter<W>) -> fmt::Result {
        fmt::Debug::fmt(&self.get(), f)
    }
}
