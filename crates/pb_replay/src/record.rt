//! The heads of a capture's records.

ghost use Rattle.std.specs.Prelude.{◌≡◌, ◌+◌, ◌≤◌, ◌<◌, ◌^◌, length};
ghost use Rattle.pb_replay.specs.Records.{number_at, format_of, captured_in, time_in, unit_of};

/// The order of the octets of a number.
#[derive(Clone, Copy)]
pub(crate) enum ByteOrder {
    /// The highest octet comes first.
    Big,
    /// The lowest octet comes first.
    Little,
}

/// The unit of the part of a time below a second.
#[derive(Clone, Copy)]
pub(crate) enum Fraction {
    Micros,
    Nanos,
}

/// The format of the heads of a capture's records.
#[derive(Clone, Copy)]
pub(crate) struct Format {
    pub order: ByteOrder,
    pub fraction: Fraction,
}

/// Returns the number in the four octets from the index `at` on.
fn number_at(order: ByteOrder, octets: &[u8], at: usize) -> u32
    requires { at + 4 ≤ length octets.now }
    ensures { result ≡ number_at order octets.now at }
{
    let first = u32::from(octets[at]);
    let second = u32::from(octets[at + 1]);
    let third = u32::from(octets[at + 2]);
    let fourth = u32::from(octets[at + 3]);
    match order {
        ByteOrder::Big => 16_777_216 * first + 65_536 * second + 256 * third + fourth,
        ByteOrder::Little => first + 256 * second + 65_536 * third + 16_777_216 * fourth,
    }
}

/// Returns the format that the magic number at the front of a capture's header tells, if it is known.
pub(crate) fn format_of(header: &[u8]) -> Option<Format>
    requires { 4 ≤ length header.now }
    ensures { result ≡ format_of header.now }
{
    let (order, fraction) = match number_at(ByteOrder::Big, header, 0) {
        0xA1B2_C3D4 => (ByteOrder::Big, Fraction::Micros),
        0xA1B2_3C4D => (ByteOrder::Big, Fraction::Nanos),
        0xD4C3_B2A1 => (ByteOrder::Little, Fraction::Micros),
        0x4D3C_B2A1 => (ByteOrder::Little, Fraction::Nanos),
        _ => return None,
    };
    Some(Format { order, fraction })
}

/// Returns the number of octets that follow the head of a record.
pub(crate) fn captured_in(format: Format, head: &[u8]) -> u32
    requires { 16 ≤ length head.now }
    ensures { result ≡ captured_in format head.now }
{
    number_at(format.order, head, 8)
}

/// Returns the nanoseconds of such a unit.
fn unit_of(fraction: Fraction) -> u64
    ensures value { result ≡ unit_of fraction }
    ensures most { result ≤ 1000 }
{
    match fraction {
        Fraction::Micros => 1_000,
        Fraction::Nanos => 1,
    }
}

/// Returns the time of a record, in nanoseconds since 1970.
pub(crate) fn time_in(format: Format, head: &[u8]) -> u64
    requires { 16 ≤ length head.now }
    ensures { result ≡ time_in format head.now }
{
    let seconds = u64::from(number_at(format.order, head, 0));
    let part = u64::from(number_at(format.order, head, 4));
    seconds * 1_000_000_000 + part * unit_of(format.fraction)
}
