//! Devices that give the records of a capture at the distances of their times.

ghost use Rattle.std.specs.Prelude.{◌≡◌, ◌<◌, ◌≤◌};

use super::device::{Fake, Manner, SINK, Seen};
use pb_port::{Device, Got};
use pb_replay::{Paced, Stopwatch};
use std::cell::Cell;
use std::process::Abort;

/// A stopwatch that returns what the test sets.
#[derive(Drop)]
struct Set<'a> {
    at: &'a Cell<Option<u64>>,
    newest: Option<u64>,
}

impl Stopwatch for Set<'_> {
    ghost newest = { λ s. s.newest };

    fn micros(&mut self) -> Option<u64> {
        self.newest = self.at.get();
        self.newest
    }
}

/// A capture, and how many of its octets a device has given by the answers of its stopwatch.
#[derive(Clone, Copy)]
struct Case {
    gives: &'static [u8],
    speed: u16,
    rows: &'static [(Option<u64>, usize)],
}

/// A capture with numbers that have the lowest octet first, and records 10 milliseconds apart.
const LITTLE: &[u8] = b"\xd4\xc3\xb2\xa1\x02\0\x04\0\0\0\0\0\0\0\0\0\xff\xff\0\0\x01\0\0\0\
    \x01\0\0\0\x30\x1b\x0f\0\x02\0\0\0\x02\0\0\0AB\
    \x02\0\0\0\0\0\0\0\x02\0\0\0\x02\0\0\0CD\
    \x02\0\0\0\x10\x27\0\0\x02\0\0\0\x02\0\0\0EF";

/// A capture of nanoseconds with the highest octet first, and records 1,000 and 999 nanoseconds apart.
const BIG: &[u8] = b"\xa1\xb2\x3c\x4d\0\x02\0\x04\0\0\0\0\0\0\0\0\0\0\xff\xff\0\0\0\x01\
    \0\0\0\x01\x3b\x9a\xc8\x0c\0\0\0\x02\0\0\0\x02AB\
    \0\0\0\x02\0\0\x01\xf4\0\0\0\x02\0\0\0\x02CD\
    \0\0\0\x02\0\0\x05\xdb\0\0\0\x02\0\0\0\x02EF";

/// A capture whose times go back by a second, and then on by a second and a microsecond.
const BACK: &[u8] = b"\xd4\xc3\xb2\xa1\x02\0\x04\0\0\0\0\0\0\0\0\0\xff\xff\0\0\x01\0\0\0\
    \x05\0\0\0\0\0\0\0\x02\0\0\0\x02\0\0\0AB\
    \x04\0\0\0\0\0\0\0\x02\0\0\0\x02\0\0\0CD\
    \x05\0\0\0\x01\0\0\0\x02\0\0\0\x02\0\0\0EF";

/// No capture that the device knows, with a record that would be late.
const OTHER: &[u8] = b"\x0a\x0d\x0d\x0a\x02\0\x04\0\0\0\0\0\0\0\0\0\xff\xff\0\0\x01\0\0\0\
    \x05\0\0\0\0\0\0\0\x02\0\0\0\x02\0\0\0AB\
    \x07\0\0\0\0\0\0\0\x02\0\0\0\x02\0\0\0CD";

/// A capture with a record that is too long and would be late.
const LONG: &[u8] = b"\xd4\xc3\xb2\xa1\x02\0\x04\0\0\0\0\0\0\0\0\0\xff\xff\0\0\x01\0\0\0\
    \x05\0\0\0\0\0\0\0\x02\0\0\0\x02\0\0\0AB\
    \x07\0\0\0\0\0\0\0\x02\0\x04\0\x02\0\x04\0CD";

/// A capture that ends within the head of a record.
const CUT: &[u8] = b"\xd4\xc3\xb2\xa1\x02\0\x04\0\0\0\0\0\0\0\0\0\xff\xff\0\0\x01\0\0\0\
    \x05\0\0\0\0\0\0\0\x02\0\0\0\x02\0\0\0AB\
    \x07\0\0\0\0\0";

const CASES: &[Case] = &[
    Case {
        gives: LITTLE,
        speed: 1,
        rows: &[
            (Some(5_000), 42),
            (Some(14_999), 42),
            (Some(15_000), 60),
            (Some(24_999), 60),
            (Some(25_000), 78),
        ],
    },
    Case {
        gives: LITTLE,
        speed: 10,
        rows: &[
            (Some(0), 42),
            (Some(999), 42),
            (Some(1_000), 60),
            (Some(1_999), 60),
            (Some(2_000), 78),
        ],
    },
    Case {
        gives: LITTLE,
        speed: 1_000,
        rows: &[
            (Some(7), 42),
            (Some(16), 42),
            (Some(17), 60),
            (Some(27), 78),
        ],
    },
    Case {
        gives: BIG,
        speed: 1,
        rows: &[(Some(0), 42), (Some(1), 60), (Some(2), 78)],
    },
    Case {
        gives: BACK,
        speed: 1,
        rows: &[(Some(7), 60), (Some(8), 78)],
    },
    Case {
        gives: LITTLE,
        speed: 1,
        rows: &[(None, 78)],
    },
    Case {
        gives: LITTLE,
        speed: 1,
        rows: &[(Some(3), 42), (None, 78)],
    },
    Case {
        gives: OTHER,
        speed: 1,
        rows: &[(Some(3), 60)],
    },
    Case {
        gives: LONG,
        speed: 1,
        rows: &[(Some(3), 60)],
    },
    Case {
        gives: CUT,
        speed: 1,
        rows: &[(Some(3), 48)],
    },
    Case {
        gives: b"\xd4\xc3",
        speed: 1,
        rows: &[(Some(3), 2)],
    },
    Case {
        gives: b"",
        speed: 1,
        rows: &[(Some(3), 0)],
    },
];

/// Reads from a device 200 times, and returns how many octets it gave, after this many before. `None` if they are not
/// those of the capture.
fn read_on<D: Device>(device: &mut D, capture: &[u8], before: usize, size: usize) -> Option<usize> {
    let mut total = before;
    for _ in 0..200 {
        let mut buf = [0; 40];
        let got = device.read(&mut buf[..size.min(40)]);
        if let Got::Moved(count) = got {
            let end = total.checked_add(count)?;
            if capture.get(total..end)? != buf.get(..count)? {
                return None;
            }
            total = end;
        }
    }
    Some(total)
}

/// Checks that a device gives as many octets as the rows say, when it reads `step` octets per call, and is read by
/// `size`.
fn check(rt: &impl Abort, case: &Case, step: usize, size: usize, waits: bool)
    requires { (0 < case.now.speed) × (case.now.speed ≤ 1000) }
{
    let (seen, at) = (Seen::new(&[]), Cell::new(None));
    let manner = Manner {
        gives: case.gives,
        step,
        waits,
        ..SINK
    };
    let clock = Set {
        at: &at,
        newest: None,
    };
    let mut device = Paced::new(Fake::new(manner, &seen), clock, case.speed);
    let mut total = 0;
    for (now, wanted) in case.rows {
        at.set(*now);
        match read_on(&mut device, case.gives, total, size) {
            Some(sum) => total = sum,
            None => assert!(rt; false, "other octets"),
        }
        assert_eq!(rt; total, *wanted, "at {now:?}, {step} by {size}");
    }
}

#[test]
fn records_come_when_they_are_due(rt: HostRuntime) {
    for case in CASES {
        let case = *case;
        if 0 < case.speed && case.speed <= 1_000 {
            for (step, size, waits) in [
                (1, 1, false),
                (1, 40, true),
                (5, 7, false),
                (40, 40, false),
                (1_000, 3, true),
            ] {
                check(&rt, &case, step, size, waits);
            }
        }
    }
}

#[test]
fn nothing_is_held_back_at_once(rt: HostRuntime) {
    let (seen, at) = (Seen::new(&[]), Cell::new(Some(0)));
    let manner = Manner {
        gives: LITTLE,
        ..SINK
    };
    let clock = Set {
        at: &at,
        newest: None,
    };
    let mut device = Paced::at_once(Fake::new(manner, &seen), clock);
    assert_eq!(rt; read_on(&mut device, LITTLE, 0, 40), Some(78));
    assert_eq!(rt; device.write(b"AB"), Got::Moved(2));
    assert_eq!(rt; device.failures(), 0);
}
