//! Tests of how much memory a reader of lines takes, which no public call shows.

use super::*;
use std::io;
use std::io::Read;
use std::test::Fail;

/// A reader that repeats one octet.
#[derive(Drop)]
struct Same {
    octet: u8,
    left: usize,
}

impl Read for Same {
    fn read(&mut self, buf: &mut [u8]) -> io::Result<usize> {
        let n = self.left.min(buf.len());
        for place in &mut buf[..n] {
            *place = self.octet;
        }
        self.left -= n;
        Ok(n)
    }
}

/// Checks that the buffer of a line of 50,000,000 octets stays below 5,000 octets.
#[test]
fn holds_little_of_a_long_line(rt: HostRuntime) -> Result<(), Fail> {
    let mut reader = Same {
        octet: b'0',
        left: 50_000_000,
    };
    let mut lines = LineReader::new(rt.alloc(), 1000)?;
    assert_eq!(rt; lines.next(&mut reader), Ok(Found::Last));
    assert!(rt; lines.line().len() == 1001);
    assert!(rt; lines.line.capacity() < 5000);
    assert_eq!(rt; lines.next(&mut reader), Ok(Found::End));
    Ok(())
}
