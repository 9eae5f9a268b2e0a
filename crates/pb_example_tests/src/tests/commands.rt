//! Commands over any reader and writer, and captures.

use std::test::Fail;

// example of pb_cmd_flat run.rt run_flat
#[test]
fn cmd_flat_run_flat(rt: HostRuntime) -> Result<(), Fail> {
    use pb_cmd_flat::run_flat;

    let mut input = b"in 1 ffffffffffff0200000000010800\nhello\n".as_slice();
    let mut output = Vec::new(rt.alloc());
    run_flat(rt.alloc(), 2, &mut input, &mut output)?;
    let lines = b"out 2 ffffffffffff0200000000010800\nline 2: bad\n";
    assert_eq!(rt; output.as_slice(), lines.as_slice());
    Ok(())
}

// example of pb_cmd_check check.rt run_check
#[test]
fn cmd_check_run_check(rt: HostRuntime) -> Result<(), Fail> {
    use pb_cmd_check::run_check;

    let mut output = Vec::new(rt.alloc());
    let status = run_check(rt.alloc(), b"[network]\nageing = 9\n", &mut output)?;
    assert_eq!(rt; status, 1);
    let line = b"plan: 5 range network.ageing\n";
    assert_eq!(rt; output.as_slice(), line.as_slice());
    Ok(())
}

// example of pb_cmd_control commands.rt command_lines
#[test]
fn cmd_control_command_lines(rt: HostRuntime) -> Result<(), Fail> {
    use pb_cmd_control::command_lines;

    let mut arguments = Vec::new(rt.alloc());
    for word in ["down", "B1", "1", "--", "stop"] {
        arguments.push(String::from_str(rt.alloc(), word)?)?;
    }
    let lines = command_lines(rt.alloc(), &arguments)?;
    assert_eq!(rt; lines.as_slice(), b"down B1 1\nstop\n".as_slice());
    Ok(())
}

// example of pb_port capture.rt CapturePort::new
#[test]
fn capture_port_new(rt: HostRuntime) {
    use pb_port::{CapturePort, Over, Polled, Port};
    use std::io::Cursor;

    // The header of a capture of Ethernet frames, and a record of two octets.
    let capture = *b"\xd4\xc3\xb2\xa1\x02\0\x04\0\0\0\0\0\0\0\0\0\xff\xff\0\0\x01\0\0\0\
        \0\0\0\0\0\0\0\0\x02\0\0\0\x02\0\0\0AB";
    let reader = Over::new(Cursor::new(capture));
    let writer = Over::new(Cursor::new([0u8; 64]));
    let mut port = CapturePort::new(rt.alloc(), 16, reader, writer);
    assert!(rt; matches!(port.poll(), Polled::Frame(frame) if frame.len() == 2));
    assert!(rt; matches!(port.poll(), Polled::End));
}
