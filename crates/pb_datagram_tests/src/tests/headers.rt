//! The octets of VXLAN headers, by the figure of RFC 7348 section 5.

use pb_datagram::{Refusal, SystemError, Vni, read_header, write_header};
use std::test::Fail;

/// The network 0x123456.
const NETWORK: Vni = Vni { number: 0x12_3456 };

/// The greatest network.
const GREATEST: Vni = Vni { number: 0xff_ffff };

#[test]
fn writes_the_flag_and_the_network(rt: HostRuntime) {
    assert_eq!(rt; write_header(NETWORK), [0x08, 0, 0, 0, 0x12, 0x34, 0x56, 0]);
    assert_eq!(rt;
        write_header(GREATEST),
        [0x08, 0, 0, 0, 0xff, 0xff, 0xff, 0]
    );
}

/// Datagrams, and the numbers of the networks that their headers name.
const HEADERS: &[(&[u8], Result<u32, Refusal>)] = &[
    (&[0x08, 0, 0, 0, 0x12, 0x34, 0x56, 0], Ok(0x12_3456)),
    (&[0x08, 0, 0, 0, 0, 0, 0, 0, 9, 9], Ok(0)),
    (&[0xff, 1, 2, 3, 0x12, 0x34, 0x56, 0xff], Ok(0x12_3456)),
    (
        &[0xf7, 0xff, 0xff, 0xff, 0x12, 0x34, 0x56, 0xff],
        Err(Refusal::UnsetFlag),
    ),
    (
        &[0x08, 0, 0, 0, 0x12, 0x34, 0x56],
        Err(Refusal::ShortHeader),
    ),
    (&[], Err(Refusal::ShortHeader)),
];

#[test]
fn reads_the_flag_and_the_network_alone(rt: HostRuntime) {
    for (octets, wanted) in HEADERS {
        let read = read_header(octets).map(|vni| vni.number);
        assert_eq!(rt; read, *wanted);
    }
}

/// The reasons, and their texts.
const REASONS: &[(Refusal, &str)] = &[
    (
        Refusal::OtherSender,
        "the datagram comes from another address",
    ),
    (
        Refusal::ShortHeader,
        "the datagram is shorter than a VXLAN header",
    ),
    (
        Refusal::UnsetFlag,
        "the I flag of the VXLAN header is not set",
    ),
    (
        Refusal::OtherNetwork,
        "the datagram is of another VXLAN network",
    ),
    (
        Refusal::ShortFrame,
        "the datagram is shorter than an Ethernet header",
    ),
];

#[test]
fn prints_reasons(rt: HostRuntime) -> Result<(), Fail> {
    for (reason, wanted) in REASONS {
        let text = format!(in rt.alloc(); "{reason}")?;
        assert_eq!(rt; text.as_str(), *wanted);
    }
    let text = format!(in rt.alloc(); "{}", SystemError { number: 90 })?;
    assert_eq!(rt; text.as_str(), "Message too long (os error 90)");
    Ok(())
}
