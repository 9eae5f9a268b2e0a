//! The script of the example `two-bridges`, and the output.

/// The script.
pub(super) const STEPS: &str = r#"poll C1 ffffffffffff02000000010108004142
feed C1
receive B1 2
transmit B1 1
take L1 ab
put L1 ab
receive B2 1
transmit B2 2
deliver C2
put L1 ab
take L9 ab
hop
"#;

/// The whole output.
pub(super) const EXPECTED: &str = r#"polled C1 0
fed
relayed 1
sent ffffffffffff02000000010188a8006408004142
taken 0
put
relayed 2
sent ffffffffffff02000000010108004142
delivered ffffffffffff02000000010108004142
idle
no such
line 12: bad
port C1 entered 1 left 0 filtered 0
port C2 entered 0 left 1 filtered 0
port C3 entered 0 left 0 filtered 0
link L1 ab taken 1 lost 0 ba taken 0 lost 0
forest yes
"#;
