//! The example `settling`, as in its three files.

/// The plan file.
pub(super) const PLAN: &str =
    r#"# Two bridges that decide their own spanning tree. B1 has the lower address, so it becomes the root.

[network]
spanning = "rstp"
tick_ms = 10

[[bridge]]
name = "B1"
address = "02-00-00-00-00-01"

[[bridge]]
name = "B2"
address = "02-00-00-00-00-02"

[[link]]
name = "L1"
a = "B1"
a_port = 1
b = "B2"
b_port = 1

[[service]]
name = "red"
vid = 100

[[port]]
name = "C1"
bridge = "B1"
port = 2
service = "red"

[[port]]
name = "C2"
bridge = "B2"
port = 2
service = "red"
"#;

/// The script.
pub(super) const STEPS: &str = r#"poll C1 ffffffffffff02000000010108004142
feed C1
receive B1 2
tick B1
transmit B1 1
take L1 ab
put L1 ab
receive B2 1
transmit B2 1
take L1 ba
put L1 ba
receive B1 1
transmit B1 1
take L1 ab
put L1 ab
receive B2 1
transmit B2 1
poll C1 ffffffffffff02000000010108004142
feed C1
receive B1 2
transmit B1 1
take L1 ab
put L1 ab
receive B2 1
transmit B2 2
deliver C2
"#;

/// The whole output.
pub(super) const EXPECTED: &str = r#"polled C1 0
fed
relayed
ticked
sent 0180c20000080200000000010027424203000002020e800002000000000100000000800002000000000180010000140002000f0000
taken 0
put
heard
sent 0180c200000802000000000200274242030000020279800002000000000100004e20800002000000000280010100140002000f0000
taken 0
put
heard
sent 0180c20000080200000000010027424203000002023d800002000000000100000000800002000000000180010000140002000f0000
taken 1
put
heard
idle
polled C1 1
fed
relayed 1
sent ffffffffffff02000000010188a8006408004142
taken 2
put
relayed 2
sent ffffffffffff02000000010108004142
delivered ffffffffffff02000000010108004142
port C1 entered 2 left 0 filtered 0
port C2 entered 0 left 1 filtered 0
link L1 ab taken 3 lost 0 ba taken 1 lost 0
forest yes
settled yes
"#;
