//! The script of the example `failover`, and the output.

/// The script.
pub(super) const STEPS: &str = r#"tick B1
transmit B1 1
take L1 ab
put L1 ab
receive B2 1
transmit B1 3
take L2 ab
put L2 ab
receive B2 3
transmit B2 1
take L1 ba
put L1 ba
receive B1 1
transmit B2 3
take L2 ba
put L2 ba
receive B1 3
transmit B1 1
take L1 ab
put L1 ab
receive B2 1
transmit B1 3
take L2 ab
put L2 ab
receive B2 3
transmit B1 1
transmit B1 3
transmit B2 1
transmit B2 3
poll C1 ffffffffffff02000000010108004142
feed C1
receive B1 2
transmit B1 1
take L1 ab
put L1 ab
receive B2 1
transmit B2 2
deliver C2
transmit B1 3
take L2 ab
put L2 ab
receive B2 3
admin B1 1 down
admin B2 1 down
poll C1 ffffffffffff02000000010108004142
feed C1
receive B1 2
transmit B1 1
transmit B1 3
take L2 ab
put L2 ab
receive B2 3
transmit B2 2
deliver C2
"#;

/// The whole output.
pub(super) const EXPECTED: &str = r#"ticked
sent 0180c20000080200000000010027424203000002020e800002000000000100000000800002000000000180010000140002000f0000
taken 0
put
heard
sent 0180c20000080200000000010027424203000002020e800002000000000100000000800002000000000180030000140002000f0000
taken 0
put
heard
sent 0180c200000802000000000200274242030000020279800002000000000100004e20800002000000000280010100140002000f0000
taken 0
put
heard
sent 0180c200000802000000000200274242030000020245800002000000000100004e20800002000000000280030100140002000f0000
taken 0
put
heard
sent 0180c20000080200000000010027424203000002023d800002000000000100000000800002000000000180010000140002000f0000
taken 1
put
heard
sent 0180c20000080200000000010027424203000002020f800002000000000100000000800002000000000180030000140002000f0000
taken 1
put
heard
idle
idle
idle
sent 0180c200000802000000000200274242030000020245800002000000000100004e20800002000000000280030100140002000f0000
polled C1 0
fed
relayed 1 3
sent ffffffffffff02000000010188a8006408004142
taken 2
put
relayed 2
sent ffffffffffff02000000010108004142
delivered ffffffffffff02000000010108004142
sent ffffffffffff02000000010188a8006408004142
taken 2
put
filtered not-forwarding
set
set
polled C1 1
fed
relayed 3
idle
sent ffffffffffff02000000010188a8006408004142
taken 3
put
relayed 2
sent ffffffffffff02000000010108004142
delivered ffffffffffff02000000010108004142
port C1 entered 2 left 0 filtered 0
port C2 entered 0 left 2 filtered 0
link L1 ab taken 3 lost 0 ba taken 1 lost 0
link L2 ab taken 4 lost 0 ba taken 1 lost 0
forest yes
settled yes
"#;
