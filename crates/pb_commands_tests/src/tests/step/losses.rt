//! The script of the example `losses`, and the output.

/// The script.
pub(super) const STEPS: &str = r#"poll sender ffffffffffff020000000101080000
feed sender
receive Near 2
poll sender ffffffffffff020000000101080001
feed sender
receive Near 2
poll sender ffffffffffff020000000101080002
feed sender
receive Near 2
transmit Near 1
take fibre ab
transmit Near 1
transmit Near 1
take fibre ab
put fibre ab
take fibre ab
put fibre ab
take fibre ab
put fibre ab
receive Far 1
receive Far 1
receive Far 1
transmit Far 2
deliver receiver
transmit Far 2
deliver receiver
"#;

/// The whole output.
pub(super) const EXPECTED: &str = r#"polled sender 0
fed
relayed 1
polled sender 1
fed
relayed 1
polled sender 2
fed
relayed 1
sent ffffffffffff02000000010188a80064080000
taken 0
sent ffffffffffff02000000010188a80064080001
sent ffffffffffff02000000010188a80064080002
idle
put
lost 1
idle
taken 2
put
relayed 2
relayed 2
idle
sent ffffffffffff020000000101080000
delivered ffffffffffff020000000101080000
sent ffffffffffff020000000101080002
delivered ffffffffffff020000000101080002
port receiver entered 0 left 2 filtered 0
port sender entered 3 left 0 filtered 0
link fibre ab taken 3 lost 1 ba taken 0 lost 0
forest yes
"#;
