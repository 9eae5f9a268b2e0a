//! The script of the example `metro`, and the output.

/// The script.
pub(super) const STEPS: &str = r#"poll provider ffffffffffff02000000010108000001
feed provider
receive Centre 3
transmit Centre 1
take ring1 ab
put ring1 ab
receive Harbour 2
transmit Harbour 1
take ring2 ab
put ring2 ab
receive Lakeside 2
transmit Lakeside 3
deliver shop
transmit Lakeside 1
take ring3 ab
put ring3 ab
receive Station 2
transmit Centre 2
take ring6 ba
put ring6 ba
receive Campus 1
transmit Campus 2
take ring5 ba
put ring5 ba
receive Airport 1
transmit Airport 3
deliver hotel
transmit Airport 2
take ring4 ba
put ring4 ba
receive Station 1
poll hotel 02000000010102000000030308000002
feed hotel
receive Airport 3
transmit Airport 1
take ring5 ab
put ring5 ab
receive Campus 2
transmit Campus 1
take ring6 ab
put ring6 ab
receive Centre 2
transmit Centre 3
deliver provider
poll exchange 02000000050502000000040408000003
feed exchange
receive Centre 4
"#;

/// The whole output.
pub(super) const EXPECTED: &str = r#"polled provider 0
fed
relayed 1 2
sent ffffffffffff02000000010188a8006408000001
taken 0
put
relayed 1
sent ffffffffffff02000000010188a8006408000001
taken 0
put
relayed 1 3
sent ffffffffffff02000000010108000001
delivered ffffffffffff02000000010108000001
sent ffffffffffff02000000010188a8006408000001
taken 0
put
filtered not-forwarding
sent ffffffffffff02000000010188a8006408000001
taken 0
put
relayed 2
sent ffffffffffff02000000010188a8006408000001
taken 0
put
relayed 2 3
sent ffffffffffff02000000010108000001
delivered ffffffffffff02000000010108000001
sent ffffffffffff02000000010188a8006408000001
taken 0
put
relayed
polled hotel 0
fed
relayed 1
sent 02000000010102000000030388a8006408000002
taken 0
put
relayed 1
sent 02000000010102000000030388a8006408000002
taken 0
put
relayed 3
sent 02000000010102000000030308000002
delivered 02000000010102000000030308000002
polled exchange 0
fed
relayed 1 2
port camera entered 0 left 0 filtered 0
port desk entered 0 left 0 filtered 0
port exchange entered 1 left 0 filtered 0
port hotel entered 1 left 1 filtered 0
port office entered 0 left 0 filtered 0
port provider entered 1 left 1 filtered 0
port shop entered 0 left 1 filtered 0
link ring1 ab taken 1 lost 0 ba taken 0 lost 0
link ring2 ab taken 1 lost 0 ba taken 0 lost 0
link ring3 ab taken 1 lost 0 ba taken 0 lost 0
link ring4 ab taken 0 lost 0 ba taken 1 lost 0
link ring5 ab taken 1 lost 0 ba taken 1 lost 0
link ring6 ab taken 1 lost 0 ba taken 1 lost 0
forest yes
"#;
