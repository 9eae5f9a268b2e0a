//! The script of the example `parallel`, and the output.

/// The script.
pub(super) const STEPS: &str = r#"poll red-left ffffffffffff0200000001010800aa
feed red-left
receive Left 3
transmit Left 1
take upper ab
put upper ab
receive Right 1
transmit Right 3
deliver red-right
poll blue-right ffffffffffff0200000002020800bb
feed blue-right
receive Right 4
transmit Right 2
take lower ba
put lower ba
receive Left 2
transmit Left 4
deliver blue-left
admin Left 1 down
poll red-left ffffffffffff0200000001010800cc
feed red-left
receive Left 3
"#;

/// The whole output.
pub(super) const EXPECTED: &str = r#"polled red-left 0
fed
relayed 1
sent ffffffffffff02000000010188a800640800aa
taken 0
put
relayed 3
sent ffffffffffff0200000001010800aa
delivered ffffffffffff0200000001010800aa
polled blue-right 0
fed
relayed 2
sent ffffffffffff02000000020288a800c80800bb
taken 0
put
relayed 4
sent ffffffffffff0200000002020800bb
delivered ffffffffffff0200000002020800bb
set
polled red-left 1
fed
relayed
port blue-left entered 0 left 1 filtered 0
port blue-right entered 1 left 0 filtered 0
port red-left entered 2 left 0 filtered 0
port red-right entered 0 left 1 filtered 0
link lower ab taken 0 lost 0 ba taken 1 lost 0
link upper ab taken 1 lost 0 ba taken 0 lost 0
forest yes
"#;
