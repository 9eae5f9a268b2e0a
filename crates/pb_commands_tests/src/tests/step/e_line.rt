//! The script of the example `e-line`, and the output.

/// The script.
pub(super) const STEPS: &str = r#"poll plant 0180c2000000020000000101000742420300000080
feed plant
receive West 2
transmit West 1
take trunk ab
put trunk ab
receive East 1
transmit East 2
deliver warehouse
poll warehouse ffffffffffff0200000002028100200508004142
feed warehouse
receive East 2
transmit East 1
take trunk ba
put trunk ba
receive West 1
transmit West 2
deliver plant
poll plant 0180c200000e02000000010188cc0207
feed plant
receive West 2
poll plant ffffffffffff02000000010188a800640800
feed plant
receive West 2
"#;

/// The whole output.
pub(super) const EXPECTED: &str = r#"polled plant 0
fed
relayed 1
sent 0180c200000002000000010188a803e8000742420300000080
taken 0
put
relayed 2
sent 0180c2000000020000000101000742420300000080
delivered 0180c2000000020000000101000742420300000080
polled warehouse 0
fed
relayed 1
sent ffffffffffff02000000020288a803e88100200508004142
taken 0
put
relayed 2
sent ffffffffffff0200000002028100200508004142
delivered ffffffffffff0200000002028100200508004142
polled plant 1
fed
filtered reserved-14
polled plant 2
fed
filtered s-tagged
port plant entered 3 left 1 filtered 2
port warehouse entered 1 left 1 filtered 0
link trunk ab taken 1 lost 0 ba taken 1 lost 0
forest yes
"#;
