//! The script of the example `e-lan`, and the output.

/// The script.
pub(super) const STEPS: &str = r#"poll head-office 020000000b01020000000a010800aa
feed head-office
receive Hub 4
transmit Hub 1
take north ab
put north ab
receive North 1
transmit North 2
deliver branch-north
transmit Hub 2
take south ab
put south ab
receive South 1
transmit South 2
deliver branch-south
transmit Hub 3
take coast ab
put coast ab
receive Coast 1
transmit Coast 2
deliver branch-coast
poll branch-south 020000000a01020000000b010800bb
feed branch-south
receive South 2
transmit South 1
take south ba
put south ba
receive Hub 2
transmit Hub 4
deliver head-office
poll head-office 020000000b01020000000a010800cc
feed head-office
receive Hub 4
transmit Hub 2
take south ab
put south ab
receive South 1
transmit South 2
deliver branch-south
transmit Hub 1
transmit Hub 3
"#;

/// The whole output.
pub(super) const EXPECTED: &str = r#"polled head-office 0
fed
relayed 1 2 3
sent 020000000b01020000000a0188a801f40800aa
taken 0
put
relayed 2
sent 020000000b01020000000a010800aa
delivered 020000000b01020000000a010800aa
sent 020000000b01020000000a0188a801f40800aa
taken 0
put
relayed 2
sent 020000000b01020000000a010800aa
delivered 020000000b01020000000a010800aa
sent 020000000b01020000000a0188a801f40800aa
taken 0
put
relayed 2
sent 020000000b01020000000a010800aa
delivered 020000000b01020000000a010800aa
polled branch-south 0
fed
relayed 1
sent 020000000a01020000000b0188a801f40800bb
taken 0
put
relayed 4
sent 020000000a01020000000b010800bb
delivered 020000000a01020000000b010800bb
polled head-office 1
fed
relayed 2
sent 020000000b01020000000a0188a801f40800cc
taken 1
put
relayed 2
sent 020000000b01020000000a010800cc
delivered 020000000b01020000000a010800cc
idle
idle
port branch-coast entered 0 left 1 filtered 0
port branch-north entered 0 left 1 filtered 0
port branch-south entered 1 left 2 filtered 0
port head-office entered 2 left 1 filtered 0
link coast ab taken 1 lost 0 ba taken 0 lost 0
link north ab taken 1 lost 0 ba taken 0 lost 0
link south ab taken 2 lost 0 ba taken 1 lost 0
forest yes
"#;
