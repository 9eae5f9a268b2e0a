//! The laws of pb_standstill are called.

use pb_standstill::{no_standstill, nothing_waits_or_moves};

#[test]
fn laws_stand() {
    no_standstill();
    nothing_waits_or_moves();
}
