//! The traces of frames after links, bridges and ports are disabled.

use super::{BROADCAST, Row, is_told, plans};
use pb_cmd_trace::{DownFault, TraceEnd};
use std::test::Fail;

/// L1 is disabled, and the bridges converge over L2, as in a plan without L1.
const FAILED_OVER: &str = "\
converged ticks 2
in ffffffffffff02000000010108004142: polled C1 0
  B1 2 from C1, red vid 100 priority 0, source learnt, flooded: relayed 3
    B1 3 to L2, tag 88a80064 added
    L2 ab: taken 4
    B2 3 from L2, red vid 100 priority 0, source learnt, flooded: relayed 2
      B2 2 to C2, tag removed
      C2: delivered ffffffffffff02000000010108004142
delivered at C2; dropped 0; refused 0; lost 0
";

/// The bridges have ticked once. They are prompt: L1 forwards already, but convergence takes two ticks in a row.
const TOO_FEW_TICKS: &str = "\
not converged ticks 1
in ffffffffffff02000000010108004142: polled C1 0
  B1 2 from C1, red vid 100 priority 0, source learnt, flooded: relayed 1 3
    B1 1 to L1, tag 88a80064 added
    L1 ab: taken 3
    B2 1 from L1, red vid 100 priority 0, source learnt, flooded: relayed 2
      B2 2 to C2, tag removed
      C2: delivered ffffffffffff02000000010108004142
    B1 3 to L2, tag 88a80064 added
    L2 ab: taken 3
    B2 3 from L2, red vid 100 priority 0: dropped: not-forwarding
delivered at C2; dropped 1; refused 0; lost 0
";

/// The plan gives the states, and the only link is disabled at B1.
const CUT_OFF: &str = "\
in ffffffffffff02000000010108004142: polled C1 0
  B1 2 from C1, red vid 100 priority 0, source learnt: dropped: no-port
not delivered; dropped 1; refused 0; lost 0
";

/// The only link is disabled at B2 alone: B1 sends a copy, and B2 drops it.
const HALF_CUT_OFF: &str = "\
in ffffffffffff02000000010108004142: polled C1 0
  B1 2 from C1, red vid 100 priority 0, source learnt, flooded: relayed 1
    B1 1 to L1, tag 88a80064 added
    L1 ab: taken 0
    B2 1 from L1, red vid 100 priority 0: dropped: not-forwarding
not delivered; dropped 1; refused 0; lost 0
";

/// The names to disable, and the row.
type DownRow<'a> = (&'a [&'a str], Row<'a>);

#[test]
fn failures_come_first(rt: HostRuntime) -> Result<(), Fail> {
    const FRAMES: &[(&str, &str)] = &[("C1", BROADCAST)];
    const ROWS: &[DownRow] = &[
        (
            &["L1"],
            (
                pb_fakes::plans::FAILOVER,
                FRAMES,
                Some(200),
                TraceEnd::Told,
                FAILED_OVER,
            ),
        ),
        (
            &[],
            (
                plans::WITHOUT_L1,
                FRAMES,
                Some(200),
                TraceEnd::Told,
                FAILED_OVER,
            ),
        ),
        (
            &["B1:1", "B2:1"],
            (
                pb_fakes::plans::FAILOVER,
                FRAMES,
                Some(2),
                TraceEnd::Told,
                FAILED_OVER,
            ),
        ),
        (
            &[],
            (
                pb_fakes::plans::FAILOVER,
                FRAMES,
                Some(1),
                TraceEnd::Told,
                TOO_FEW_TICKS,
            ),
        ),
        (&["L1"], (plans::TWO, FRAMES, None, TraceEnd::Told, CUT_OFF)),
        (
            &["B2"],
            (plans::TWO, FRAMES, Some(200), TraceEnd::Told, CUT_OFF),
        ),
        (
            &["B1:1"],
            (plans::TWO, FRAMES, None, TraceEnd::Told, CUT_OFF),
        ),
        (
            &["B2:1"],
            (plans::TWO, FRAMES, None, TraceEnd::Told, HALF_CUT_OFF),
        ),
        (
            &["L1", "L2"],
            (
                plans::TWO,
                FRAMES,
                None,
                TraceEnd::NoDown(DownFault::Unknown(1)),
                "",
            ),
        ),
        (
            &["C1"],
            (
                plans::TWO,
                &[("C9", BROADCAST)],
                None,
                TraceEnd::NoDown(DownFault::Unknown(0)),
                "",
            ),
        ),
        (
            &["L1"],
            (
                "bridges = []",
                FRAMES,
                None,
                TraceEnd::Refused,
                "plan: 6 unknown bridges\n",
            ),
        ),
    ];
    for (number, (downs, row)) in ROWS.iter().enumerate() {
        is_told(&rt, rt.alloc(), number, row, downs)?;
    }
    Ok(())
}
