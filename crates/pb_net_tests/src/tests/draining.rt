//! Whether a frame is on its way, from one customer port of a bridge to another.

use super::records::{Done, FrameAction, Piece, tallies_of};
use pb_forest::is_drained;
use pb_frame::Memory;
use pb_lan::NoRoom;
use std::alloc::Global;
use std::test::Fail;

const FRAME: Piece = (0, &[7]);

/// The actions of a bridge and its two customer ports, and whether nothing is on its way.
const ROWS: &[(Done, bool)] = &[
    (
        Done {
            bridges: &[&[]],
            lanes: &[],
            customers: &[&[], &[]],
        },
        true,
    ),
    // in hand
    (
        Done {
            bridges: &[&[]],
            lanes: &[],
            customers: &[&[FrameAction::Poll(FRAME)], &[]],
        },
        false,
    ),
    // in a queue
    (
        Done {
            bridges: &[&[FrameAction::Receive(2, FRAME, 3, &[])]],
            lanes: &[],
            customers: &[&[FrameAction::Poll(FRAME), FrameAction::Feed(FRAME)], &[]],
        },
        false,
    ),
    // its copy was refused
    (
        Done {
            bridges: &[&[FrameAction::Receive(2, FRAME, 3, &[(3, NoRoom::Full)])]],
            lanes: &[],
            customers: &[&[FrameAction::Poll(FRAME), FrameAction::Feed(FRAME)], &[]],
        },
        true,
    ),
    // it left
    (
        Done {
            bridges: &[&[
                FrameAction::Receive(2, FRAME, 3, &[]),
                FrameAction::Transmit(3, FRAME),
            ]],
            lanes: &[],
            customers: &[
                &[FrameAction::Poll(FRAME), FrameAction::Feed(FRAME)],
                &[FrameAction::Deliver(FRAME)],
            ],
        },
        true,
    ),
];

fn is_told(alloc: Global, done: &Done, wanted: bool) -> Result<bool, Memory> {
    let counts = tallies_of(alloc, done)?;
    Ok(is_drained(&counts) == wanted)
}

#[test]
fn a_record_tells_whether_a_frame_is_on_its_way(rt: HostRuntime) -> Result<(), Fail> {
    for (number, (done, wanted)) in ROWS.iter().enumerate() {
        assert!(rt; is_told(rt.alloc(), done, *wanted)?, "row {number}");
    }
    Ok(())
}
