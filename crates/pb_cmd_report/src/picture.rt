//! The picture of the network with nothing down.

ghost use Rattle.std.specs.Prelude.{◌≡◌, ◌++◌, List, ℕ, string_bytes, OnOk};
ghost use Rattle.pb_lan.specs.Plans.{IsSound};
ghost use Rattle.pb_cmd_report.specs.Changes.{none_failed, IsCalmPicture};

use crate::analysis::Analysis;
use pb_cmd_draw::{Failures, Rooms, put_svg, scene_of};
use pb_frame::{Memory, Seq};
use pb_lan::Plan;
use std::alloc::Global;

/// Returns that nothing has failed.
fn none_failed(alloc: Global) -> Failures
    ensures { result ≡ none_failed }
{
    Failures {
        bridges: Seq::from_vec(Vec::new(alloc)),
        links: Seq::from_vec(Vec::new(alloc)),
    }
}

/// Appends the picture of a network from its analysis with nothing down.
pub(crate) fn put_picture(
    alloc: Global,
    out: &mut String,
    plan: &Plan,
    base: &Analysis,
) -> Result<(), Memory>
    requires { IsSound plan.now }
    ensures { OnOk result ((text : List ℕ) × (string_bytes out.new ≡ string_bytes out.old ++ text)
        × IsCalmPicture plan.now base.now text) }
{
    let failed = none_failed(alloc);
    let rooms = Rooms {
        links: &[],
        ports: 0,
    };
    let scene = scene_of(alloc, plan, &base.shape, None, &failed, rooms)?;
    put_svg(alloc, out, plan, false, &scene)
}
