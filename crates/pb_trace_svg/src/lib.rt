//! A trace as a picture: the network as `draw` shows it, and over it the way of each frame, hop by hop, as SVG.
//! It builds on pb_cmd_trace (the trace) and pb_cmd_draw (the picture of the network).
//! Begin reading at `picture.rt`, [`run_trace_svg`], then `hops.rt` and `svg_hops.rt`.
#![tactic(auto)]

mod hops;
mod marks;
mod picture;
mod spots;
mod style;
mod svg_hops;
mod words;

pub use hops::{Cause, Hop, Tag};
pub use marks::HopMark;
pub use pb_cmd_trace::{Asked, DownFault, Entry, TraceEnd};
pub use picture::run_trace_svg;
