//! The style sheet and the arrows of hops in an SVG picture.

/// The style sheet and the arrows. The arrow `hop-ab` is at the end of a link's line, and `hop-ba` at its start. The
/// colours follow the reader's choice of light or dark, as those of the picture of the network do.
pub(crate) const HOP_STYLE: &str = "\
<style>\n\
.way { fill: none; stroke: #0969da; stroke-width: 3 }\n\
.way.lost { stroke: #cf222e; stroke-dasharray: 3 4 }\n\
.hop path { fill: none; stroke: #cf222e; stroke-width: 3 }\n\
.hop.in path, .hop.out path { fill: #ffffff; stroke: #0969da; stroke-width: 1.5 }\n\
.hop rect { fill: #ffffff }\n\
.hop text { font-size: 10px; fill: #0550ae }\n\
.hop.dropped text, .hop.lost text, .hop.gone text { fill: #cf222e }\n\
.arrow { fill: #0969da; stroke: none }\n\
@media (prefers-color-scheme: dark) {\n\
.way { stroke: #4493f8 }\n\
.way.lost, .hop path { stroke: #ff7b72 }\n\
.hop.in path, .hop.out path { fill: #0d1117; stroke: #4493f8 }\n\
.hop rect { fill: #0d1117 }\n\
.hop text { fill: #79c0ff }\n\
.hop.dropped text, .hop.lost text, .hop.gone text { fill: #ff7b72 }\n\
.arrow { fill: #4493f8 }\n\
}\n\
</style>\n\
<defs>\n\
<marker id=\"hop-ab\" viewBox=\"0 0 10 10\" refX=\"14\" refY=\"5\" markerWidth=\"12\" markerHeight=\"12\" \
markerUnits=\"userSpaceOnUse\" orient=\"auto\"><path class=\"arrow\" d=\"M0 0l10 5l-10 5z\"/></marker>\n\
<marker id=\"hop-ba\" viewBox=\"0 0 10 10\" refX=\"-4\" refY=\"5\" markerWidth=\"12\" markerHeight=\"12\" \
markerUnits=\"userSpaceOnUse\" orient=\"auto\"><path class=\"arrow\" d=\"M10 0l-10 5l10 5z\"/></marker>\n\
</defs>\n";
