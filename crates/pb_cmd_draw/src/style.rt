//! The style sheet of an SVG picture.

/// The style sheet. Its colours are distinct for colour-blind readers, and its background follows the reader's choice
/// of light or dark. The classes c0 to c7 are the colours of services, and d2 to d8 the dashes of bars after the first
/// eight services.
pub(crate) const STYLE: &str = "\
<style>\n\
text { font: 11px ui-monospace, 'DejaVu Sans Mono', Menlo, Consolas, monospace; fill: #1f2328; stroke: none }\n\
.ground, .ends rect { fill: #ffffff }\n\
.link path, .key path { fill: none; stroke: #1f2328; stroke-width: 2 }\n\
.link.standby path, .key .standby { stroke: #818b98; stroke-width: 1.5; stroke-dasharray: 7 5 }\n\
.link.lit path { stroke: currentColor; stroke-width: 4 }\n\
.bridge rect, .key rect { fill: #f6f8fa; stroke: #59636e; stroke-width: 1.5 }\n\
.bridge[data-role=root] rect, .key .root { stroke-width: 4 }\n\
.bridge.lit rect { stroke: currentColor; stroke-width: 3 }\n\
.bridge text { font-size: 13px; font-weight: bold; text-anchor: middle }\n\
.bridge .root, .ends text { text-anchor: middle; font-size: 10px; fill: #59636e }\n\
.ends .name { font-size: 11px; fill: #1f2328 }\n\
.ends.standby .name { fill: #59636e }\n\
.ends.lit .name { font-weight: bold }\n\
.discarding, .key .discarding { fill: #d55e00; stroke: #ffffff; stroke-width: 1.5 }\n\
.learning, .key .learning { fill: #ffffff; stroke: #d55e00; stroke-width: 2 }\n\
.forwarding { fill: #59636e; stroke: none }\n\
.port path, .service path { stroke: currentColor; stroke-width: 9 }\n\
.link.failed path, .bridge.failed rect, .bridge.failed path, .key .failed { stroke: #cf222e; stroke-width: 2 }\n\
.disabled, .key .disabled, .port .cut, .key .cut { fill: none; stroke: #cf222e; stroke-width: 3 }\n\
.port .cut { stroke-dasharray: none }\n\
.failed text, .ends.failed .name, .port.cut-off text { fill: #cf222e }\n\
.failed .name { text-decoration: line-through }\n\
.lit text { font-weight: bold }\n\
.faint text, .faint path, .bridge.faint rect { opacity: 0.3 }\n\
.faint.failed text, .faint.failed path, .bridge.faint.failed rect { opacity: 1 }\n\
.c0 { color: #0072b2 } .c1 { color: #e69f00 } .c2 { color: #009e73 } .c3 { color: #cc79a7 }\n\
.c4 { color: #56b4e9 } .c5 { color: #d55e00 } .c6 { color: #aa4499 } .c7 { color: #999933 }\n\
.d2 path { stroke-dasharray: 9 4 } .d3 path { stroke-dasharray: 4 2 } .d4 path { stroke-dasharray: 2 2 }\n\
.d5 path { stroke-dasharray: 14 2 2 2 } .d6 path { stroke-dasharray: 6 2 2 2 } .d7 path { stroke-dasharray: 1 3 }\n\
.d8 path { stroke-dasharray: 3 6 }\n\
@media (prefers-color-scheme: dark) {\n\
text, .ends .name { fill: #e6edf3 }\n\
.ground, .ends rect { fill: #0d1117 }\n\
.link path, .key path { stroke: #e6edf3 }\n\
.link.standby path, .key .standby { stroke: #848d97 }\n\
.link.lit path { stroke: currentColor }\n\
.bridge rect, .key rect { fill: #161b22; stroke: #848d97 }\n\
.bridge.lit rect { stroke: currentColor }\n\
.bridge .root, .ends text, .ends.standby .name { fill: #9198a1 }\n\
.discarding, .key .discarding { stroke: #0d1117 }\n\
.learning, .key .learning { fill: #0d1117; stroke: #d55e00 }\n\
.forwarding { fill: #848d97 }\n\
.link.failed path, .bridge.failed rect, .bridge.failed path, .key .failed { stroke: #ff7b72 }\n\
.disabled, .key .disabled, .port .cut, .key .cut { stroke: #ff7b72 }\n\
.failed text, .ends.failed .name, .port.cut-off text { fill: #ff7b72 }\n\
}\n\
</style>\n";
