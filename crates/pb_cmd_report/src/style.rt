//! The style sheet of the page.

/// The style sheet. Its colours follow the reader's choice of light or dark, as those of the picture do.
pub(crate) const STYLE: &str = "\
<style>\n\
:root { color-scheme: light dark; --ground: #ffffff; --ink: #1f2328; --dim: #59636e; --line: #d1d9e0;\n\
--shade: #f6f8fa; --mark: #0969da; --chosen: #ddf4ff; --harm: #cf222e }\n\
@media (prefers-color-scheme: dark) {\n\
:root { --ground: #0d1117; --ink: #e6edf3; --dim: #9198a1; --line: #3d444d;\n\
--shade: #161b22; --mark: #4493f8; --chosen: #12325b; --harm: #ff7b72 }\n\
}\n\
* { box-sizing: border-box }\n\
body { margin: 0 auto; padding: 16px; max-width: 1800px; background: var(--ground); color: var(--ink);\n\
font: 15px/1.45 system-ui, 'Segoe UI', Roboto, 'DejaVu Sans', sans-serif }\n\
h1 { margin: 0; font-size: 22px }\n\
h2 { margin: 20px 0 8px; font-size: 17px }\n\
h3 { margin: 16px 0 8px; font-size: 15px }\n\
#change p { margin: 0 0 8px; overflow-wrap: anywhere }\n\
#title { margin: 0; color: var(--dim); overflow-wrap: anywhere }\n\
#counts { margin: 6px 0 0 }\n\
#state { margin: 0 0 8px; padding: 8px 12px; border-left: 4px solid var(--mark); background: var(--shade);\n\
min-height: 60px; white-space: pre-line; overflow-wrap: anywhere }\n\
#state.harm { border-color: var(--harm) }\n\
#picture, #old-picture { overflow: auto; border: 1px solid var(--line); border-radius: 6px }\n\
#picture svg { display: block; max-width: max(100%, 640px); height: auto; margin: 0 auto }\n\
.rows { position: relative; overflow: auto; max-height: 75vh; border: 1px solid var(--line); border-radius: 6px }\n\
table { width: 100%; border-collapse: collapse; font-size: 14px }\n\
th, td { padding: 5px 10px; text-align: left; vertical-align: top; border-bottom: 1px solid var(--line) }\n\
th { position: sticky; top: 0; background: var(--shade) }\n\
tbody tr:last-child td { border-bottom: 0 }\n\
td:first-child { font-weight: 600 }\n\
#failures td:nth-child(n+3) { color: var(--harm); white-space: pre-line; overflow-wrap: anywhere }\n\
#failures td:last-child { min-width: 11em }\n\
#failures td:first-child, #failures td:nth-child(2) { white-space: nowrap }\n\
#failures tbody tr[tabindex] { cursor: pointer }\n\
#failures tbody tr[tabindex]:hover { background: var(--shade) }\n\
#failures tbody tr[aria-current=true] { background: var(--chosen) }\n\
:focus-visible { outline: 2px solid var(--mark); outline-offset: -2px }\n\
.tools { display: flex; flex-wrap: wrap; gap: 6px 16px; align-items: center; margin: 0 0 8px; color: var(--dim) }\n\
.tools input[type=search] { flex: 1 1 8em; min-width: 8em; padding: 4px 8px; font: inherit; color: inherit;\n\
background: var(--ground); border: 1px solid var(--line); border-radius: 6px }\n\
.tools button { padding: 4px 12px; font: inherit; color: inherit; background: var(--shade);\n\
border: 1px solid var(--line); border-radius: 6px; cursor: pointer }\n\
pre { overflow: auto; max-height: 75vh; margin: 0; padding: 12px; border: 1px solid var(--line);\n\
border-radius: 6px; background: var(--shade);\n\
font: 13px/1.4 ui-monospace, 'DejaVu Sans Mono', Menlo, Consolas, monospace }\n\
@media (min-width: 1100px) {\n\
main { display: grid; grid-template-columns: minmax(0, 11fr) minmax(0, 9fr); gap: 0 20px }\n\
main > section { grid-column: 1 / -1 }\n\
main > #network { grid-area: 1 / 1; align-self: start }\n\
main > #failures { grid-area: 1 / 2 }\n\
#picture { max-height: 80vh }\n\
}\n\
@media (max-width: 600px) {\n\
body { padding: 10px }\n\
table { font-size: 13px }\n\
th, td { padding: 4px 5px }\n\
#failures td:first-child, #failures td:nth-child(2) { white-space: normal }\n\
}\n\
@media print {\n\
.rows, pre, #picture, #old-picture { max-height: none; overflow: visible }\n\
.tools { display: none }\n\
}\n\
</style>\n";
