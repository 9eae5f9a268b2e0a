//! The script of the page.

/// The script. It redraws the one picture by the letters of a row (`data-states`), three for each link in the plan's
/// order, and finds the parts of the picture by their classes and `data-` attributes. Without it the page is plain
/// tables.
pub(crate) const SCRIPT: &str = "\
<script>\n\
(function () {\n\
'use strict';\n\
var svg = document.querySelector('#picture svg');\n\
var rows = Array.from(document.querySelectorAll('#failures tbody tr'));\n\
if (!svg || rows.length === 0) { return; }\n\
var links = Array.from(svg.querySelectorAll('g.link'));\n\
var ends = Array.from(svg.querySelectorAll('g.ends'));\n\
var bridges = Array.from(svg.querySelectorAll('g.bridge'));\n\
var ports = Array.from(svg.querySelectorAll('g.port'));\n\
var state = document.getElementById('state');\n\
var base = rows[0];\n\
var chosen = base;\n\
var drawn = '';\n\
var hasRoots = bridges.some(function (b) { return b.dataset.role === 'root'; });\n\
var linkWords = { a: 'active', s: 'standby', x: 'failed' };\n\
var endWords = { f: 'forwarding', l: 'learning', d: 'discarding', x: 'disabled' };\n\
var marks = {\n\
forwarding: 'm-2 0a2 2 0 1 0 4 0a2 2 0 1 0-4 0z',\n\
learning: 'm-5 0a5 5 0 1 0 10 0a5 5 0 1 0-10 0z',\n\
discarding: 'm-5-5h10v10h-10zm2 2l6 6m0-6l-6 6',\n\
disabled: 'm-7-7l14 14m0-14l-14 14'\n\
};\n\
function text(row, place) { return row.cells[place].textContent; }\n\
function isHarm(row) {\n\
return text(row, 1).startsWith('not') || text(row, 2) !== '' || text(row, 3) !== '';\n\
}\n\
function make(name, attributes) {\n\
var made = document.createElementNS('http://www.w3.org/2000/svg', name);\n\
Object.keys(attributes).forEach(function (key) { made.setAttribute(key, attributes[key]); });\n\
return made;\n\
}\n\
function setWord(element, words, word) {\n\
words.forEach(function (other) { element.classList.remove(other); });\n\
element.classList.add(word);\n\
element.dataset.state = word;\n\
}\n\
function drawLink(place, letters) {\n\
if (drawn.slice(place * 3, place * 3 + 3) === letters) { return; }\n\
var word = linkWords[letters[0]];\n\
var both = [endWords[letters[1]], endWords[letters[2]]];\n\
var next = 0;\n\
setWord(links[place], ['active', 'standby', 'failed'], word);\n\
setWord(ends[place], ['active', 'standby', 'failed'], word);\n\
ends[place].querySelectorAll('path[data-port]').forEach(function (path, end) {\n\
path.setAttribute('class', both[end]);\n\
path.dataset.state = both[end];\n\
path.setAttribute('d', path.getAttribute('d').match(/^M\\d+ \\d+/)[0] + marks[both[end]]);\n\
});\n\
var title = links[place].querySelector('title');\n\
title.textContent = title.textContent.replace(/( port \\d+ )[a-z]+/g, function (whole, before) {\n\
next += 1;\n\
return before + both[next - 1];\n\
});\n\
}\n\
function nameOf(end) { return end.slice(0, end.lastIndexOf(':')); }\n\
var ranks = {};\n\
bridges.forEach(function (b) {\n\
var parts = b.querySelector('title').textContent.match(/address (.*), priority (\\d+)/);\n\
ranks[b.dataset.bridge] = parts[2].padStart(8, '0') + parts[1];\n\
});\n\
function rootsOf(letters) {\n\
var tree = {};\n\
var best = {};\n\
function find(name) { return tree[name] === name ? name : find(tree[name]); }\n\
bridges.forEach(function (b) { tree[b.dataset.bridge] = b.dataset.bridge; });\n\
links.forEach(function (link, place) {\n\
if (letters.slice(place * 3 + 1, place * 3 + 3) === 'ff') {\n\
tree[find(nameOf(link.dataset.a))] = find(nameOf(link.dataset.b));\n\
}\n\
});\n\
bridges.forEach(function (b) {\n\
var top = find(b.dataset.bridge);\n\
if (!best[top] || ranks[b.dataset.bridge] < ranks[best[top].dataset.bridge]) { best[top] = b; }\n\
});\n\
return hasRoots ? Object.values(best) : [];\n\
}\n\
function drawBridge(bridge, isRoot, isFailed) {\n\
if ((bridge.dataset.role === 'root') === isRoot && (bridge.dataset.state === 'failed') === isFailed) { return; }\n\
var box = bridge.querySelector('rect');\n\
var width = box.getAttribute('width');\n\
var height = box.getAttribute('height');\n\
bridge.querySelectorAll('text.root, path').forEach(function (old) { old.remove(); });\n\
setWord(bridge, ['up', 'failed'], isFailed ? 'failed' : 'up');\n\
bridge.dataset.role = isRoot ? 'root' : 'bridge';\n\
if (isRoot) {\n\
var word = make('text', { 'class': 'root', x: String(Math.floor(width / 2)), y: '14' });\n\
word.textContent = 'root';\n\
box.after(word);\n\
}\n\
if (isFailed) {\n\
box.after(make('path', { d: 'M0 0L' + width + ' ' + height + 'M' + width + ' 0L0 ' + height }));\n\
}\n\
}\n\
function cutOff(row) {\n\
var cut = new Set();\n\
text(row, 3).split('\\n').filter(Boolean).forEach(function (line) {\n\
var groups = line.slice(line.indexOf(':') + 1).split('|').map(function (group) {\n\
return group.trim().split(/\\s+/);\n\
});\n\
var all = groups.reduce(function (sum, group) { return sum + group.length; }, 0);\n\
groups.forEach(function (group) {\n\
if (group.length * 2 <= all) { group.forEach(function (name) { cut.add(name); }); }\n\
});\n\
});\n\
return cut;\n\
}\n\
function drawPort(port, isCut) {\n\
if ((port.dataset.state === 'cut-off') === isCut) { return; }\n\
port.querySelectorAll('path.cut').forEach(function (old) { old.remove(); });\n\
setWord(port, ['up', 'cut-off'], isCut ? 'cut-off' : 'up');\n\
if (isCut) { port.querySelector('path').after(make('path', { 'class': 'cut', d: 'M5-10l12 12m0-12l-12 12' })); }\n\
}\n\
function draw(row) {\n\
var letters = row.dataset.states;\n\
var down = text(row, 0).match(/^bridge (\\S+) down$/);\n\
var failed = down ? down[1] : null;\n\
var roots = rootsOf(letters);\n\
var cut = cutOff(row);\n\
links.forEach(function (link, place) { drawLink(place, letters.slice(place * 3, place * 3 + 3)); });\n\
drawn = letters;\n\
bridges.forEach(function (b) {\n\
var isFailed = b.dataset.bridge === failed;\n\
drawBridge(b, roots.includes(b) && !isFailed, isFailed);\n\
});\n\
ports.forEach(function (port) { drawPort(port, cut.has(port.dataset.port)); });\n\
}\n\
function tell(row) {\n\
var name = text(row, 0);\n\
var rest = text(row, 1);\n\
var told = name.charAt(0).toUpperCase() + name.slice(1) + '.';\n\
if (rest.startsWith('not')) { told += ' The bridges do not converge.'; }\n\
else if (rest !== 'states given') { told += ' The bridges converge in ' + rest + '.'; }\n\
if (text(row, 2)) { told += '\\nForwarding loop:' + text(row, 2); }\n\
if (text(row, 3)) { told += '\\nDisconnected: ' + text(row, 3).trim(); }\n\
else if (row !== base) { told += '\\nNo service is disconnected.'; }\n\
state.textContent = told;\n\
state.classList.toggle('harm', isHarm(row));\n\
}\n\
function choose(row) {\n\
chosen.removeAttribute('aria-current');\n\
chosen = row;\n\
row.setAttribute('aria-current', 'true');\n\
row.hidden = false;\n\
draw(row);\n\
tell(row);\n\
}\n\
function reveal(row) {\n\
var box = document.querySelector('#failures .rows');\n\
var above = row.offsetTop - box.scrollTop;\n\
if (above < 60 || above > box.clientHeight - row.offsetHeight) {\n\
box.scrollTop = row.offsetTop - box.clientHeight / 2;\n\
}\n\
}\n\
function show(row) {\n\
choose(row);\n\
if (state.getBoundingClientRect().top < 0) { state.scrollIntoView({ block: 'start' }); }\n\
}\n\
var byText = {};\n\
rows.forEach(function (row) { byText[text(row, 0)] = row; });\n\
var hasPairs = rows.some(function (row) { return text(row, 0).startsWith('links '); });\n\
function fail(name, isMore) {\n\
var before = text(chosen, 0).match(/^link (\\S+) down$/);\n\
var row = byText['link ' + name + ' down'];\n\
if (before && before[1] === name) { return base; }\n\
if (before && isMore) {\n\
return byText['links ' + before[1] + ' ' + name + ' down']\n\
|| byText['links ' + name + ' ' + before[1] + ' down'] || row;\n\
}\n\
return row;\n\
}\n\
function tool(parent, kind, words) {\n\
var label = document.createElement('label');\n\
var input = document.createElement('input');\n\
input.type = kind;\n\
label.append(input, ' ' + words);\n\
parent.append(label);\n\
return input;\n\
}\n\
var above = document.createElement('div');\n\
above.className = 'tools';\n\
var reset = document.createElement('button');\n\
reset.type = 'button';\n\
reset.textContent = 'Nothing down';\n\
reset.addEventListener('click', function () { show(base); reveal(base); });\n\
above.append(reset, 'Click a link, or choose a failure in the table.');\n\
var more = hasPairs ? tool(above, 'checkbox', 'fail a second link too') : null;\n\
document.getElementById('picture').before(above);\n\
links.forEach(function (link, place) {\n\
var wide = link.querySelector('path').cloneNode();\n\
wide.setAttribute('style',\n\
'stroke: transparent; stroke-width: 14px; stroke-dasharray: none; pointer-events: stroke');\n\
link.append(wide);\n\
[link, ends[place]].forEach(function (part) {\n\
part.style.cursor = 'pointer';\n\
part.addEventListener('click', function (event) {\n\
var row = fail(link.dataset.link, event.shiftKey || (more && more.checked));\n\
if (row) { choose(row); reveal(row); }\n\
});\n\
});\n\
});\n\
bridges.forEach(function (bridge) {\n\
var row = byText['bridge ' + bridge.dataset.bridge + ' down'];\n\
if (!row) { return; }\n\
bridge.style.cursor = 'pointer';\n\
bridge.addEventListener('click', function () {\n\
choose(row === chosen ? base : row);\n\
reveal(chosen);\n\
});\n\
});\n\
var beside = document.createElement('div');\n\
beside.className = 'tools';\n\
var find = document.createElement('input');\n\
find.type = 'search';\n\
find.placeholder = 'Find a name';\n\
find.setAttribute('aria-label', 'Find a name in the failures');\n\
beside.append(find);\n\
var harmful = rows.filter(isHarm).length;\n\
var only = tool(beside, 'checkbox', 'only failures that do harm (' + harmful + ')');\n\
only.checked = rows.length > 60 && harmful > 0;\n\
document.querySelector('#failures .rows').before(beside);\n\
function sift() {\n\
var name = find.value.trim().toLowerCase();\n\
rows.forEach(function (row) {\n\
var isFound = row.textContent.toLowerCase().includes(name) && (!only.checked || isHarm(row));\n\
row.hidden = row !== base && !isFound;\n\
});\n\
}\n\
find.addEventListener('input', sift);\n\
only.addEventListener('change', sift);\n\
sift();\n\
function step(row, key) {\n\
var next = row;\n\
do {\n\
next = key === 'ArrowDown' ? next.nextElementSibling : next.previousElementSibling;\n\
} while (next && next.hidden);\n\
if (next) { next.focus(); choose(next); }\n\
}\n\
rows.forEach(function (row) { row.tabIndex = 0; });\n\
base.parentNode.addEventListener('click', function (event) { show(event.target.closest('tr')); });\n\
base.parentNode.addEventListener('keydown', function (event) {\n\
var row = event.target.closest('tr');\n\
if (event.key === 'Enter' || event.key === ' ') { show(row); event.preventDefault(); }\n\
if (event.key === 'ArrowDown' || event.key === 'ArrowUp') { step(row, event.key); event.preventDefault(); }\n\
});\n\
choose(base);\n\
}());\n\
</script></body></html>\n";
