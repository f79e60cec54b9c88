//! The template of a page, cut at its data (docs/PAGES.md, "The file"). `page/template.py --write` makes this file of `page/page.html`.

/// What stands before the data: part 1 of 3.
pub const HEAD_0: &str = "\
<!DOCTYPE html>\n\
<html lang=\"en\">\n\
<head>\n\
<meta charset=\"utf-8\">\n\
<meta name=\"viewport\" content=\"width=device-width, initial-scale=1\">\n\
<title>A run of ranks, step by step</title>\n\
<style>\n\
:root { color-scheme: light dark; font-size: clamp(15px, 1.25vw, 21px);\n\
\x20 --ink:#17202c; --soft:#4d5866; --rule:#ccd3dc; --paper:#fff; --back:#eef1f5; --mark:#ffe58a; --bad:#b3261e; --good:#00694b; --warn:#855300; --choice:#6a2fa8; --tint:#f5effc;\n\
\x20 --r0:#005fa3; --r1:#b34700; --r2:#00735a; --r3:#9b2f7a; --r4:#6b5900; --r5:#3f48b5; --r6:#7a3b10; --r7:#4a5560; }\n\
@media (prefers-color-scheme: dark) { :root {\n\
\x20 --ink:#eef2f6; --soft:#b2bcc8; --rule:#465160; --paper:#171c23; --back:#0c0f13; --mark:#6b5400; --bad:#ff8a7d; --good:#4fd6a6; --warn:#f0b454; --choice:#c9a2ff; --tint:#2a2138;\n\
\x20 --r0:#6cb8f5; --r1:#ff9a57; --r2:#3fd0a5; --r3:#f08fd0; --r4:#e3ce4a; --r5:#a9b1ff; --r6:#dba37c; --r7:#c0c9d2; } }\n\
* { box-sizing: border-box; }\n\
html, body { height: 100%; margin: 0; }\n\
body { display: grid; grid-template-rows: auto minmax(0, 1fr) auto; font: 1rem/1.4 system-ui, \"DejaVu Sans\", sans-serif; color: var(--ink); background: var(--back); }\n\
h1, h2, h3, p { margin: 0; }\n\
code, pre, .code, #source { font-family: ui-monospace, \"DejaVu Sans Mono\", Menlo, Consolas, monospace; font-size: .95em; }\n\
header { padding: .4rem .9rem; background: var(--paper); border-bottom: 1px solid var(--rule); }\n\
header div { display: flex; gap: .2rem 1rem; align-items: baseline; flex-wrap: wrap; }\n\
h1 { font-size: 1.2rem; overflow-wrap: anywhere; }\n\
h2 { font-size: .8rem; color: var(--soft); padding: .35rem .7rem .1rem; }\n\
h3 { font-size: 1.05rem; }\n\
.soft { color: var(--soft); }\n\
#step { font-size: 1.1rem; min-height: 1.55em; }\n\
#verdict { font-weight: 600; }\n\
main { display: grid; grid-template-columns: minmax(20rem, 36%) minmax(0, 1fr); gap: .5rem; padding: .5rem; min-height: 0; }\n\
.side { display: grid; gap: .5rem; min-height: 0; }\n\
#left { grid-template-rows: minmax(0, 1fr) auto; }\n\
#right { grid-template-rows: auto minmax(0, 1fr); }\n\
.pane { background: var(--paper); border: 1px solid var(--rule); border-radius: .4rem; overflow: auto; min-height: 0; position: relative; }\n\
:focus-visible { outline: 3px solid var(--choice); outline-offset: -2px; }\n\
#source { line-height: 1.5; padding-bottom: .4rem; tab-size: 4; }\n\
.line { display: grid; grid-template-columns: 5rem 2.4rem minmax(0, 1fr); }\n\
.line > :nth-child(-n+2) { text-align: right; padding-right: .4rem; }\n\
.line > :last-child { white-space: pre-wrap; overflow-wrap: anywhere; padding: 0 .4rem 0 2ch; text-indent: -2ch; }\n\
.line.now { background: var(--mark); }\n\
.line.now > :nth-child(2) { font-weight: 700; color: var(--ink); }\n\
.badge { display: inline-block; min-width: 1.45rem; padding: 0 .2rem; margin-left: .15rem; border: 2px solid var(--c); border-radius: .25rem; background: var(--c); color: var(--paper); font: 700 .8rem/1.2 system-ui, \"DejaVu Sans\", sans-serif; text-align: center; text-indent: 0; }\n\
.badge.round { border-radius: 1rem; }\n\
.badge.blocked { background: var(--paper); color: var(--c); border-style: dashed; }\n\
.badge.trapped { background: var(--paper); color: var(--bad); border: 3px double var(--bad); }\n\
.badge.ended { opacity: .75; }\n\
#lanes { max-height: 48vh; }\n\
#lanes svg, #tree svg { display: block; }\n\
#tree { max-height: 28vh; overflow: auto; }\n\
text { font: 12px system-ui, \"DejaVu Sans\", sans-serif; fill: var(--ink); }\n\
text.mid { text-anchor: middle; } text.bold { font-weight: 700; } text.rank { font-weight: 700; font-size: 15px; fill: var(--c); }\n\
.lane { stroke: var(--c); stroke-width: 2; } .lane.round { stroke-dasharray: 9 2; }\n\
.wait { stroke: var(--c); stroke-opacity: .35; }\n\
.posted { stroke: var(--c); stroke-width: 1.6; stroke-dasharray: 3 3; }\n\
.full { fill: var(--c); stroke: var(--c); stroke-width: 2; } .open { fill: var(--paper); stroke: var(--c); stroke-width: 2.4; }\n\
.arrow { fill: none; stroke: var(--c); stroke-width: 2; } .new .arrow { stroke-width: 4; }\n\
.halo { fill: var(--mark); } .bar { stroke: var(--ink); stroke-width: 4; } .past { fill: var(--back); } .hand { stroke: var(--soft); stroke-dasharray: 3 3; }\n";

/// What stands before the data: part 2 of 3.
pub const HEAD_1: &str = "\
.dia { fill: var(--paper); stroke: var(--choice); stroke-width: 2.2; cursor: pointer; } .dia.here { fill: var(--choice); }\n\
.twig { fill: none; stroke: var(--rule); stroke-width: 2; } .twig.on { stroke: var(--choice); stroke-width: 3.5; }\n\
.bad { color: var(--bad); fill: var(--bad); } .good { color: var(--good); fill: var(--good); } .warn { color: var(--warn); fill: var(--warn); }\n\
table { border-collapse: collapse; width: 100%; font-size: .93rem; }\n\
caption { text-align: left; font-size: .8rem; font-weight: 700; color: var(--soft); padding: .35rem .7rem .1rem; }\n\
th { text-align: left; font-size: .8rem; color: var(--soft); padding: .15rem .5rem; }\n\
td:nth-child(2) { white-space: nowrap; } td[colspan] { white-space: normal !important; }\n\
td { padding: .2rem .5rem; border-top: 1px solid var(--rule); vertical-align: top; }\n\
.why td { border: 0; padding-top: 0; font-size: .9rem; }\n\
mark { background: var(--mark); color: inherit; border-bottom: 2px solid var(--ink); }\n\
.value { display: inline-block; margin-right: .9rem; }\n\
.token { display: inline-block; border: 1px solid var(--rule); border-left: .3rem solid var(--c); border-radius: .25rem; padding: 0 .3rem; margin: 0 .2rem .15rem 0; }\n\
.token.may { border-color: var(--choice); background: var(--tint); font-weight: 700; }\n\
.box { margin: .5rem; padding: .5rem .7rem; border: 2px solid currentColor; border-radius: .4rem; }\n\
.box > * { color: var(--ink); } .box > h3 { color: inherit; }\n\
#choice { color: var(--choice); }\n\
#choice button { display: flex; gap: .6rem; align-items: center; width: 100%; margin: .3rem 0; padding: .2rem .6rem; text-align: left; }\n\
#choice button.on { background: var(--tint); border: 2px solid var(--choice); font-weight: 700; }\n\
#choice button > :last-child { margin-left: auto; white-space: nowrap; font-weight: 400; }\n\
#choice button:disabled { flex-wrap: wrap; } #choice button:disabled > :last-child { flex-basis: 100%; margin: 0 0 0 1.6rem; white-space: normal; }\n\
.told { display: flex; gap: .8rem; align-items: flex-start; }\n\
.told > div { flex: 1; }\n\
.told p { padding-left: 2ch; text-indent: -2ch; }\n\
button { font: inherit; color: inherit; background: var(--paper); border: 1px solid var(--soft); border-radius: .35rem; cursor: pointer; }\n\
button:disabled { color: var(--soft); cursor: default; border-style: dashed; }\n\
footer { display: grid; grid-template-columns: auto minmax(0, 1fr) auto; gap: .3rem 1rem; align-items: center; padding: .3rem .9rem; background: var(--paper); border-top: 1px solid var(--rule); }\n\
footer button { padding: .25rem .6rem; font-weight: 700; }\n\
#keys { font-size: .85rem; } #keys button { padding: .2rem .4rem; font-weight: 400; } kbd { font: 700 1em ui-monospace, \"DejaVu Sans Mono\", monospace; color: var(--choice); }\n\
#aloud { position: absolute; width: 1px; height: 1px; overflow: hidden; clip-path: inset(50%); } #lanes svg, [data-step] { cursor: pointer; } circle[class=\"\"] { fill: var(--ink); }\n\
#track { position: relative; padding-top: 1.15rem; } #track input { width: 100%; margin: 0; display: block; }\n\
#marks { position: absolute; left: 8px; right: 8px; top: 0; }\n\
#marks span { position: absolute; transform: translateX(-50%); cursor: pointer; font-size: .95rem; line-height: 1.2; } #marks .choice { color: var(--choice); }\n\
@media (max-width: 1240px) { footer { grid-template-columns: auto minmax(0, 1fr); } #keys { grid-column: 1 / -1; } }\n\
@media (max-height: 600px) { #lanes { max-height: 22vh; } }\n\
@media print { :root { color-scheme: light; font-size: 11pt; } html, body { height: auto; } body, main, .side { display: block; background: #fff; } footer, #treepane, #table { display: none; }\n\
\x20 .pane { border: 0; overflow: visible; max-height: none !important; break-inside: avoid; } #lanes svg { width: 100%; height: auto; } * { print-color-adjust: exact; } }\n\
</style>\n\
</head>\n\
<body>\n\
<header><div><h1 id=\"name\">No run stands on this page</h1><span id=\"about\" class=\"soft\"></span><span id=\"verdict\"></span></div><p id=\"step\" role=\"status\"></p><p id=\"aloud\" role=\"status\"></p></header>\n\
<main>\n\
<div class=\"side\" id=\"left\">\n";

/// What stands before the data: part 3 of 3.
pub const HEAD_2: &str = "\
<section class=\"pane\" aria-labelledby=\"h-source\" tabindex=\"0\"><h2 id=\"h-source\">Script, and where ranks stand</h2><div id=\"source\"></div></section>\n\
<section class=\"pane\" id=\"treepane\" aria-labelledby=\"h-tree\"><h2 id=\"h-tree\">Runs</h2><div id=\"tree\" tabindex=\"0\"></div></section>\n\
</div>\n\
<div class=\"side\" id=\"right\">\n\
<section class=\"pane\" id=\"lanes\" aria-label=\"Lanes of the ranks\" tabindex=\"0\"></section>\n\
<section class=\"pane\" aria-label=\"What happens now\" tabindex=\"0\"><div id=\"choice\" class=\"box\" hidden></div><div id=\"told\" hidden></div><table id=\"table\"></table></section>\n\
</div>\n\
</main>\n\
<footer><span><button data-go=\"Home\" title=\"To the start (Home)\">|&lt;</button> <button data-go=\"ArrowLeft\" title=\"A step back (left)\">&lt;</button> <button data-go=\"ArrowRight\" title=\"A step on (right)\">&gt;</button> <button data-go=\"End\" title=\"To the end (End)\">&gt;|</button></span>\n\
<div id=\"track\"><div id=\"marks\"></div><input type=\"range\" id=\"slider\" min=\"0\" value=\"0\" aria-label=\"Step\"></div>\n\
<span id=\"keys\"><button data-go=\"c\" title=\"To the next choice\">next choice <kbd>c</kbd></button> <button data-go=\"u\" title=\"To the choice before\">last choice <kbd>u</kbd></button>\n\
<button data-go=\"m\" title=\"To where the next message is taken\">message <kbd>m</kbd></button> <button data-go=\"r\" title=\"To the next step of the rank that took this one\">same rank <kbd>r</kbd></button>\n\
<button data-go=\"b\" id=\"decides\" title=\"To the step that decides\">decides <kbd>b</kbd></button> <button data-go=\"h\" id=\"uncover\"></button></span></footer>\n\
<script>\n\
'use strict';\n\
// Draws a part of the page anew. What had the focus there is another element then, which has it in its place.\n\
function keepFocus(draw) {\n\
\x20 const was = document.activeElement || document.body, box = was.closest('#choice, #tree'), [name] = Object.keys(was.dataset);\n\
\x20 draw();\n\
\x20 if (box && !was.isConnected) (box.querySelector(`[data-${name}=\"${was.dataset[name]}\"]:not([disabled])`) || box.closest('[tabindex]')).focus({ preventScroll: true });\n\
}\n\
// What is said aloud of a choice and of an end.\n\
const sayAloud = () => el('aloud').textContent = ['choice', 'told'].filter(id => !el(id).hidden).map(id => el(id).querySelector('h3, p').textContent).join('. ');\n\
// The address holds the moment.\n\
function note() {\n\
\x20 history.replaceState(null, '', `#run=${endOf()}&step=${k}`);\n\
}\n\
// Takes a candidate of the choice that is shown.\n\
function take(c) {\n\
\x20 const i = run[k], j = isChoice(i) && nodes[i].k[c] ? taken(i, c) : undefined;\n\
\x20 if (j !== undefined) choose(under[j].includes(endOf()) ? endOf() : under[j][0], k + 1);\n\
}\n\
// To the next step of which something holds; else to the end.\n\
function goNext(holds) {\n\
\x20 const d = facts.findIndex((fact, d) => d > k && holds(fact));\n\
\x20 go(d < 0 ? last() : d);\n\
}\n\
// Whether a step is one of rank p, as that of all ranks is; of no rank in particular each step is one.\n\
const isOf = (fact, p) => p === undefined || fact.rank === undefined || fact.rank === p || fact.kind === 'match' && fact.send[0] === p;\n\
// Ranks so that one stands next to the one that it waits for: a cycle stands in its order.\n\
function inOrder(ranks, edges) {\n\
\x20 const found = [];\n\
\x20 for (let p of ranks) while (p !== undefined && !found.includes(p)) { found.push(p); p = (edges.find(([a, b]) => a === p && !found.includes(b)) || [])[1]; }\n\
\x20 return found;\n\
}\n\
// The moment that is nearest to a place in the lanes.\n\
function momentAt(event) {\n\
\x20 const svg = event.target.closest('#lanes svg'), x = svg && (event.clientX - svg.getBoundingClientRect().left) / unit;\n\
\x20 if (svg && x > el('lanes').scrollLeft / unit + NAME) return xs.reduce((best, at, d) => Math.abs(at - x) < Math.abs(xs[best] - x) ? d : best, 0);\n\
}\n\
</script>\n\
<script type=\"application/json\" id=\"run\">";

/// What stands after the data: part 1 of 8.
pub const TAIL_0: &str = "\
</script>\n\
<script>\n\
'use strict';\n\
// A page of recorded runs. The data stands in the element `run`; docs/PAGES.md tells its fields. Nothing is fetched.\n\
const DATA = JSON.parse(document.getElementById('run').textContent), D = DATA && DATA.run;\n\
const el = id => document.getElementById(id);\n\
const esc = text => String(text).replace(/[&<>\"]/g, sign => `&#${sign.charCodeAt(0)};`);\n\
\n\
// ---- the tree of states\n\
const N = D ? D.ranks : 0, nodes = D ? DATA.nodes : [], ends = D ? DATA.ends : [];\n\
const parent = i => nodes[i].p === undefined ? i - 1 : nodes[i].p;\n\
const kids = nodes.map(() => []), under = nodes.map(() => []); // of each state those a step later, and the ends that it leads to\n\
const endAt = new Map(ends.map((end, e) => [end.node, e]));\n\
const isChoice = i => (nodes[i].k || []).length > 1;\n\
const taken = (i, c) => kids[i].find(j => nodes[j].n === c); // the state after candidate c; undefined if it isn't recorded\n\
nodes.forEach((_, i) => i && kids[parent(i)].push(i));\n\
ends.forEach((end, e) => { for (const i of pathTo(end.node)) under[i].push(e); });\n\
\n\
function pathTo(i) {\n\
\x20 const path = [i];\n\
\x20 while (i) path.push(i = parent(i));\n\
\x20 return path.reverse();\n\
}\n\
\n\
// ---- a state, by the changes that lead to it\n\
const cells = names => names.reduce((sum, [, size]) => sum + (size === null ? 1 : size), 0);\n\
const idOf = ([p, i]) => `${p}.${i}`; // the name of a call, which is its rank and its number there\n\
\n\
function blank() {\n\
\x20 const each = make => Array.from({ length: N }, make);\n\
\x20 return { place: each(() => [0]), values: each(() => Array(cells(D.vars)).fill('0')), requests: each(() => Array(cells(D.handles)).fill(null)),\n\
\x20   printed: each(() => []), calls: each(() => []), why: each(() => null), changed: new Set() };\n\
}\n\
function apply(s, node) {\n\
\x20 s.changed = new Set();\n\
\x20 for (const [p, ...place] of node.d || []) { s.place[p] = place; s.changed.add('d' + p); }\n\
\x20 for (const [p, cell, value] of node.v || []) { s.values[p][cell] = value; s.changed.add(`v${p}.${cell}`); }\n\
\x20 for (const [p, cell, call] of node.h || []) { s.requests[p][cell] = call; s.changed.add(`h${p}.${cell}`); }\n\
\x20 for (const [p, value] of node.o || []) { s.changed.add(`o${p}.${s.printed[p].push(value) - 1}`); }\n\
\x20 for (const [p, why] of node.w || []) s.why[p] = why;\n\
\x20 const [kind, first, second] = node.s || [];\n\
\x20 if (node.c) s.changed.add(`c${first}.${s.calls[first].push({ ...node.c }) - 1}`);\n\
\x20 if (kind === 'match') { callOf(s, first).partner = second; callOf(s, second).partner = first; }\n\
}\n\
const callOf = (s, [p, i]) => s.calls[p][i];\n\
const SENDS = ['send', 'isend', 'ssend', 'issend'], RECEIVES = ['recv', 'irecv'];\n\
const isSend = call => SENDS.includes(call.kind), isReceive = call => RECEIVES.includes(call.kind);\n\
// A call of rank p in words, with the call that a wait is for, and the name of a waitany's array: `wait for 1.0`, `waitany r`.\n\
const handleNames = D ? D.handles.flatMap(([name, size]) => Array(size === null ? 1 : size).fill(name)) : [];\n\
const any = field => field === undefined ? 'any' : field, wanted = call => `from ${any(call.from)} tag ${any(call.tag)}`;\n\
function words(call, p) {\n\
\x20 if (isSend(call)) return `${call.kind} to ${call.to} tag ${call.tag} value ${call.value}${call.buffered ? ' buffered' : ''}`;\n\
\x20 if (isReceive(call)) return `${call.kind} ${wanted(call)}`;\n\
\x20 if (call.kind === 'wait') return call.for === undefined ? 'wait none' : `wait for ${p}.${call.for}`;\n\
\x20 return call.kind === 'waitany' ? `waitany ${handleNames[call.first]}${call.none ? ' none' : ''}` : call.kind;\n\
}\n\
const message = call => `value ${call.value}, tag ${call.tag}`;\n\
const calledAt = (s, id) => `line ${callOf(s, id).line}, ${esc(words(callOf(s, id), id[0]))} <span class=\"soft\">(${idOf(id)})</span>`;\n\
\n\
function stateOf(path) {\n\
\x20 const s = blank();\n\
\x20 for (const i of path) apply(s, nodes[i]);\n\
\x20 return s;\n\
}\n\
\n\
// What a step is about, by the state before it: its kind, its rank, its lines, its calls.\n\
function factOf(s, node) {\n\
\x20 const [kind, first, second] = node.s, fact = { kind, lines: [] };\n";

/// What stands after the data: part 2 of 8.
pub const TAIL_1: &str = "\
\x20 if (kind === 'match') return { kind, send: first, receive: second, rank: second[0], lines: [callOf(s, first).line, callOf(s, second).line] };\n\
\x20 if (kind === 'release') return { kind, lines: s.place.map(place => place[0]) };\n\
\x20 fact.rank = first;\n\
\x20 fact.lines = [s.place[first][0]];\n\
\x20 if (node.c) Object.assign(fact, { call: node.c, id: idOf([first, s.calls[first].length]) });\n\
\x20 if (kind === 'wakeany') fact.by = requestOf(s, first, second);\n\
\x20 return fact;\n\
}\n\
// The call of request i of the waitany in which a rank waits.\n\
function requestOf(s, p, i) {\n\
\x20 return [p, s.requests[p][s.calls[p][s.calls[p].length - 1].first + i]];\n\
}\n\
const shows = fact => fact.call !== undefined || fact.kind === 'match' || fact.kind === 'release';\n\
\n\
function inWords(fact, s) {\n\
\x20 const p = fact.rank, code = text => `<code>${esc(text)}</code>`;\n\
\x20 if (fact.call) return `rank ${p} runs line ${fact.call.line}: ${code(words(fact.call, p))} (${fact.id})`;\n\
\x20 if (fact.kind === 'local') return `rank ${p} runs line ${fact.lines[0]}: ${code((D.script[fact.lines[0] - 1] || '').trim())}`;\n\
\x20 if (fact.kind === 'match') return `rank ${p}, line ${fact.lines[1]}, takes the message of rank ${fact.send[0]}, line ${fact.lines[0]}: <b>${message(callOf(s, fact.send))}</b>`;\n\
\x20 if (fact.kind === 'release') return 'all ranks leave the barrier';\n\
\x20 return `rank ${p} goes on from line ${fact.lines[0]}` + (fact.by ? ` by ${calledAt(s, fact.by)}` : ': its call is complete');\n\
}\n\
\n\
// ---- where the page stands: a run is the states up to an end; k counts its steps up to the state that is shown\n\
let run = [0], facts = [], k = 0, S = null, covered = D && D.hide, printing = false, later = 0;\n\
const last = () => run.length - 1, endOf = () => endAt.get(run[last()]);\n\
\n\
function choose(end, depth) {\n\
\x20 run = pathTo(ends[end].node);\n\
\x20 const s = blank();\n\
\x20 facts = run.map((i, d) => { const fact = d ? factOf(s, nodes[i]) : null; apply(s, nodes[i]); return fact; });\n\
\x20 el('slider').max = last();\n\
\x20 layout();\n\
\x20 go(depth);\n\
}\n\
function go(depth) {\n\
\x20 k = Math.max(0, Math.min(last(), Math.round(depth) || 0));\n\
\x20 S = stateOf(run.slice(0, k + 1));\n\
\x20 el('slider').value = k;\n\
\x20 el('step').innerHTML = `<b>${k ? `step ${k} of ${last()}` : `start, ${last()} steps`}</b>` + (k ? ` &ensp;${inWords(facts[k], S)}` : '');\n\
\x20 keepFocus(() => [source, choice, told, table, marks, tree].forEach(part => part()));\n\
\x20 sayAloud();\n\
\x20 follow();\n\
\x20 clearTimeout(later);\n\
\x20 later = setTimeout(note, 200); // browsers refuse many at once\n\
}\n\
// The step that decides: of this run, or else of another that goes the same way up to there.\n\
function deciding() {\n\
\x20 for (const end of [ends[endOf()], ...ends])\n\
\x20   if (end.decided && end.decided.depth !== null && pathTo(end.node)[end.decided.depth] === run[end.decided.depth]) return end.decided;\n\
\x20 return null;\n\
}\n\
const choices = () => run.map((i, d) => isChoice(i) ? d : -1).filter(d => d >= 0);\n\
\n\
// ---- the script\n\
const round = p => p > 7 ? ' round' : '', colour = p => `style=\"--c:var(--r${p % 8})\"`;\n\
const doing = ([, how]) => how || '';\n\
const badge = (s, p) => `<span class=\"badge ${doing(s.place[p])}${round(p)}\" ${colour(p)} title=\"rank ${p} ${s.place[p].slice(1).join(' ') || 'can run'}\">${p}</span>`;\n\
\n\
function source() {\n\
\x20 const at = {}, now = new Set(k ? facts[k].lines : []);\n\
\x20 for (let p = 0; p < N; p++) (at[S.place[p][0]] = at[S.place[p][0]] || []).push(badge(S, p));\n\
\x20 el('source').innerHTML = D.script.map((text, i) => {\n\
\x20   const cut = text.indexOf('#') < 0 ? text.length : text.indexOf('#');\n\
\x20   return `<div class=\"line ${now.has(i + 1) ? 'now' : ''}\"><span>${(at[i + 1] || []).join('')}</span><span class=\"soft\">${i + 1}</span>` +\n\
\x20     `<span>${esc(text.slice(0, cut))}<span class=\"soft\">${esc(text.slice(cut)) || ' '}</span></span></div>`;\n\
\x20 }).join('') + (at[0] ? `<div class=\"line\"><span></span><span></span><span class=\"soft\">ended: ${at[0].join('')}</span></div>` : '');\n\
\x20 const line = el('source').children[(k ? Math.max(...facts[k].lines) : 1) - 1];\n\
\x20 if (line) line.scrollIntoView({ block: 'nearest' });\n\
}\n\
\n\
// ---- lanes: time goes to the right, a lane for each rank\n";

/// What stands after the data: part 3 of 8.
pub const TAIL_2: &str = "\
const TOP = 36, NAME = N > 10 ? 80 : 64;\n\
let xs = [], gap = 60, wide = 60, unit = 1;\n\
\n\
// The place of each step: those that show something get more room.\n\
function layout() {\n\
\x20 unit = parseFloat(getComputedStyle(document.documentElement).fontSize) / 16;\n\
\x20 const room = Math.max(300, el('lanes').clientWidth / unit - NAME - 60), many = facts.slice(1).filter(shows).length, few = last() - many;\n\
\x20 const small = Math.min(14, Math.max(7, room / (many * 3.5 + few + 1)));\n\
\x20 wide = Math.min(78, Math.max(34, (room - few * small) / Math.max(1, many)));\n\
\x20 xs = [NAME + 14];\n\
\x20 for (let d = 1; d <= last(); d++) xs.push(xs[d - 1] + (shows(facts[d]) ? wide : small));\n\
\x20 gap = N > 10 ? 17 : N > 5 ? 30 : Math.min(56, 180 / N);\n\
}\n\
const laneY = p => TOP + gap * (p + .5);\n\
const svgText = (x, y, text, kind = 'mid') => `<text x=\"${x}\" y=\"${y}\" class=\"${kind}\">${text}</text>`;\n\
const svgLine = (x1, y1, x2, y2, kind, more = '') => `<line x1=\"${x1}\" y1=\"${y1}\" x2=\"${x2}\" y2=\"${y2}\" class=\"${kind}\" ${more}/>`;\n\
const svgGroup = (p, title, body, isNew, d) => `<g ${colour(p)} ${isNew ? 'class=\"new\"' : ''} ${d ? `data-step=\"${d}\"` : ''}><title>${esc(title)}</title>${body}</g>`;\n\
\n\
// An arrow from one place to another, with its tip; to the same lane it is bent.\n\
function arrow(x1, y1, x2, y2) {\n\
\x20 const bent = y1 === y2, down = y2 > y1 ? 1 : -1, y = bent ? y2 + 7 : y2 - 7 * down, angle = bent ? -Math.PI / 2 : Math.atan2(y - y1, x2 - x1);\n\
\x20 const at = turn => `${x2 - 11 * Math.cos(angle + turn)} ${y - 11 * Math.sin(angle + turn)}`;\n\
\x20 const way = bent ? `M${x1} ${y1}C${x1} ${y1 + gap * .7} ${x2} ${y1 + gap * .7} ${x2} ${y}` : `M${x1} ${y1}L${x2} ${y}`;\n\
\x20 return `<path d=\"${way}\" class=\"arrow\"/><path d=\"M${x2} ${y}L${at(.4)}L${at(-.4)}z\" class=\"full\"/>`;\n\
}\n\
function glyph(x, y, word) {\n\
\x20 const r = gap > 24 ? 6 : 4.5;\n\
\x20 if (SENDS.includes(word)) return `<circle cx=\"${x}\" cy=\"${y}\" r=\"${r}\" class=\"full\"/>`;\n\
\x20 if (RECEIVES.includes(word)) return `<circle cx=\"${x}\" cy=\"${y}\" r=\"${r}\" class=\"open\"/>`;\n\
\x20 if (word === 'barrier') return `<rect x=\"${x - 3}\" y=\"${y - gap * .3}\" width=\"6\" height=\"${gap * .6}\" class=\"full\"/>`;\n\
\x20 return `<path d=\"${word === 'wait' ? `M${x - r} ${y - r}h${2 * r}v${2 * r}h${-2 * r}z` : `M${x - r - 2} ${y}l${r + 2} ${-r - 2}l${r + 2} ${r + 2}l${-r - 2} ${r + 2}z`}\" class=\"open\"/>`;\n\
}\n\
function lanes() {\n\
\x20 const box = el('lanes'), now = xs[k], height = TOP + gap * N + 14, large = gap > 28;\n\
\x20 const left = printing ? Math.max(0, now - 1200) : box.scrollLeft / unit, room = printing ? Math.min(1260, Math.max(500, now + 60)) : box.clientWidth / unit;\n\
\x20 const width = printing ? room : Math.max(xs[last()] + 44, room - 2), seen = (a, b) => b > left - 200 && a < left + room + 200;\n\
\x20 const under = [], over = [], names = [], issued = {}, since = Array(N).fill(null), stops = Array(N).fill(now);\n\
\x20 const waits = (p, to) => {\n\
\x20   const thick = `stroke-width=\"${Math.min(11, gap * .42)}\"`;\n\
\x20   if (since[p] !== null && seen(since[p], to)) under.push(svgGroup(p, `rank ${p} waits`, svgLine(since[p], laneY(p), to, laneY(p), 'wait', thick)));\n\
\x20   since[p] = null;\n\
\x20 };\n\
\x20 for (let d = 1; d <= k; d++) {\n\
\x20   const fact = facts[d], x = xs[d], p = fact.rank, y = laneY(p), isNew = d === k;\n\
\x20   const halo = isNew && p !== undefined && fact.kind !== 'match' ? `<circle cx=\"${x}\" cy=\"${y}\" r=\"${gap > 24 ? 11 : 8}\" class=\"halo\"/>` : '';\n\
\x20   if (fact.call) {\n\
\x20     const word = fact.call.kind, isUp = isSend(fact.call) && fact.call.to < p;\n\
\x20     issued[fact.id] = { call: fact.call, x, p, end: null };\n\
\x20     if (seen(x, x)) over.push(svgGroup(p, `line ${fact.call.line}, ${fact.id} ${words(fact.call, p)}`, halo + glyph(x, y, word) + (large ? svgText(x, isUp ? y + 21 : y - (word === 'barrier' ? gap * .3 + 4 : 11), wide > 50 ? `${fact.call.line} ${word}` : fact.call.line, isNew ? 'mid bold' : 'mid') : ''), isNew, d));\n\
\x20     if ((nodes[run[d]].d || []).some(([q, , how]) => q === p && how === 'blocked')) since[p] = x;\n\
\x20   } else if (fact.kind === 'match') {\n\
\x20     const send = issued[idOf(fact.send)], value = send.call.value;\n\
\x20     send.end = issued[idOf(fact.receive)].end = x;\n";

/// What stands after the data: part 4 of 8.
pub const TAIL_3: &str = "\
\x20     if (seen(send.x, x)) {\n\
\x20       const lx = send.x + (x - send.x) * .5, ly = laneY(send.p) + (y - laneY(send.p)) * .5 + (send.p === p ? gap * .5 : 0), w = 8 * value.length + 8;\n\
\x20       over.push(svgGroup(send.p, `${idOf(fact.send)} to ${idOf(fact.receive)}: ${message(send.call)}`, arrow(send.x, laneY(send.p), x, y) + `<rect x=\"${lx - w / 2}\" y=\"${ly - 8}\" width=\"${w}\" height=\"16\" rx=\"4\" class=\"open\" style=\"stroke-width:1\"/>` + svgText(lx, ly + 4, value, 'mid bold'), isNew, d));\n\
\x20     }\n\
\x20   } else if (fact.kind === 'release') {\n\
\x20     if (seen(x, x)) over.push(`<g><title>release: all ranks leave the barrier</title>${svgLine(x, laneY(0) - 12, x, laneY(N - 1) + 12, 'bar')}</g>`);\n\
\x20     for (let q = 0; q < N; q++) waits(q, x);\n\
\x20   } else if (fact.kind === 'local') {\n\
\x20     if (seen(x, x)) over.push(svgGroup(p, `rank ${p} runs line ${fact.lines[0]}`, halo + svgLine(x, y - 4, x, y + 4, 'lane')));\n\
\x20   } else { waits(p, x); over.push(svgGroup(p, `rank ${p} goes on`, halo)); }\n\
\x20   for (const [q, , how] of nodes[run[d]].d || []) if (how && how !== 'blocked') stops[q] = x;\n\
\x20 }\n\
\x20 for (let p = 0; p < N; p++) { waits(p, now); under.push(svgGroup(p, `lane of rank ${p}`, svgLine(NAME, laneY(p), stops[p], laneY(p), 'lane' + round(p)))); }\n\
\x20 const posted = Array(N).fill(0);\n\
\x20 for (const { call, x, p, end } of Object.values(issued)) {\n\
\x20   const y = laneY(p), to = end === null ? now : end;\n\
\x20   if (isReceive(call) && seen(x, to)) {\n\
\x20     const low = y + (gap > 24 ? 9 + 4 * (posted[p]++ % 3) : 6);\n\
\x20     under.push(svgGroup(p, `posted: ${words(call, p)}`, svgLine(x, low, to, low, 'posted')));\n\
\x20   }\n\
\x20   if (isSend(call) && end === null && seen(x, x)) {\n\
\x20     const dy = (call.to > p ? 1 : -1) * Math.min(20, gap * .4);\n\
\x20     over.push(svgGroup(p, `${words(call, p)}: not received yet`, svgLine(x, y, x + 14, y + dy, 'posted') + `<circle cx=\"${x + 14}\" cy=\"${y + dy}\" r=\"4\" class=\"open\"/>`));\n\
\x20   }\n\
\x20 }\n\
\x20 for (let p = 0; p < N; p++) {\n\
\x20   const y = laneY(p), how = doing(S.place[p]), x = stops[p];\n\
\x20   if (how === 'ended') over.push(svgGroup(p, `rank ${p} has ended`, svgLine(x + 2, y - 9, x + 2, y + 9, 'lane', 'style=\"stroke-width:4\"')));\n\
\x20   if (how === 'trapped') over.push(`<g><title>rank ${p} is trapped</title><path d=\"M${x - 7} ${y - 7}l14 14m0 -14l-14 14\" style=\"stroke:var(--bad);stroke-width:4\"/></g>`);\n\
\x20   if (how === 'blocked' && k === last() && !covered && ends[endOf()].ends !== 'cut') over.push(`<g><title>rank ${p} is blocked</title><path d=\"M${now - 4} ${y - 9}h8l5 5v8l-5 5h-8l-5 -5v-8z\" class=\"bad\"/><text x=\"${now}\" y=\"${y + 4.5}\" class=\"mid bold\" style=\"fill:var(--paper)\">!</text></g>`);\n\
\x20   names.push(`<g ${colour(p)}>${svgText(left + 6, y + 5, `rank ${p}`, 'rank')}</g>`);\n\
\x20 }\n\
\x20 const marks = choices().filter(d => seen(xs[d], xs[d])).map(d => `<g data-step=\"${d}\"><title>a choice of ${nodes[run[d]].k.length}</title>${svgLine(xs[d], 30, xs[d], height, 'hand', 'style=\"stroke:var(--choice);stroke-opacity:.5\"')}<path d=\"M${xs[d]} 15l7 7l-7 7l-7 -7z\" class=\"dia ${d === k ? 'here' : ''}\"/></g>`);\n\
\x20 box.innerHTML = `<svg width=\"${width * unit}\" height=\"${height * unit}\" viewBox=\"${printing ? left : 0} 0 ${width} ${height}\" role=\"img\"><title>Lanes of ${N} ranks after ${k} steps</title>` +\n\
\x20   `<rect x=\"${now}\" width=\"${Math.max(0, width + left - now)}\" height=\"${height}\" class=\"past\"/>${svgLine(now, 14, now, height, 'hand')}${svgText(now, 11, k, 'mid bold')}${under.join('')}${marks.join('')}${over.join('')}<rect x=\"${left}\" width=\"${NAME - 4}\" height=\"${height}\" style=\"fill:var(--paper)\"/>${names.join('')}</svg>`;\n\
}\n\
// Scrolls the lanes to where the page stands, and draws them.\n\
function follow() {\n\
\x20 const box = el('lanes'), x = xs[k] * unit;\n\
\x20 if (x < box.scrollLeft + 120 || x > box.scrollLeft + box.clientWidth - 70) { lanes(); box.scrollLeft = Math.max(0, x - box.clientWidth * .6); }\n\
\x20 lanes();\n\
}\n\
\n\
// ---- the choice, and the step that decides\n\
const SIGN = { done: '\\u2714', leftovers: '\\u25b2', cut: '\\u2026', deadlock: '\\u2716', trap: '\\u2716' };\n";

/// What stands after the data: part 5 of 8.
pub const TAIL_4: &str = "\
const kindOf = how => how === 'deadlock' || how === 'trap' ? 'bad' : how === 'done' ? 'good' : 'warn';\n\
const sign = how => covered ? '?' : `<b class=\"${kindOf(how)}\">${SIGN[how]}</b> ${how}`;\n\
\n\
function howEnds(list) {\n\
\x20 const counts = {};\n\
\x20 for (const e of list) { const s = sign(ends[e].ends); counts[s] = (counts[s] || 0) + 1; }\n\
\x20 return Object.entries(counts).map(([s, count]) => covered ? s : (count > 1 ? `${count} \\u00d7 ` : '') + s).join(' &ensp;');\n\
}\n\
function candidate(step) {\n\
\x20 const fact = factOf(S, { s: step }), p = fact.rank;\n\
\x20 if (fact.kind === 'match') return `message of <b>rank ${fact.send[0]}</b>, line ${fact.lines[0]}: <b>${message(callOf(S, fact.send))}</b> \\u2192 rank ${p}, line ${fact.lines[1]}`;\n\
\x20 if (fact.kind === 'release') return 'all ranks leave the barrier';\n\
\x20 if (fact.kind === 'local') return `rank ${p} runs line ${fact.lines[0]}`;\n\
\x20 return `rank ${p}, line ${fact.lines[0]}, goes on` + (fact.by ? ` by ${calledAt(S, fact.by)}` + (callOf(S, fact.by).partner && isReceive(callOf(S, fact.by)) ? `: <b>${message(callOf(S, callOf(S, fact.by).partner))}</b>` : '') : '');\n\
}\n\
// The page that takes candidate c here, as a command, where the run is told by its choices.\n\
function otherWay(c) {\n\
\x20 const numbers = run.slice(1, k + 1).map(i => nodes[i].n).filter(n => n !== undefined);\n\
\x20 const words = [D.name, ...(D.mode === 'rendezvous' ? [] : ['--mode', D.mode]), ...(D.walk === 'wide' ? ['--ends'] : []), `--choices '${[...numbers, c].join(' ')}'`];\n\
\x20 return D.walk === 'words' ? 'not on this page' : `on another page: <code>mpdbg page ${esc(words.join(' '))}</code>`;\n\
}\n\
function choice() {\n\
\x20 const i = run[k], box = el('choice'), steps = isChoice(i) ? nodes[i].k : [], found = covered ? null : deciding(), isDecided = found && found.depth === k;\n\
\x20 box.hidden = !steps.length && !isDecided;\n\
\x20 box.innerHTML = (steps.length ? `<h3>\\u25c6 A choice: which of these ${steps.length} comes next?</h3>` : '') + steps.map((step, c) => {\n\
\x20   const j = taken(i, c);\n\
\x20   return `<button data-take=\"${c}\" class=\"${j !== undefined && j === run[k + 1] ? 'on' : ''}\" ${j === undefined ? 'disabled' : ''}><b>${c + 1}</b><span>${candidate(step)}</span><span>${j === undefined ? otherWay(c) : howEnds(under[j])}</span></button>`;\n\
\x20 }).join('') + (isDecided ? `<p><b class=\"warn\">\\u25bc</b> ${esc(found.said)}</p>` : '');\n\
}\n\
\n\
// ---- the end of a run, and who waits for whom\n\
const TITLE = { done: 'The run ends well: all ranks have ended', leftovers: 'All ranks have ended, but calls are left over', deadlock: 'Deadlock: these ranks wait for ever', trap: 'A rank has trapped', cut: 'The record ends here, but the run goes on' };\n\
\n\
function told() {\n\
\x20 const box = el('told'), end = k === last() ? ends[endOf()] : null;\n\
\x20 box.hidden = !end;\n\
\x20 if (!end) return;\n\
\x20 box.className = 'box ' + (covered ? '' : kindOf(end.ends));\n\
\x20 if (covered) { box.innerHTML = '<h3>The run ends here</h3><p>The key <b>h</b> shows how.</p>'; return; }\n\
\x20 const lines = [...(end.told || []).map(line => line.slice(2)), ...end.lost || []], said = end.decided ? [end.decided.said + (end.decided.depth === null ? '' : ' (key b)')] : [];\n\
\x20 const texts = [...lines, ...said].map(line => `<p style=\"margin-left:${line.search(/\\S/)}ch\">${esc(line.trim())}</p>`);\n\
\x20 box.innerHTML = `<h3>${SIGN[end.ends]} ${TITLE[end.ends]}</h3><div class=\"told\"><div>${texts.join('')}</div>${waitGraph(end.waits || [])}</div>`;\n\
}\n\
// Who waits for whom, as a graph.\n\
function waitGraph(waits) {\n\
\x20 const edges = waits.map(wait => [wait.rank, wait.for, wait.ended]);\n\
\x20 if (!edges.length) return '';\n\
\x20 const ranks = inOrder([...new Set(edges.flatMap(([a, b]) => [a, b]))].sort((a, b) => a - b), edges), R = 26 + 6 * ranks.length, C = R + 30, at = {};\n\
\x20 ranks.forEach((p, i) => { const turn = 2 * Math.PI * i / ranks.length - Math.PI / 2; at[p] = [C + R * Math.cos(turn), C + R * Math.sin(turn)]; });\n\
\x20 const edge = ([a, b, isOver]) => {\n\
\x20   const [x1, y1] = at[a], [x2, y2] = at[b], far = Math.hypot(x2 - x1, y2 - y1) || 1, ux = (x2 - x1) / far, uy = (y2 - y1) / far, off = edges.some(([c, d]) => c === b && d === a) ? 6 : 0;\n";

/// What stands after the data: part 6 of 8.
pub const TAIL_5: &str = "\
\x20   if (a === b) return `<circle cx=\"${x1 + 15}\" cy=\"${y1 - 13}\" r=\"10\" class=\"arrow\" style=\"--c:var(--ink)\"/>`;\n\
\x20   const px = x2 - 17 * ux - off * uy, py = y2 - 17 * uy + off * ux, tip = side => `${px - 9 * ux + side * 4.5 * uy} ${py - 9 * uy - side * 4.5 * ux}`;\n\
\x20   return `<g style=\"--c:var(--ink)\">${svgLine(x1 + 15 * ux - off * uy, y1 + 15 * uy + off * ux, px, py, 'arrow', isOver ? 'stroke-dasharray=\"4 3\"' : '')}<path d=\"M${px} ${py}L${tip(1)}L${tip(-1)}z\" class=\"full\"/></g>`;\n\
\x20 };\n\
\x20 const spot = p => {\n\
\x20   const [x, y] = at[p], isOver = edges.some(([, b, over]) => b === p && over);\n\
\x20   return `<g ${colour(p)}><circle cx=\"${x}\" cy=\"${y}\" r=\"14\" class=\"${isOver ? 'open' : 'full'}\"/><text x=\"${x}\" y=\"${y + 5}\" class=\"mid bold\" style=\"font-size:14px;fill:var(${isOver ? '--ink' : '--paper'})\">${p}</text></g>${isOver ? svgText(x, y + 27, 'ended') : ''}`;\n\
\x20 };\n\
\x20 return `<svg width=\"${2 * C * unit}\" height=\"${2 * C * unit}\" viewBox=\"0 0 ${2 * C} ${2 * C}\" role=\"img\" style=\"flex:none\"><title>Who waits for whom: ${edges.map(([a, b]) => `${a} for ${b}`).join(', ')}</title>${edges.map(edge).join('')}${ranks.map(spot).join('')}</svg>`;\n\
}\n\
\n\
// ---- the table of ranks\n\
const MOST = 16; // so many cells of an array are shown, and those that changed\n\
const marked = (key, text) => S.changed.has(key) ? `<mark>${text}</mark>` : text;\n\
\n\
function valuesOf(p, names, kind, show) {\n\
\x20 let cell = 0;\n\
\x20 return names.map(([name, size]) => {\n\
\x20   const texts = Array.from({ length: size === null ? 1 : size }, () => marked(`${kind}${p}.${cell}`, show(cell++)));\n\
\x20   const shown = texts.flatMap((text, i) => i < MOST ? [text] : text[0] === '<' ? [`${i}: ${text}`] : []);\n\
\x20   return `<span class=\"code value\">${name}&nbsp;=&nbsp;${size === null ? texts[0] : `[${shown.join(', ')}${size > MOST ? ', ..' : ''}]`}</span>`;\n\
\x20 }).join('');\n\
}\n\
function token(p, i, text, may) {\n\
\x20 return `<span class=\"token code ${may.has(`${p}.${i}`) ? 'may' : ''}\" ${colour(p)} data-step=\"${facts.findIndex(fact => fact && fact.id === `${p}.${i}`)}\" title=\"line ${S.calls[p][i].line}, ${p}.${i} ${esc(words(S.calls[p][i], p))}\">${marked(`c${p}.${i}`, text)}</span>`;\n\
}\n\
function request(p, cell) {\n\
\x20 const call = S.calls[p][S.requests[p][cell]];\n\
\x20 return call ? `${call.kind} line ${call.line}${call.partner ? ' \\u2714' : ''}` : '-';\n\
}\n\
function stateText(p) {\n\
\x20 const [line, how = '', trap] = S.place[p];\n\
\x20 return marked('d' + p, how === '' ? `at line ${line}` : how === 'ended' ? how : how === 'blocked' ? `waits, line ${line}` : `<b class=\"bad\">trap: ${trap}</b>, line ${line}`);\n\
}\n\
function table() {\n\
\x20 const may = new Set(isChoice(run[k]) ? nodes[run[k]].k.flatMap(([kind, ...calls]) => kind === 'match' ? calls.map(idOf) : []) : []);\n\
\x20 const columns = [['rank', p => badge(S, p)], ['state', stateText], ['variables', p => valuesOf(p, D.vars, 'v', cell => S.values[p][cell]), D.vars.length],\n\
\x20   ['requests', p => valuesOf(p, D.handles, 'h', cell => request(p, cell)), D.handles.length],\n\
\x20   ['receives posted', p => S.calls[p].map((call, i) => isReceive(call) && !call.partner ? token(p, i, wanted(call), may) : '').join('')],\n\
\x20   ['messages to it', p => S.calls.flatMap((list, q) => list.map((call, i) => isSend(call) && !call.partner && call.to === p ? token(q, i, `from ${q}: ${message(call)}`, may) : '')).join('')],\n\
\x20   ['printed', p => S.printed[p].map((value, i) => marked(`o${p}.${i}`, value)).join(' '), +nodes.some(node => node.o)],\n\
\x20 ].filter(column => column[2] !== 0);\n\
\x20 const rows = S.place.map((_, p) => `<tr>${columns.map(([, show]) => `<td>${show(p)}</td>`).join('')}</tr>` +\n\
\x20   (S.why[p] ? `<tr class=\"why soft\"><td></td><td colspan=\"${columns.length - 1}\">${whyText(p)}</td></tr>` : ''));\n\
\x20 el('table').innerHTML = `<caption>Ranks (what the last step changed is underlined)</caption><tr>${columns.map(([name]) => `<th scope=\"col\">${name}</th>`).join('')}</tr>${rows.join('')}`;\n\
}\n\
// Why a rank waits: for each call that it waits for, with what that can be matched.\n\
function whyText(p) {\n";

/// What stands after the data: part 7 of 8.
pub const TAIL_6: &str = "\
\x20 const calls = S.calls[p], own = `<code>${esc(words(calls[calls.length - 1], p))}</code>`, isEnd = k === last() && !covered && ends[endOf()].ends !== 'cut', why = S.why[p];\n\
\x20 const parts = why.absent ? [why.absent.length ? `not there: ${why.absent.map(q => `rank ${q}`).join(', ')}` : 'all ranks are there'] : why.map(({ call, complete, fits = [] }) => {\n\
\x20   const name = call[1] === calls.length - 1 ? '' : `for ${calledAt(S, call)}: `;\n\
\x20   if (complete) return `${name}<b>complete</b>`;\n\
\x20   if (!fits.length) return name + (isEnd ? 'nothing fits' : 'nothing that fits has come yet');\n\
\x20   const texts = fits.map(([other, by]) => by ? `fits ${calledAt(S, other)}, but <b>held back</b> by ${calledAt(S, by)}` : `can be matched with ${calledAt(S, other)}`);\n\
\x20   return name + [...texts.slice(0, 3), ...(texts.length > 3 ? [`and with ${texts.length - 3} more`] : [])].join('<br>');\n\
\x20 });\n\
\x20 return [own, ...(parts.length ? parts : ['nothing to wait for'])].join(parts.length > 1 ? '<br>' : ' &ensp; ');\n\
}\n\
\n\
// ---- the tree of runs: a diamond for each choice, a sign for each end\n\
let shape = null;\n\
function treeShape() {\n\
\x20 const points = [], open = [{ node: 0, deep: 0 }];\n\
\x20 let rows = 0, deep = 0;\n\
\x20 while (open.length) { // from the top, each point before those below it\n\
\x20   const point = open.pop();\n\
\x20   while (!isChoice(point.node) && !endAt.has(point.node)) point.node = kids[point.node][0];\n\
\x20   points.push(point);\n\
\x20   deep = Math.max(deep, point.deep);\n\
\x20   point.kids = endAt.has(point.node) ? [] : nodes[point.node].k.flatMap((_, c) => {\n\
\x20     const j = taken(point.node, c);\n\
\x20     return j === undefined ? [] : [{ node: j, deep: point.deep + 1, number: c + 1 }];\n\
\x20   });\n\
\x20   if (!point.kids.length) point.row = rows++;\n\
\x20   open.push(...[...point.kids].reverse());\n\
\x20 }\n\
\x20 for (const point of [...points].reverse()) if (point.kids.length) point.row = (point.kids[0].row + point.kids[point.kids.length - 1].row) / 2;\n\
\x20 return { points, rows, deep };\n\
}\n\
function tree() {\n\
\x20 shape = shape || treeShape();\n\
\x20 const { points, rows, deep } = shape, on = new Set(run), label = e => covered ? `run ${e + 1}` : ends[e].outcome, tail = 40 + 7 * Math.max(...ends.map((_, e) => label(e).length)),\n\
\x20   column = Math.min(110, Math.max(26, 220 / Math.max(1, deep))), X = t => 18 + column * t.deep, Y = t => 14 + 23 * t.row, parts = [];\n\
\x20 for (const t of points) for (const u of t.kids) {\n\
\x20   const isOn = on.has(t.node) && on.has(u.node);\n\
\x20   parts.push(`<path d=\"M${X(t)} ${Y(t)}C${X(t) + column / 2} ${Y(t)} ${X(t) + column * .4} ${Y(u)} ${X(u)} ${Y(u)}\" class=\"twig ${isOn ? 'on' : ''}\"/>${svgText(X(u) - 15, Y(u) - 3, u.number, isOn ? 'mid bold' : 'mid')}`);\n\
\x20 }\n\
\x20 for (const t of points) {\n\
\x20   const end = endAt.get(t.node), isHere = run[k] === t.node ? 'here' : '';\n\
\x20   if (end === undefined) { parts.push(`<g data-node=\"${t.node}\" role=\"button\" tabindex=\"0\"><title>a choice of ${nodes[t.node].k.length}</title><path d=\"M${X(t)} ${Y(t) - 8}l8 8l-8 8l-8 -8z\" class=\"dia ${isHere}\"/></g>`); continue; }\n\
\x20   const { outcome, ends: how } = ends[end], kind = covered ? '' : kindOf(how), isOn = end === endOf();\n\
\x20   const disc = kind === 'bad' ? `<rect x=\"${X(t) - 8}\" y=\"${Y(t) - 8}\" width=\"16\" height=\"16\" rx=\"2\" class=\"bad\"/>` : `<circle cx=\"${X(t)}\" cy=\"${Y(t)}\" r=\"8.5\" class=\"${kind}\"/>`;\n\
\x20   parts.push(`<g data-end=\"${end}\" role=\"button\" tabindex=\"0\" style=\"cursor:pointer\"><title>run ${end + 1}${covered ? '' : `: ${outcome}`}</title>${disc}<text x=\"${X(t)}\" y=\"${Y(t) + 4.5}\" class=\"mid bold\" style=\"fill:var(--paper)\">${covered ? '?' : SIGN[how]}</text>${svgText(X(t) + 15, Y(t) + 4.5, esc(label(end)), isOn ? 'bold' : '')}</g>`);\n\
\x20 }\n\
\x20 el('tree').innerHTML = `<svg width=\"${(X({ deep }) + tail) * unit}\" height=\"${(rows * 23 + 8) * unit}\" viewBox=\"0 0 ${X({ deep }) + tail} ${rows * 23 + 8}\" role=\"group\"><title>Runs by their choices: ${ends.length}</title>${parts.join('')}</svg>` + (D.more ? '<p class=\"soft\" style=\"font-size:.85rem;padding:0 .7rem .3rem\">there are more runs than these</p>' : '');\n";

/// What stands after the data: part 8 of 8.
pub const TAIL_7: &str = "\
\x20 const mine = points.find(t => endAt.get(t.node) === endOf()), box = el('tree'), y = Y(mine) * unit;\n\
\x20 if (y < box.scrollTop || y > box.scrollTop + box.clientHeight - 15) box.scrollTop = y - box.clientHeight / 2;\n\
\x20 box.scrollLeft = X(points.find(t => on.has(t.node) && run.indexOf(t.node) >= k)) * unit - box.clientWidth / 2;\n\
}\n\
function marks() {\n\
\x20 const found = covered ? null : deciding(), at = (d, kind, text, title) => `<span class=\"${kind}\" data-step=\"${d}\" style=\"left:${100 * d / Math.max(1, last())}%\" title=\"${title}\">${text}</span>`, how = ends[endOf()].ends;\n\
\x20 el('decides').disabled = !found;\n\
\x20 el('marks').innerHTML = choices().filter(d => !found || d !== found.depth).map(d => at(d, 'choice', '\\u25c6', 'a choice')).join('') + (found ? at(found.depth, 'warn', '<b>\\u25bc</b>', 'the step that decides') : '') + at(last(), covered ? '' : kindOf(how), covered ? '?' : SIGN[how], 'the end');\n\
}\n\
\n\
// ---- keys, clicks, the address\n\
const KEYS = {\n\
\x20 ArrowRight: () => go(k + 1), ArrowLeft: () => go(k - 1), Home: () => go(0), End: () => go(last()),\n\
\x20 c: () => go(choices().find(d => d > k) ?? last()), u: () => go(choices().reverse().find(d => d < k) ?? 0),\n\
\x20 b: () => { const found = covered ? null : deciding(); if (found) go(found.depth); },\n\
\x20 m: () => goNext(fact => fact.kind === 'match'), r: () => goNext(fact => isOf(fact, k ? facts[k].rank : 0)),\n\
\x20 h: () => { covered = D.hide && !covered; title(); go(k); },\n\
};\n\
function pressed(event) {\n\
\x20 if (event.ctrlKey || event.metaKey || event.altKey) return;\n\
\x20 const key = event.key.length > 1 ? event.key : event.key.toLowerCase();\n\
\x20 if (/^[1-9]$/.test(key)) take(key - 1); else if (KEYS[key]) KEYS[key](); else if (/^(Enter| )$/.test(key) && event.target.closest('g[role]')) clicked(event); else return;\n\
\x20 event.preventDefault();\n\
}\n\
function clicked(event) {\n\
\x20 const of = event.target.closest('[data-go], [data-take], [data-end], [data-node], [data-step]'), data = of ? of.dataset : {};\n\
\x20 if (data.go) KEYS[data.go]();\n\
\x20 if (data.take) take(+data.take);\n\
\x20 const moment = of ? data.step : momentAt(event);\n\
\x20 if (moment !== undefined) go(+moment);\n\
\x20 if (data.end) choose(+data.end, Infinity);\n\
\x20 if (data.node) choose(run.includes(+data.node) ? endOf() : under[+data.node][0], pathTo(+data.node).length - 1);\n\
}\n\
// To the moment that the address names; else to the start of the first run that goes wrong, or of the first run where ends are covered.\n\
function come() {\n\
\x20 const at = new URLSearchParams(location.hash.slice(1)), bad = covered ? 0 : ends.findIndex(end => kindOf(end.ends) === 'bad');\n\
\x20 choose(Math.min(ends.length - 1, at.has('run') ? +at.get('run') || 0 : Math.max(0, bad)), +at.get('step') || 0);\n\
}\n\
function title() {\n\
\x20 el('name').textContent = D.name;\n\
\x20 document.title = `${D.name}: a run of ${N} ranks, step by step`;\n\
\x20 el('about').textContent = `${N} rank${N > 1 ? 's' : ''}, ${D.mode}${D.note ? `. ${D.note}` : ''}`;\n\
\x20 const losing = ends.filter(end => end.lost).length;\n\
\x20 el('verdict').textContent = covered ? '' : [...D.said, ...(losing ? [`requests are lost in ${losing} of the ${ends.length} shown`] : [])].join('; ');\n\
\x20 el('uncover').innerHTML = `${covered ? 'show' : 'cover'} ends <kbd>h</kbd>`;\n\
\x20 el('uncover').hidden = !D.hide;\n\
\x20 el('treepane').hidden = ends.length < 2 && !nodes.some((_, i) => isChoice(i));\n\
}\n\
function begin() {\n\
\x20 title();\n\
\x20 come();\n\
\x20 document.addEventListener('keydown', pressed);\n\
\x20 document.addEventListener('click', clicked);\n\
\x20 el('slider').addEventListener('input', () => go(+el('slider').value));\n\
\x20 el('lanes').addEventListener('scroll', () => requestAnimationFrame(lanes));\n\
\x20 addEventListener('hashchange', come);\n\
\x20 addEventListener('resize', () => { layout(); go(k); });\n\
\x20 for (const when of ['before', 'after']) addEventListener(`${when}print`, () => { printing = when === 'before'; lanes(); });\n\
}\n\
if (D) begin();\n\
</script>\n\
</body>\n\
</html>\n";
