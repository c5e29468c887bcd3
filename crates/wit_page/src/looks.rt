//! The looks of the page.

/// A style sheet, for a narrow page and a wide one, a light one and a dark one, and for paper.
pub(crate) const LOOKS: &str = r#":root {
  color-scheme: light dark;
  --paper: #ffffff;
  --ground: #f3f4f6;
  --ink: #1b1f24;
  --faint: #4f5862;
  --line: #d0d7de;
  --code: #f6f8fa;
  --mark: #fff1b8;
  --held: #0b5cad;
  --asked: #b42318;
  --step: #116329;
  --bad: #c62419;
  --bad-ground: #fdecea;
  --good: #116329;
  --good-ground: #e6f4ea;
  --accent: #0b5cad;
}
@media (prefers-color-scheme: dark) {
  :root {
    --paper: #161b22;
    --ground: #0d1117;
    --ink: #e6edf3;
    --faint: #9aa5b1;
    --line: #3a434e;
    --code: #0f141a;
    --mark: #4b3a06;
    --held: #79b8ff;
    --asked: #ff9d94;
    --step: #7ee2a0;
    --bad: #ff7b72;
    --bad-ground: #3c1512;
    --good: #7ee2a0;
    --good-ground: #11291a;
    --accent: #79b8ff;
  }
}
* { box-sizing: border-box; }
html { -webkit-text-size-adjust: 100%; text-size-adjust: 100%; scroll-padding-top: 4.5rem; }
body {
  margin: 0;
  background: var(--ground);
  color: var(--ink);
  font: 16px/1.5 system-ui, -apple-system, "Segoe UI", Roboto, "Noto Sans", "DejaVu Sans", sans-serif;
}
code, pre, .type { font-family: ui-monospace, SFMono-Regular, Menlo, Consolas, "DejaVu Sans Mono", monospace; }
code { font-size: 0.92em; overflow-wrap: anywhere; }
a { color: var(--accent); }
:focus-visible { outline: 3px solid var(--accent); outline-offset: 2px; }
header, main, footer { max-width: 76rem; margin: 0 auto; padding: 0 1.25rem; }
header { padding-top: 1.5rem; }
h1 { font-size: 1.6rem; line-height: 1.25; margin: 0 0 0.4rem; overflow-wrap: anywhere; }
h2 { font-size: 1.25rem; margin: 2.2rem 0 0.8rem; }
h3 { font-size: 1.08rem; margin: 0; line-height: 1.35; overflow-wrap: anywhere; }
h4 { font-size: 0.95rem; margin: 0 0 0.4rem; }
.origin { margin: 0 0 0.4rem; font-size: 0.9rem; color: var(--faint); overflow-wrap: anywhere; }
.summary { font-size: 1.05rem; margin: 0 0 0.6rem; overflow-wrap: anywhere; }
.faint { color: var(--faint); }
.skip { position: absolute; left: -100rem; }
.skip:focus { left: 1rem; top: 0.5rem; background: var(--paper); padding: 0.4rem 0.8rem; z-index: 3; }
.contents { display: flex; flex-wrap: wrap; gap: 0.2rem 1.2rem; list-style: none; margin: 0.4rem 0 0; padding: 0; }

.finder {
  display: none;
  position: sticky;
  top: 0;
  z-index: 2;
  flex-wrap: wrap;
  gap: 0.6rem 1rem;
  align-items: end;
  background: var(--ground);
  border-bottom: 1px solid var(--line);
  padding: 0.6rem 0;
  margin-top: 0.8rem;
}
.works .finder { display: flex; }
.finder label { display: grid; font-size: 0.85rem; color: var(--faint); }
.finder .words { flex: 1 1 14rem; }
.finder input, .finder select, button {
  font: inherit;
  color: var(--ink);
  background: var(--paper);
  border: 1px solid var(--faint);
  border-radius: 6px;
  padding: 0.4rem 0.6rem;
  min-height: 2.6rem;
  max-width: 100%;
}
.finder select { max-width: 18rem; }
button { cursor: pointer; }
button:hover { border-color: var(--accent); }
.count { margin: 0; font-size: 0.9rem; color: var(--faint); flex-basis: 100%; }

.card {
  background: var(--paper);
  border: 1px solid var(--line);
  border-left: 5px solid var(--bad);
  border-radius: 8px;
  padding: 1rem 1.1rem 1.1rem;
  margin: 0 0 1.2rem;
}
.card.silenced { border-left-color: var(--faint); }
.card header { padding: 0; margin: 0 0 0.8rem; max-width: none; }
.card .kind { color: var(--bad); font-weight: 700; font-size: 0.85rem; margin: 0; }
.card.silenced .kind { color: var(--faint); }
.card .link { font-size: 0.8rem; font-weight: 400; white-space: nowrap; }
.card .facts { margin: 0.2rem 0 0; font-size: 0.9rem; color: var(--faint); overflow-wrap: anywhere; }
.card .single { margin: 0.5rem 0 0; padding: 0.35rem 0.7rem; border-left: 4px solid var(--line); background: var(--code); font-size: 0.92rem; overflow-wrap: anywhere; }
.card .single.bad { border-left-color: var(--bad); }
.hidden { display: none; }

.columns { display: grid; grid-template-columns: repeat(auto-fit, minmax(min(100%, 24rem), 1fr)); gap: 1rem; }
.place { min-width: 0; border-top: 3px solid var(--line); padding-top: 0.5rem; margin: 0 0 0.8rem; }
.place.held { border-top-color: var(--held); }
.place.asked { border-top-color: var(--asked); }
.place.held > h4 { color: var(--held); }
.place.asked > h4 { color: var(--asked); }
.place p { margin: 0 0 0.3rem; font-size: 0.92rem; overflow-wrap: anywhere; }
.steps { margin: 0; padding: 0 0 0 1.4rem; }
.steps > li { margin: 0 0 0.8rem; }
.steps > li::marker { color: var(--step); font-weight: 700; }
.steps p { margin: 0 0 0.3rem; overflow-wrap: anywhere; }
.part { margin: 1rem 0 0.4rem; }

pre.source {
  margin: 0.4rem 0;
  padding: 0.35rem 0;
  background: var(--code);
  border: 1px solid var(--line);
  border-radius: 6px;
  overflow-x: auto;
  font-size: 0.82rem;
  line-height: 1.45;
  tab-size: 4;
}
pre.source code { display: block; width: max-content; min-width: 100%; font-size: inherit; overflow-wrap: normal; }
pre.source .row { display: block; padding: 0 0.7rem 0 0; }
pre.source .row::before {
  content: attr(data-line);
  display: inline-block;
  width: 3.6rem;
  padding-right: 0.8rem;
  text-align: right;
  color: var(--faint);
}
pre.source mark { background: var(--mark); color: var(--ink); font-weight: 600; }
pre.source mark.row::before { color: var(--ink); }
.nosource { font-size: 0.85rem; color: var(--faint); margin: 0.2rem 0; }

details > summary { cursor: pointer; font-size: 0.9rem; color: var(--accent); padding: 0.25rem 0; }
.callers { margin: 0.2rem 0 0.4rem; padding-left: 1.6rem; font-size: 0.88rem; }
.callers li { overflow-wrap: anywhere; }
.advice { margin: 0; padding-left: 1.4rem; }
.advice li { margin: 0 0 0.25rem; overflow-wrap: anywhere; }
.silence { display: flex; flex-wrap: wrap; gap: 0.5rem; align-items: center; margin: 0.6rem 0 0; }
.silence span { font-size: 0.9rem; color: var(--faint); }
.silence code { background: var(--code); border: 1px solid var(--line); border-radius: 6px; padding: 0.45rem 0.6rem; flex: 1 1 16rem; }
.silence button { display: none; }
.works .silence button { display: inline-block; }

.good { background: var(--good-ground); color: var(--good); border: 1px solid var(--good); border-radius: 8px; padding: 0.8rem 1rem; }
.told { margin: 0; padding-left: 1.4rem; }
.told li { overflow-wrap: anywhere; margin: 0 0 0.3rem; }

.picture { background: var(--paper); border: 1px solid var(--line); border-radius: 8px; padding: 0.6rem; overflow-x: auto; margin: 0 0 0.6rem; }
.picture img { display: block; max-width: none; }
@media (prefers-color-scheme: dark) { .picture img { filter: invert(0.92) hue-rotate(180deg); } }
#orders h3 { margin: 0 0 0.5rem; }
.legend { font-size: 0.88rem; color: var(--faint); margin: 0 0 0.6rem; }
.legend b { color: var(--bad); font-weight: 600; }

.schedule td { min-width: 11rem; }
.schedule td.gets { border-left: 4px solid var(--held); }
.schedule td.waits { border-left: 4px solid var(--asked); color: var(--asked); font-weight: 600; }
.schedule tr.rests td { background: var(--mark); color: var(--ink); }
.schedule .line { display: block; margin-top: 0.2rem; font-weight: 400; color: var(--ink); }
.schedule .nosource { color: inherit; font-weight: 400; }

.wide { overflow-x: auto; }
table { border-collapse: collapse; font-size: 0.9rem; min-width: 60%; background: var(--paper); }
caption { text-align: left; font-size: 0.9rem; color: var(--faint); padding: 0.3rem 0; }
th, td { text-align: left; vertical-align: top; border: 1px solid var(--line); padding: 0.35rem 0.6rem; }
td { min-width: 4.5rem; overflow-wrap: anywhere; }
td:has(code) { min-width: 8rem; }
th { background: var(--code); white-space: nowrap; }
td.bad { color: var(--bad); }
footer { padding-top: 1.5rem; padding-bottom: 2rem; font-size: 0.85rem; color: var(--faint); }

@media (max-width: 45rem) {
  header, main, footer { padding-left: 0.8rem; padding-right: 0.8rem; }
  .columns { grid-template-columns: minmax(0, 1fr); gap: 0; }
  .card { padding: 0.8rem; }
  h1 { font-size: 1.35rem; }
  pre.source .row::before { width: 2.9rem; padding-right: 0.6rem; }
  .finder { position: static; }
  .finder label { flex: 1 1 100%; }
  .finder select { max-width: 100%; }
  table { min-width: 100%; }
}

@media print {
  :root {
    color-scheme: light;
    --paper: #ffffff; --ground: #ffffff; --ink: #000000; --faint: #444444; --line: #bbbbbb; --code: #f6f6f6;
    --mark: #eeeeee; --held: #003b73; --asked: #8f1409; --step: #0b4a1e; --bad: #a5180d; --bad-ground: #ffffff;
    --good: #0b4a1e; --good-ground: #ffffff; --accent: #000000;
  }
  body { font-size: 10.5pt; }
  header, main, footer { max-width: none; padding-left: 0; padding-right: 0; }
  .finder, .works .finder, .skip, .contents, .works .silence button { display: none; }
  .card { border-radius: 0; box-shadow: none; }
  .place, .card > header, pre.source, .steps > li { break-inside: avoid; }
  h2, h3, h4, .part { break-after: avoid; }
  pre.source { white-space: pre-wrap; overflow: visible; font-size: 8.5pt; }
  pre.source code { width: auto; }
  pre.source .row { padding-left: 3.6rem; text-indent: -3.6rem; }
  pre.source .row::before { text-indent: 0; width: 3.6rem; padding-right: 0.8rem; }
  pre.source mark { outline: 1px solid #444444; }
  details::details-content { display: block; content-visibility: visible; }
  details > summary { list-style: none; }
  .picture { border: 0; padding: 0; overflow: visible; }
  .picture img { max-width: 100%; height: auto; filter: none; }
}
"#;
