//! The style of the page.

/// The style, for `GET /till.css`.
pub const STYLE: &str =
    r#":root{color-scheme:light dark;--paper:#fff;--ink:#1d1c1a;--soft:#5d5850;--line:#d9d4ca;--act:#a3231b;
--ok:#1f6b45;--wire:#2b4f7a}
@media(prefers-color-scheme:dark){:root{--paper:#1a1b1d;--ink:#e8e5df;--soft:#b0aaa1;--line:#3a3d41;--act:#ff9184;
--ok:#74cf9f;--wire:#9bbce8}}
*{box-sizing:border-box}
body{margin:0 auto;max-width:60rem;padding:1.5rem 1rem 4rem;background:var(--paper);color:var(--ink);
font:1rem/1.5 system-ui,sans-serif;font-variant-numeric:tabular-nums}
h1{font-size:1.6rem;margin:0}
h2{font-size:1.15rem;margin:2rem 0 .6rem}
p{margin:.4rem 0}
label{display:block;font-weight:600}
input{font:inherit;width:14rem;max-width:100%;padding:.5rem .6rem;border:1px solid var(--soft);border-radius:4px;
background:var(--paper);color:var(--ink)}
button{font:inherit;padding:.5rem 1rem;border:1px solid var(--wire);border-radius:4px;background:var(--paper);
color:var(--wire);cursor:pointer}
form button{background:var(--wire);color:var(--paper)}
button:disabled{opacity:.5;cursor:default}
:focus-visible{outline:2px solid var(--wire);outline-offset:2px}
[hidden]{display:none}
.row{display:flex;flex-wrap:wrap;gap:.6rem}
#line,#amount-help,caption{color:var(--soft)}
#outcome{margin:.8rem 0;min-height:1.5rem;font-weight:600}
#outcome.good{color:var(--ok)}
#outcome.bad{color:var(--act)}
#slip{margin:0;min-height:6rem;max-width:28rem;padding:.8rem;border:1px solid var(--line);white-space:pre-wrap;
font:.9rem/1.4 ui-monospace,monospace}
.wide{overflow-x:auto}
table{border-collapse:collapse;width:100%}
caption{text-align:left;padding-bottom:.3rem}
th,td{text-align:left;padding:.35rem .8rem .35rem 0;border-bottom:1px solid var(--line);white-space:nowrap}
td.number{text-align:right}
tr.unclear td{color:var(--act)}
tr.gone td.number{text-decoration:line-through}
#dialogue{list-style:none;margin:0;padding:0;max-height:24rem;overflow-y:auto;font:.85rem/1.5 ui-monospace,monospace}
#dialogue li{padding:.1rem 0;overflow-wrap:anywhere}
#dialogue li.terminal{padding-left:1.5rem}
"#;
