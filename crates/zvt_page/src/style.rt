//! The style sheet of a page.

/// Colours of a light and a dark theme, the layout of a wide screen and of a narrow one, and of paper. It names no
/// other file.
pub(crate) const STYLE: &str = "
:root{color-scheme:light dark;--bg:#faf9f6;--paper:#fff;--ink:#1d1c1a;--soft:#625d56;--line:#e4e0d8;
--act:#a3231b;--check:#855600;--ok:#1f6b45;--wire:#33567f;
--sans:ui-sans-serif,system-ui,-apple-system,'Segoe UI',Roboto,Inter,'Helvetica Neue',Arial,sans-serif}
@media(prefers-color-scheme:dark){:root{--bg:#141517;--paper:#1c1e20;--ink:#e8e5df;--soft:#a8a299;
--line:#313437;--act:#ff9184;--check:#e6b252;--ok:#74cf9f;--wire:#8fb3e3}}
*{box-sizing:border-box}
html{-webkit-text-size-adjust:100%;scroll-padding-top:1rem}
body{margin:0;background:var(--bg);color:var(--ink);font:400 1rem/1.5 var(--sans);
font-variant-numeric:tabular-nums lining-nums;overflow-wrap:break-word}
.page{max-width:64rem;margin:0 auto;padding:2.5rem 1.5rem 4rem}
a{color:var(--wire);text-underline-offset:.15em;text-decoration-thickness:1px}
:focus-visible{outline:2px solid var(--wire);outline-offset:3px;border-radius:3px}
.skip{position:absolute;left:-99rem}
.skip:focus{left:1rem;top:1rem;background:var(--paper);padding:.5rem 1rem;z-index:2}
h1,h2,h3{line-height:1.2;margin:0;font-weight:620;letter-spacing:-.012em}
h1{font-size:1.9rem}h2{font-size:1.15rem;margin:3rem 0 1rem}h3{font-size:1rem;line-height:1.5rem}
p{margin:0}
.meta{margin-top:.5rem;color:var(--soft)}
.cards{display:grid;grid-template-columns:1.5fr repeat(4,1fr);margin:2rem 0 0;background:var(--paper);
border:1px solid var(--line);border-radius:10px}
.cards div{padding:1rem 1.15rem;border-left:1px solid var(--line)}.cards div:first-child{border:0}
.cards dt{font-size:.82rem;color:var(--soft)}
.cards dd{margin:.1rem 0 0;font-size:1.35rem;font-weight:620;letter-spacing:-.015em;white-space:nowrap}
.cards div:first-child dd:nth-of-type(1){font-size:1.85rem;line-height:2.1rem;margin-top:0}
.cards dd+dd{font-size:.82rem;font-weight:400;color:var(--soft);letter-spacing:0;margin-top:.15rem;
white-space:normal;line-height:1.35}
.cards .act dd:nth-of-type(1){color:var(--act)}
.look{list-style:none;margin:0;padding:0}
.look li{border-top:1px solid var(--line);padding:1.1rem 0;display:grid;grid-template-columns:5.2rem 1fr auto;
gap:0 1rem}
.look li:first-child{border-top:0;padding-top:.2rem}
.sev{font-size:.82rem;font-weight:620;line-height:1.5rem}
.act>.sev,.c-act{color:var(--act)}.check>.sev{color:var(--check)}.c-ok{color:var(--ok)}
.c-soft,.note>.sev{color:var(--soft)}.note>.sev::before{border-radius:50%}
.sev::before{content:'';display:inline-block;width:.55rem;height:.55rem;background:currentColor;
margin-right:.5rem;border-radius:1px;transform:rotate(45deg) scale(.9)}
.check>.sev::before{background:none;border:1.6px solid currentColor}
.look .why{grid-column:2;max-width:42rem;margin-top:.3rem}
.look .do{grid-column:2;max-width:42rem;margin-top:.5rem;padding-left:1.3rem;position:relative;font-weight:560}
.look .do::before{content:'\\2192';position:absolute;left:0;color:var(--soft);font-weight:400}
.look .at{grid-column:3;grid-row:1;color:var(--soft);font-size:.88rem;white-space:nowrap;line-height:1.5rem}
.none{color:var(--soft)}
table{border-collapse:collapse;width:100%}
.t th{font-size:.82rem;font-weight:400;color:var(--soft);text-align:left;padding:.35rem .9rem .35rem 0;
border-bottom:1px solid var(--line);vertical-align:bottom}
.t td{padding:.5rem .9rem .5rem 0;border-bottom:1px solid var(--line);vertical-align:baseline;white-space:nowrap}
.t .n{text-align:right}.t .oc{white-space:normal;min-width:9rem}
.t td:last-child,.t th:last-child{padding-right:0}
.t .i{color:var(--soft)}
.t .gone .am{color:var(--soft);text-decoration:line-through}
.dot::before{content:'';display:inline-block;width:.5rem;height:.5rem;border-radius:50%;background:currentColor;
margin-right:.5rem;vertical-align:.06em}
.dot.c-act::before{border-radius:1px;transform:rotate(45deg)}
.dot.c-soft::before{background:none;border:1.5px solid currentColor}
.slip{margin:.5rem 0 1.2rem;max-width:32rem;padding:.8rem 1rem;background:var(--paper);border:1px solid var(--line);
font:.82rem/1.5 ui-monospace,SFMono-Regular,Menlo,Consolas,'DejaVu Sans Mono',monospace;white-space:pre-wrap}
.slip span{display:block;min-height:1.5em}
.dlg{list-style:none;margin:1rem 0 0;padding:0}
.dlg li{display:flex;gap:.8rem;padding:.2rem 0;scroll-margin-top:1rem}
.dlg .ln{min-width:5ch;text-align:right;color:var(--soft);font-size:.82rem;line-height:1.9}
.say{flex:1;min-width:0;padding:.15rem .8rem;border-left:3px solid var(--line);
font:.82rem/1.5 ui-monospace,SFMono-Regular,Menlo,Consolas,'DejaVu Sans Mono',monospace;
white-space:pre-wrap;overflow-wrap:anywhere}
.say div{padding-left:2ch;text-indent:-2ch}.say div:first-child{font-weight:620}
.till .say{margin-right:16%;border-color:var(--wire)}.terminal .say{margin-left:16%;border-color:var(--ok)}
.bad .say,.lost .say{border-color:var(--act);color:var(--act)}.lost .say{border-left-style:dashed}
.dlg li:target .say{background:var(--paper);outline:2px solid var(--wire)}
footer{margin-top:3.5rem;border-top:1px solid var(--line);padding-top:1.2rem;color:var(--soft);font-size:.88rem}
@media(max-width:46rem){
.page{padding:1.4rem 1rem 3rem}h1{font-size:1.5rem}h2{margin:2.2rem 0 .7rem}
.cards{grid-template-columns:1fr 1fr}.cards div{border-left:0;border-top:1px solid var(--line);padding:.8rem 1rem}
.cards div:first-child{grid-column:1/-1;border-top:0}
.cards div:nth-child(odd):not(:first-child){border-left:1px solid var(--line)}
.look li{grid-template-columns:1fr auto}.sev{grid-row:1}
.look h3,.look .why,.look .do{grid-column:1/-1}.look .at{grid-column:2;grid-row:1}
.t thead{position:absolute;clip-path:inset(50%);width:1px;height:1px;overflow:hidden}
.t tr{display:grid;grid-template-columns:auto 1fr auto;gap:0 .7rem;padding:.6rem 0;border-bottom:1px solid var(--line)}
.t td{padding:0;border:0;white-space:normal}
.t .i{grid-area:1/1}.t .cd{grid-area:1/1/2/3}.t .ca{grid-area:1/2}.t .am{grid-area:1/3}
.t .ids{grid-area:2/1/3/3;color:var(--soft);font-size:.88rem}
.t .rc{grid-area:2/3;text-align:right;color:var(--soft);font-size:.88rem}
.t .oc{grid-area:3/1/4/3;font-size:.92rem}.t .ln{grid-area:3/3;text-align:right;font-size:.88rem}
.t .tm{grid-area:4/1/5/4;color:var(--soft);font-size:.88rem}
.dlg li{gap:.5rem}.dlg .ln{min-width:3ch}.say{padding:.1rem .5rem}
.till .say{margin-right:0}.terminal .say{margin-left:1.2rem}
.t .ids:not(:empty)::before{content:'trace '}.t .rc:not(:empty)::before{content:'receipt '}
}
@media print{
@page{size:A4;margin:14mm 13mm}
:root{--bg:#fff;--paper:#fff;--ink:#000;--soft:#4a4a4a;--line:#cfcfcf;--act:#8f1a12;--check:#6d4700;
--ok:#14532f;--wire:#26456b;color-scheme:light}
body{font-size:9.6pt}.page{max-width:none;padding:0}.skip{display:none}
h1{font-size:17pt}h2{font-size:12pt;margin:1.6rem 0 .6rem;break-after:avoid}
.cards div{padding:.6rem .8rem}.cards dd{font-size:12pt}
.cards div:first-child dd:nth-of-type(1){font-size:16pt}
.t td{padding-top:.25rem;padding-bottom:.25rem}.look li,.t tr,.cards,.dlg li{break-inside:avoid}
.say{font-size:7.6pt;padding:0 .5rem}.dlg .ln{font-size:7.6pt;line-height:1.5}.dlg li{padding:.1rem 0}
thead{display:table-header-group}
}
";
