//! The parts of a page that are the same in each.

/// What stands before the title: nothing is loaded, and the one style is that of the page.
pub const HEAD: &str = r#"<!doctype html>
<html lang=en>
<head>
<meta charset=utf-8>
<meta name=viewport content="width=device-width">
<meta http-equiv=Content-Security-Policy content="default-src 'none';style-src 'unsafe-inline'">
<title>"#;

/// What stands between the title and the heading: the style, light or dark as the reader likes it, and for paper. A
/// browser lays out only the lines that are seen, each of which is one line high.
pub const STYLE: &str = r#"</title>
<style>
:root{color-scheme:light dark;--ink:#1c2127;--paper:#fff;--dim:#5f6b76;--link:#0b57a4;
--rule:#d6dce2;--bad:#a4161a;--bad-paper:#fdeaea;--walk-paper:#fff2cc;--here:#e2f0ff}
@media(prefers-color-scheme:dark){:root{--ink:#dfe5eb;--paper:#15191d;--dim:#95a2ae;--link:#7fb9ff;
--rule:#363f48;--bad:#ff9d98;--bad-paper:#401d1e;--walk-paper:#3d3413;--here:#1d344d}}
*{print-color-adjust:exact;-webkit-print-color-adjust:exact}
body{margin:0;color:var(--ink);background:var(--paper);font:14px/1.5 system-ui,sans-serif}
a{color:var(--link);text-decoration:none}
a:hover,a:focus{text-decoration:underline}
nav{box-sizing:border-box;padding:1em;border-bottom:1px solid var(--rule);overflow-wrap:anywhere}
nav h1{font-size:1.2em;margin:0 0 .5em}
nav p{margin:0 0 .5em;padding:.25em .5em}
nav details a{display:block;padding-left:1em}
nav summary a{display:inline;padding:0}
main{padding:1em;overflow-x:auto;font:13px/1.5 ui-monospace,monospace}
main div{width:max-content;white-space:pre;content-visibility:auto;contain-intrinsic-size:auto 1.5em}
main h2,main h3{display:inline;font:inherit;font-weight:bold;margin:0}
main i{font-style:normal;color:var(--dim)}
main u{float:right;padding:.15em 0 0 1ch;font-size:.85em;text-decoration:none}
main u a:before{content:attr(href)" "}
main .walk{background:var(--walk-paper)}
nav .fault,nav .fault a,main .fault,main .fault i{color:var(--bad)}
nav .fault,main .fault{background:var(--bad-paper)}
main div:target{background:var(--here)}
@media(min-width:70em){body{display:flex;align-items:flex-start}
nav{position:sticky;top:0;flex:0 0 20em;height:100vh;overflow-y:auto;border:0;border-right:1px solid var(--rule)}
main{flex:1;min-width:0}}
@media print{body{display:block}nav{position:static;height:auto;border:0}main{overflow:visible}
main div{width:auto;white-space:pre-wrap;content-visibility:visible}main u{float:none}}
</style>
</head>
<body>
<nav>
<h1>"#;

/// What stands behind the heading.
pub const TITLED: &str = r#"</h1>
"#;

/// What begins the list of contents.
pub const LIST: &str = r#"<details open>
<summary>Sections</summary>
"#;

/// What stands between the list of contents and the lines.
pub const MIDDLE: &str = r#"</details>
</nav>
<main>"#;

/// What stands behind the lines.
pub const END: &str = r#"</main>
</body>
</html>
"#;
