//! The page of the service: pays, cancels, takes back, and shows the book and the dialogue with the terminal.
//!
//! Script and style are files of their own, because the policy of [`Kind::Html`](crate::Kind::Html) allows neither in
//! the page. The script takes the token from the fragment of the address, and shows what it receives as text only.

mod script;
mod style;

pub use script::SCRIPT;
pub use style::STYLE;

/// The page, for `GET /`.
pub const PAGE: &str = r#"<!doctype html>
<html lang="en">
<head>
<meta charset="utf-8">
<meta name="viewport" content="width=device-width,initial-scale=1">
<title>Till</title>
<link rel="stylesheet" href="/till.css">
<script src="/till.js" defer></script>
</head>
<body>
<header>
<h1>Till</h1>
<p id="line" role="status">Connecting to the service</p>
</header>
<main>
<section id="locked" aria-labelledby="locked-title" hidden>
<h2 id="locked-title">The token is missing or wrong</h2>
<p>Open this page again by the address of the service, followed by <code>#</code> and the content of its token file.</p>
</section>
<section id="orders" aria-labelledby="orders-title">
<h2 id="orders-title">Payment</h2>
<form id="pay">
<label for="amount">Amount in the smallest unit, such as cents</label>
<input id="amount" name="amount" type="text" inputmode="numeric" pattern="[1-9][0-9]{0,11}" maxlength="12"
 autocomplete="off" required aria-describedby="amount-help">
<p id="amount-help">1000 stands for 10.00 in a currency with two decimals.</p>
<button type="submit">Pay</button>
</form>
<p class="row">
<button id="cancel" type="button">Cancel at the terminal</button>
<button id="ask" type="button">Ask for the last transaction</button>
</p>
<div id="outcome" role="status" aria-live="polite"></div>
<p class="row"><button id="again" type="button" hidden>Ask again with the same key</button></p>
</section>
<section aria-labelledby="slip-title">
<h2 id="slip-title">Receipt</h2>
<pre id="slip" tabindex="0" aria-label="Lines that the terminal printed"></pre>
</section>
<section aria-labelledby="book-title">
<h2 id="book-title">Book</h2>
<p id="total"></p>
<div class="wide">
<table>
<caption>Payments, with what is unclear first</caption>
<thead>
<tr><th scope="col">State</th><th scope="col">Amount</th><th scope="col">Time</th><th scope="col">Receipt</th>
<th scope="col">Trace</th><th scope="col">Key</th><th scope="col">Action</th></tr>
</thead>
<tbody id="book"></tbody>
</table>
</div>
</section>
<section aria-labelledby="dialogue-title">
<h2 id="dialogue-title">Dialogue with the terminal</h2>
<ol id="dialogue"></ol>
</section>
</main>
</body>
</html>
"#;
