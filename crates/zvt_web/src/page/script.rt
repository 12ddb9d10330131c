//! The script of the page.

/// The script, for `GET /till.js`.
pub const SCRIPT: &str = r#"'use strict';

const LISTED = 300;
const at = (id) => document.getElementById(id);

// The token comes in the fragment, which is sent to nobody. It is kept for this tab, and leaves the address bar.
function readToken() {
  const given = location.hash.slice(1);
  if (given) {
    sessionStorage.setItem('token', given);
    history.replaceState(null, '', location.pathname);
  }
  return given || sessionStorage.getItem('token') || '';
}

const token = readToken();

function newKey() {
  const bytes = crypto.getRandomValues(new Uint8Array(16));
  return Array.from(bytes, (byte) => byte.toString(16).padStart(2, '0')).join('');
}

async function call(method, path, key, body) {
  const headers = { Authorization: 'Bearer ' + token };
  if (key) {
    headers['Idempotency-Key'] = key;
  }
  if (body) {
    headers['Content-Type'] = 'application/json';
  }
  const response = await fetch(path, { method, headers, body: body ? JSON.stringify(body) : undefined });
  const text = await response.text();
  if (response.status === 401) {
    at('locked').hidden = false;
  }
  return { status: response.status, text };
}

function parse(text) {
  try {
    return JSON.parse(text) || {};
  } catch (error) {
    return {};
  }
}

function say(text, tone) {
  const outcome = at('outcome');
  outcome.className = tone || '';
  outcome.textContent = text;
}

// ---- orders

// The order that was asked and not answered. It outlives a reload, so that it is asked again with its own key.
let order = parse(sessionStorage.getItem('order') || '{}');
let asking = false;

function keep(next) {
  order = next;
  sessionStorage.setItem('order', JSON.stringify(next));
  at('again').hidden = asking || !next.key;
}

function wait(waits) {
  asking = waits;
  for (const button of document.querySelectorAll('form button, #again, #ask, #book button')) {
    button.disabled = waits;
  }
  at('again').hidden = waits || !order.key;
}

const GOOD = { paid: 'Paid.', reversed: 'The payment was taken back.', 'day closed': 'The day is closed.' };
const BAD = { declined: 'Declined', aborted: 'Broken off', refused: 'Refused by the terminal' };

function outcomeOf(answer) {
  if (GOOD[answer.outcome]) {
    return GOOD[answer.outcome];
  }
  if (BAD[answer.outcome]) {
    return BAD[answer.outcome] + ': ' + (answer.words || 'code ' + answer.code) + '.';
  }
  if (answer.outcome === 'unclear') {
    return 'Unclear. Hand out nothing yet. ' + (answer.advice || 'Ask the terminal for its last transaction.');
  }
  return answer.outcome || '';
}

// An order was answered for good, unless it still runs or nothing was sent because something else was in the way.
function hear(result) {
  const answer = parse(result.text);
  if (result.status === 202) {
    say('The order is running. Ask again for its outcome.');
    return;
  }
  if (answer.error) {
    say(answer.message || answer.error, 'bad');
    if (result.status !== 409 && result.status !== 503) {
      keep({});
    }
    return;
  }
  if (!answer.outcome) {
    say('The service answered with status ' + result.status + '. Ask again.', 'bad');
    return;
  }
  say(outcomeOf(answer), GOOD[answer.outcome] ? 'good' : 'bad');
  keep({});
}

async function send() {
  wait(true);
  say(order.says);
  try {
    hear(await call('POST', order.path, order.key, order.body));
  } catch (error) {
    say('No answer came. The order may have reached the terminal. Ask again: it is sent at most once.', 'bad');
  }
  wait(false);
  readBook();
}

function start(says, path, body) {
  if (order.key) {
    say('The last order was not answered yet. Ask again first.', 'bad');
    return;
  }
  at('slip').textContent = '';
  keep({ says, path, body, key: newKey() });
  send();
}

async function ask(path, says) {
  try {
    const result = await call('POST', path);
    const answer = parse(result.text);
    say(answer.message || outcomeOf(answer) || says, result.status < 300 ? '' : 'bad');
  } catch (error) {
    say('The service does not answer.', 'bad');
  }
  readBook();
}

// ---- the book

function cell(row, text, kind) {
  const made = document.createElement('td');
  made.textContent = text === undefined ? '' : String(text);
  made.className = kind || '';
  row.append(made);
}

function stateOf(entry) {
  if (entry.settled) {
    return 'unclear, settled: ' + entry.settled;
  }
  if (entry.cause) {
    return 'unclear: ' + entry.cause;
  }
  if (entry.reversal_unclear) {
    return 'reversal unclear: ' + entry.reversal_unclear;
  }
  if (entry.reversed) {
    return 'taken back';
  }
  return entry.taken_back ? 'had been taken back' : 'paid';
}

function isOpen(entry) {
  return !entry.settled && Boolean(entry.cause || entry.reversal_unclear);
}

function showEntry(entry) {
  const row = document.createElement('tr');
  row.className = isOpen(entry) ? 'unclear' : entry.reversed || entry.taken_back ? 'gone' : '';
  cell(row, stateOf(entry));
  cell(row, entry.amount, 'number');
  cell(row, entry.at);
  cell(row, entry.receipt);
  cell(row, entry.trace);
  cell(row, entry.ref);
  cell(row, '');
  if (!entry.cause && !entry.reversed && !entry.taken_back && /^[A-Za-z0-9._-]{16,40}$/.test(entry.ref || '')) {
    const button = document.createElement('button');
    button.type = 'button';
    button.textContent = 'Take back ' + entry.amount;
    button.disabled = asking;
    button.addEventListener('click', () => start(
      'Taking ' + entry.amount + ' back. Follow the terminal.', '/payments/' + entry.ref + '/reversal'));
    row.lastChild.append(button);
  }
  at('book').append(row);
}

// The lines of the book: entries, unclear payments, what settling found of them by their numbers, and the total.
function showBook(lines) {
  const booked = lines.filter((line) => line.booked).map((line) => line.booked);
  const unclear = lines.filter((line) => line.unclear).map((line) => line.unclear);
  for (const line of lines.filter((found) => found.settled)) {
    const list = line.settled.unclear ? unclear : booked;
    const entry = list[(line.settled.unclear || line.settled.booked) - 1];
    if (entry) {
      entry.settled = line.settled.name;
    }
  }
  const entries = [...unclear, ...booked.reverse()];
  at('book').textContent = '';
  entries.filter(isOpen).forEach(showEntry);
  entries.filter((entry) => !isOpen(entry)).forEach(showEntry);
  const total = lines.find((line) => line.total !== undefined);
  at('total').textContent = total ? 'Total ' + total.total + ' in currency ' + total.currency : '';
}

async function readBook() {
  try {
    const result = await call('GET', '/book');
    if (result.status === 200) {
      showBook(result.text.split('\n').filter(Boolean).map(parse));
    }
  } catch (error) {
    at('total').textContent = 'The book could not be read.';
  }
}

// ---- events

function wordsOf(event) {
  if (event.lost) {
    return 'connection lost';
  }
  const words = [event.kind || '', event.words || '', event.text || ''];
  for (const field of event.fields || []) {
    words.push([field.name, field.value, field.words, field.text].filter((word) => word !== undefined).join(' '));
  }
  return words.filter(Boolean).join(', ') || JSON.stringify(event);
}

function showEvent(event) {
  if (event.key && event.outcome) {
    readBook();
    return;
  }
  if (event.kind === 'PrintLine' || event.kind === 'TextBlock') {
    at('slip').textContent += (event.text || '') + '\n';
  }
  const line = document.createElement('li');
  line.className = event.from === 'terminal' ? 'terminal' : 'till';
  line.textContent = (event.from ? event.from + ': ' : '') + wordsOf(event);
  const list = at('dialogue');
  list.append(line);
  while (list.childElementCount > LISTED) {
    list.firstChild.remove();
  }
  list.scrollTop = list.scrollHeight;
}

let lastEvent = '';

function takeBlock(block) {
  const data = [];
  for (const line of block.split('\n')) {
    if (line.startsWith('id: ')) {
      lastEvent = line.slice(4);
    } else if (line.startsWith('data: ')) {
      data.push(line.slice(6));
    }
  }
  if (data.length > 0) {
    showEvent(parse(data.join('\n')));
  }
}

async function listenOnce() {
  const headers = { Authorization: 'Bearer ' + token };
  if (lastEvent) {
    headers['Last-Event-ID'] = lastEvent;
  }
  const response = await fetch('/events', { headers });
  if (!response.ok) {
    at('locked').hidden = response.status !== 401;
    throw new Error(String(response.status));
  }
  at('line').textContent = 'Connected to the service';
  const reader = response.body.pipeThrough(new TextDecoderStream()).getReader();
  let text = '';
  for (;;) {
    const { value, done } = await reader.read();
    if (done) {
      return;
    }
    const blocks = (text + value).split('\n\n');
    text = blocks.pop();
    blocks.forEach(takeBlock);
  }
}

async function listen() {
  for (;;) {
    try {
      await listenOnce();
    } catch (error) {
      // The line below says that the service is away.
    }
    at('line').textContent = 'No connection to the service. Trying again.';
    await new Promise((resume) => setTimeout(resume, 2000));
  }
}

// ---- start

function begin() {
  at('pay').addEventListener('submit', (event) => {
    event.preventDefault();
    const amount = Number(at('amount').value);
    start('Paying ' + amount + '. Follow the terminal.', '/payments', { amount });
  });
  at('again').addEventListener('click', send);
  at('cancel').addEventListener('click', () => ask('/cancel', 'The terminal was asked to break off.'));
  at('ask').addEventListener('click', () => ask('/ask', 'The terminal was asked for its last transaction.'));
  if (!token) {
    at('locked').hidden = false;
    at('line').textContent = 'No token';
    return;
  }
  if (order.key) {
    say('The last order was not answered yet. Ask again: it is sent at most once.', 'bad');
  }
  wait(false);
  readBook();
  listen();
}

begin();
"#;
