//! Writes the report of a trace as text.
ghost use Rattle.std.specs.Prelude.{◌≡◌, ◌++◌, OnOk};
ghost use Rattle.zvt_report.specs.TextReport.{bad_text, footer, looks_part, report_in, report_text, summary_part};
ghost use Rattle.zvt_report.specs.TextReport.{tables_part};

use crate::amounts::count;
use crate::books::DayBooks;
use crate::cases::Look;
use crate::close_table::closings_text;
use crate::closings::Closing;
use crate::currencies::{Decimals, Money, decimals_of, money_of};
use crate::finding_list::looks_text;
use crate::findings::Finding;
use crate::heading::head_part;
use crate::other_table::others_text;
use crate::payment_table::payments_text;
use crate::rows::OrderMessage;
use crate::summary;
use crate::times::{Times, clock_notes};
use std::alloc::{AllocError, Global};
use zvt_bcd::Currency;
use zvt_text::Text;
use zvt_trace::Tally;

/// Writes how many streams were refused or cut off.
#[tactic(auto, unfolding(crate::specs::TextReport::bad_text))]
fn bad_text(text: &mut Text, bad: u64) -> Result<(), AllocError>
    ensures { OnOk result (text.new ≡ text.old ++ bad_text bad) }
{
    if bad == 0 {
        return text.word(b"nothing refused or cut off.\n");
    }
    count(text, bad as usize, b"stream")?;
    text.word(b" refused or cut off.\n")
}

/// Writes how many messages the trace has.
#[tactic(auto, unfolding(crate::specs::TextReport::footer))]
pub(crate) fn footer(text: &mut Text, tally: Tally) -> Result<(), AllocError>
    ensures { OnOk result (text.new ≡ text.old ++ footer tally) }
{
    count(text, tally.messages as usize, b"message")?;
    text.word(b", ")?;
    bad_text(text, tally.bad)
}

/// Writes the summary, and an empty line.
#[tactic(auto, unfolding(crate::specs::TextReport::summary_part))]
fn summary_part(text: &mut Text, money: &Option<Money>, books: &DayBooks) -> Result<(), AllocError>
    ensures { OnOk result (text.new ≡ text.old ++ summary_part money.now books.now) }
{
    summary::write(text, money, books)?;
    text.push(b'\n')
}

/// Writes the orders that a person should look at and the findings, and an empty line.
#[tactic(auto, unfolding(crate::specs::TextReport::looks_part))]
fn looks_part(
    text: &mut Text,
    note: &mut Text,
    decimals: Decimals,
    books: &DayBooks,
    messages: &[OrderMessage],
    closings: &[Option<Closing>],
    looks: &[Look],
    findings: &[Finding],
) -> Result<(), AllocError>
    ensures { OnOk result (text.new ≡ text.old
        ++ looks_part decimals books.now messages.now closings.now looks.now findings.now) }
{
    let book = books.book.as_slice();
    let rows = books.orders.as_slice();
    looks_text(
        text, note, decimals, book, closings, messages, rows, looks, findings,
    )?;
    text.push(b'\n')
}

/// Writes the tables, and an empty line.
#[tactic(auto, unfolding(crate::specs::TextReport::tables_part))]
fn tables_part(
    text: &mut Text,
    note: &mut Text,
    decimals: Decimals,
    books: &DayBooks,
    messages: &[OrderMessage],
    closings: &[Option<Closing>],
) -> Result<(), AllocError>
    ensures { OnOk result (text.new ≡ text.old ++ tables_part decimals books.now messages.now closings.now) }
{
    let book = books.book.as_slice();
    let rows = books.orders.as_slice();
    payments_text(text, decimals, book, rows)?;
    others_text(text, note, decimals, book, messages, rows)?;
    closings_text(text, decimals, closings, rows)?;
    text.push(b'\n')
}

/// Writes the sections in this currency. The sentences are put together in `note`, whose own text is lost.
fn report_in(
    text: &mut Text,
    note: &mut Text,
    money: &Option<Money>,
    tally: Tally,
    terminal: Option<[u8; 4]>,
    times: &Times,
    books: &DayBooks,
    messages: &[OrderMessage],
    closings: &[Option<Closing>],
    looks: &[Look],
    findings: &[Finding],
) -> Result<(), AllocError>
    ensures { OnOk result (text.new ≡ text.old
        ++ report_in money.now tally terminal times.now books.now messages.now closings.now looks.now
        findings.now) }
{
    let decimals = decimals_of(money);
    head_part(text, times, terminal)?;
    summary_part(text, money, books)?;
    looks_part(
        text, note, decimals, books, messages, closings, looks, findings,
    )?;
    tables_part(text, note, decimals, books, messages, closings)?;
    footer(text, tally)?;
    clock_notes(text, times)
}

/// Writes the report of a trace: its head, what the day comes to, the orders that a person should look at, the
/// findings, the tables of orders, the ends of day, and how much of the trace was read. Fails only if memory runs out.
pub(crate) fn write(
    alloc: Global,
    text: &mut Text,
    tally: Tally,
    currency: Option<Currency>,
    terminal: Option<[u8; 4]>,
    times: &Times,
    books: &DayBooks,
    messages: &[OrderMessage],
    closings: &[Option<Closing>],
    looks: &[Look],
    findings: &[Finding],
) -> Result<(), AllocError>
    ensures { OnOk result (text.new ≡ text.old
        ++ report_text tally currency terminal times.now books.now messages.now closings.now looks.now
        findings.now) }
{
    let mut note = Text::new(alloc);
    let money = money_of(currency);
    report_in(
        text, &mut note, &money, tally, terminal, times, books, messages, closings, looks, findings,
    )
}
