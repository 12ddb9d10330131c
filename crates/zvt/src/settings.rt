//! The settings of a till, and the verdict and the extras of a terminal, from the arguments.
ghost use Rattle.std.specs.Prelude.{◌≡◌, IfOk};
ghost use Rattle.zvt_runs.specs.Settings.{config_of, currency_of, password_of};
ghost use Rattle.zvt.specs.Settings.{AreExtras, AreSettings, card_named, card_of, named, receipts_of, verdict_named};

use crate::reports::report_invalid;
use std::io;
use zvt_bcd::Currency;
use zvt_runs::{config_of, currency_of, password_of, result_code};
use zvt_term::{Card, Extras, Receipts, Verdict};
use zvt_till::{Rules, TillSettings};
use zvt_tool::{ServeOptions, TerminalOptions, TillOptions};

/// Returns the settings that the words name, with the default for each missing word. Reports the first wrong word, and
/// returns `None` then.
pub fn settings(rt: &HostRuntime, options: &TillOptions<'_>) -> io::Result<Option<TillSettings>>
    ensures { IfOk result (λ settings. AreSettings options.now settings) }
{
    let default = TillSettings::default();
    let Some(password) = password(rt, default.password, options.password)? else {
        return Ok(None);
    };
    let Some(config) = config(rt, default.config, options.config)? else {
        return Ok(None);
    };
    let Some(currency) = currency(rt, default.currency, options.currency)? else {
        return Ok(None);
    };
    Ok(Some(TillSettings {
        password,
        config,
        currency,
        rules: Rules {
            close_by_completion: options.close_by_completion,
            reversal_by_receipt: options.reversal_by_receipt,
        },
    }))
}

/// Returns the settings of a service that the words name, with the default for each missing word. Reports the first
/// wrong word, and returns `None` then.
pub fn service_settings(
    rt: &HostRuntime,
    options: &ServeOptions<'_>,
) -> io::Result<Option<TillSettings>> {
    let default = TillSettings::default();
    let Some(password) = password(rt, default.password, options.password)? else {
        return Ok(None);
    };
    let Some(config) = config(rt, default.config, options.config)? else {
        return Ok(None);
    };
    let Some(currency) = currency(rt, default.currency, options.currency)? else {
        return Ok(None);
    };
    Ok(Some(TillSettings {
        password,
        config,
        currency,
        ..default
    }))
}

/// Returns what was read from a word, and reports the word if it could not be read.
fn reported<T: Copy>(
    rt: &HostRuntime,
    read: Option<T>,
    what: &str,
    word: &str,
    expected: &str,
) -> io::Result<Option<T>>
    ensures { IfOk result (λ same. same ≡ read) }
{
    if read.is_none() {
        report_invalid(rt, what, word, expected)?;
    }
    Ok(read)
}

/// Returns the password that the word names, or the default one. Reports a wrong word.
fn password(rt: &HostRuntime, default: [u8; 3], word: Option<&str>) -> io::Result<Option<[u8; 3]>>
    ensures { IfOk result (λ password. password ≡ named default password_of word.entry) }
{
    let Some(word) = word else {
        return Ok(Some(default));
    };
    let expected = "expected six decimal digits, e.g. 000000";
    reported(rt, password_of(word), "password", word, expected)
}

/// Returns the configuration byte that the word names, or the default one. Reports a wrong word.
fn config(rt: &HostRuntime, default: u8, word: Option<&str>) -> io::Result<Option<u8>>
    ensures { IfOk result (λ config. config ≡ named default config_of word.entry) }
{
    let Some(word) = word else {
        return Ok(Some(default));
    };
    let expected = "expected two hexadecimal digits, e.g. BE";
    reported(rt, config_of(word), "configuration byte", word, expected)
}

/// Returns the currency that the word names, or the default one. Reports a wrong word.
fn currency(rt: &HostRuntime, default: Currency, word: Option<&str>) -> io::Result<Option<Currency>>
    ensures { IfOk result (λ currency. currency ≡ named default currency_of word.entry) }
{
    let Some(word) = word else {
        return Ok(Some(default));
    };
    let expected = "expected four decimal digits, e.g. 0978";
    reported(rt, currency_of(word), "currency", word, expected)
}

/// Returns the terminal's decision on payments: it declines them with the code that the word names, or approves them if
/// there is no word. Reports a wrong word.
pub fn verdict(rt: &HostRuntime, decline: Option<&str>) -> io::Result<Option<Verdict>>
    ensures { IfOk result (λ verdict. verdict ≡ verdict_named decline.entry) }
{
    let Some(word) = decline else {
        return Ok(Some(Verdict::Approve));
    };
    let expected = "expected two hexadecimal digits other than 00, e.g. 6C";
    let code = reported(rt, result_code(word), "result code", word, expected)?;
    Ok(code.map(Verdict::Decline))
}

/// Returns what the terminal does beyond the profile. Reports the first wrong word, and returns `None` then.
pub fn extras(rt: &HostRuntime, options: &TerminalOptions<'_>) -> io::Result<Option<Extras>>
    ensures { IfOk result (λ extras. AreExtras options.now extras) }
{
    let Some(card) = card(rt, options.card)? else {
        return Ok(None);
    };
    let Some(receipts) = receipts(rt, options.receipt)? else {
        return Ok(None);
    };
    Ok(Some(Extras {
        extended: options.extended,
        card,
        receipts,
        intermediate: options.intermediate,
        delay: options.delay,
    }))
}

/// Returns the card that the word names.
fn card_of(word: &str) -> Option<Card>
    ensures { result ≡ card_of word.now }
{
    match word {
        "girocard" => Some(Card::Girocard),
        "visa" => Some(Card::Visa),
        _ => None,
    }
}

/// Returns the card that the word names, or no card if there is no word. Reports a wrong word.
fn card(rt: &HostRuntime, word: Option<&str>) -> io::Result<Option<Option<Card>>>
    ensures { IfOk result (λ card. card ≡ card_named word.entry) }
{
    let Some(word) = word else {
        return Ok(Some(None));
    };
    let expected = "expected girocard or visa";
    let card = reported(rt, card_of(word), "card", word, expected)?;
    Ok(card.map(Some))
}

/// Returns the form of receipts that the word names.
fn receipts_of(word: &str) -> Option<Receipts>
    ensures { result ≡ receipts_of word.now }
{
    match word {
        "lines" => Some(Receipts::Lines),
        "blocks" => Some(Receipts::Blocks),
        "none" => Some(Receipts::Nothing),
        _ => None,
    }
}

/// Returns the form of receipts that the word names, or lines if there is no word. Reports a wrong word.
fn receipts(rt: &HostRuntime, word: Option<&str>) -> io::Result<Option<Receipts>>
    ensures { IfOk result (λ receipts. receipts ≡ named Receipts.Lines receipts_of word.entry) }
{
    let Some(word) = word else {
        return Ok(Some(Receipts::Lines));
    };
    let expected = "expected lines, blocks or none";
    reported(rt, receipts_of(word), "form of receipts", word, expected)
}
