//! The members of the objects of a report, and how they are written.
ghost use Rattle.std.specs.Prelude.{◌≡◌, ◌++◌, ◌∷◌, [], false, OnOk};
ghost use Rattle.serde_json.specs.Data.{string};
ghost use Rattle.serde_json.specs.Written.{comma_if, compact_text, members_text};
ghost use Rattle.zvt_json.specs.Strings.{hex_value};
ghost use Rattle.zvt_text.specs.MessageTexts.{four_digits};
ghost use Rattle.zvt_trace.specs.Marks.{moment_text};
ghost use Rattle.zvt_report.specs.Members.{difference_value, lines_value, member_text, name_text, object_text};
ghost use Rattle.zvt_report.specs.Members.{receipts_value, said, value_data, word_text};

use crate::card_texts::{quoted_name, quoted_number, type_words};
use crate::card_totals::CardGroup;
use crate::cases::{Case, Weight};
use crate::endings::Ending;
use crate::explaining::Explained;
use crate::findings::Finding;
use crate::member_groups::write_groups;
use crate::member_orders::write_orders;
use crate::order_names::order_name;
use std::alloc::AllocError;
use zvt_bcd::Currency;
use zvt_text::{Text, meaning};
use zvt_till::Cause;
use zvt_trace::Moment;

/// The object of a line.
#[derive(Clone, Copy)]
pub(crate) enum Object {
    Close,
    Look,
    Order,
    Other,
    Payment,
    Reversal,
    Summary,
}

impl Object {
    ghost use Rattle.std.specs.Prelude.{◌≡◌};
    ghost use Rattle.zvt_report.specs.Members.{object_name};

    /// Returns the name of the object.
    fn name(self) -> &'static str
        ensures { result.now ≡ object_name self }
    {
        match self {
            Object::Close => "close",
            Object::Look => "look",
            Object::Order => "order",
            Object::Other => "other",
            Object::Payment => "payment",
            Object::Reversal => "reversal",
            Object::Summary => "summary",
        }
    }
}

/// The name of a member.
#[derive(Clone, Copy)]
pub(crate) enum Name {
    Advice,
    Again,
    Amount,
    Approved,
    Bad,
    Book,
    Booked,
    Card,
    CardNumber,
    Case,
    Cause,
    Code,
    ConfirmedBy,
    Control,
    Currency,
    Differs,
    ExplainedBy,
    Groups,
    Lines,
    Looks,
    Messages,
    Name,
    Net,
    Order,
    Others,
    Outcome,
    Payment,
    Receipt,
    Receipts,
    ReversalUnclear,
    ReversalsUnclear,
    Reversed,
    ReversedBy,
    Stated,
    TakenBack,
    Terminal,
    Text,
    Time,
    TimeFrom,
    TimeTo,
    TimesBack,
    TimesBad,
    Title,
    Total,
    Trace,
    Unclear,
    UnclearAmount,
    Weight,
    Words,
}

impl Name {
    ghost use Rattle.std.specs.Prelude.{◌≡◌};
    ghost use Rattle.zvt_report.specs.Members.{name_text};

    /// Returns the name.
    fn text(self) -> &'static str
        ensures { result.now ≡ name_text self }
    {
        match self {
            Name::Advice => "advice",
            Name::Again => "again",
            Name::Amount => "amount",
            Name::Approved => "approved",
            Name::Bad => "bad",
            Name::Book => "book",
            Name::Booked => "booked",
            Name::Card => "card",
            Name::CardNumber => "card_number",
            Name::Case => "case",
            Name::Cause => "cause",
            Name::Code => "code",
            Name::ConfirmedBy => "confirmed_by",
            Name::Control => "control",
            Name::Currency => "currency",
            Name::Differs => "differs",
            Name::ExplainedBy => "explained_by",
            Name::Groups => "groups",
            Name::Lines => "lines",
            Name::Looks => "looks",
            Name::Messages => "messages",
            Name::Name => "name",
            Name::Net => "net",
            Name::Order => "order",
            Name::Others => "others",
            Name::Outcome => "outcome",
            Name::Payment => "payment",
            Name::Receipt => "receipt",
            Name::Receipts => "receipts",
            Name::ReversalUnclear => "reversal_unclear",
            Name::ReversalsUnclear => "reversals_unclear",
            Name::Reversed => "reversed",
            Name::ReversedBy => "reversed_by",
            Name::Stated => "stated",
            Name::TakenBack => "taken_back",
            Name::Terminal => "terminal",
            Name::Text => "text",
            Name::Time => "time",
            Name::TimeFrom => "time_from",
            Name::TimeTo => "time_to",
            Name::TimesBack => "times_back",
            Name::TimesBad => "times_bad",
            Name::Title => "title",
            Name::Total => "total",
            Name::Trace => "trace",
            Name::Unclear => "unclear",
            Name::UnclearAmount => "unclear_amount",
            Name::Weight => "weight",
            Name::Words => "words",
        }
    }
}

/// A word of a closed list.
#[derive(Clone, Copy)]
pub(crate) enum Word {
    Case(Case),
    Finding(Finding),
    Weight(Weight),
    Cause(Cause),
    Ending(Ending),
    /// What this result code means, or no text if it is not listed.
    Meaning(u8),
    /// The name of the order with these control bytes, or no text if it has none.
    Command(u8, u8),
    /// The name of this card type, or no text if it has none.
    CardType(u8),
}

impl Word {
    ghost use Rattle.std.specs.Prelude.{◌≡◌};
    ghost use Rattle.zvt_report.specs.Members.{word_text};

    /// Returns the word. JSON escapes none of its characters.
    fn text(self) -> &'static str
        ensures { result.now ≡ word_text self }
    {
        match self {
            Word::Case(case) => case.name(),
            Word::Finding(finding) => finding.name(),
            Word::Weight(weight) => weight.name(),
            Word::Cause(cause) => cause.name(),
            Word::Ending(ending) => ending.name(),
            Word::Meaning(code) => meaning(code).unwrap_or(""),
            Word::Command(high, low) => order_name(high, low).unwrap_or(""),
            Word::CardType(card_type) => type_words(card_type),
        }
    }
}

/// The value of a member.
#[derive(Clone, Copy)]
pub(crate) enum Value {
    True,
    /// A number, or an amount in the smallest unit of the currency.
    Count(u128),
    /// The first number less the second one, which may be greater.
    Difference(u128, u128),
    /// The first and the last line of an order.
    Lines(u64, u64),
    /// A byte in hexadecimal.
    Byte(u8),
    /// Two bytes in hexadecimal.
    Bytes([u8; 2]),
    /// A terminal identifier in hexadecimal.
    Terminal([u8; 4]),
    /// The first and the last receipt number.
    Receipts([u8; 2], [u8; 2]),
    /// The numbers of these orders.
    Orders(Explained),
    /// The totals by card.
    Groups([CardGroup; 7]),
    Currency(Currency),
    Moment(Moment),
    Word(Word),
    /// The name of a card.
    CardName([u8; 24]),
    /// A masked card number.
    CardNumber([u8; 10]),
}

/// A member of an object.
#[derive(Clone, Copy)]
pub(crate) struct Member {
    pub(crate) name: Name,
    pub(crate) value: Value,
}

/// Writes the line of an object with the members that have a value.
pub(crate) fn write_object(
    text: &mut Text,
    object: Object,
    members: &[Option<Member>],
) -> Result<(), AllocError>
    ensures { OnOk result (text.new ≡ text.old ++ object_text object members.now) }
{
    text.word(b"{\"")?;
    text.word(object.name().as_bytes())?;
    text.word(b"\":{")?;
    write_members(text, members)?;
    text.word(b"}\n")
}

/// Writes the members of an object that have a value, and the end of the object.
fn write_members(text: &mut Text, members: &[Option<Member>]) -> Result<(), AllocError>
    ensures { OnOk result (text.new ≡ text.old ++ members_text false (said members.now)) }
{
    let mut later = false;
    let mut rest = members;
    'members: while let [first, after @ ..] = rest {
        if let Some(member) = first {
            write_member(text, later, member)?;
            later = true;
        }
        rest = after;
    }
    text.push(b'}')
}

/// Writes a member, with a comma before it if there is an earlier one.
pub(crate) fn write_member(text: &mut Text, later: bool, member: &Member) -> Result<(), AllocError>
    ensures { OnOk result (text.new ≡ text.old ++ member_text later member.now) }
{
    write_comma(text, later)?;
    write_name(text, member.name)?;
    write_value(text, &member.value)
}

/// Writes a comma if there is an earlier member.
pub(crate) fn write_comma(text: &mut Text, later: bool) -> Result<(), AllocError>
    ensures { OnOk result (text.new ≡ text.old ++ comma_if later) }
{
    if later {
        return text.push(b',');
    }
    Ok(())
}

/// Writes the name of a member and a colon.
pub(crate) fn write_name(text: &mut Text, name: Name) -> Result<(), AllocError>
    ensures { OnOk result (text.new ≡ text.old ++ 34 ∷ name_text name ++ 34 ∷ 58 ∷ []) }
{
    text.push(b'"')?;
    text.word(name.text().as_bytes())?;
    text.word(b"\":")
}

/// Writes a value.
fn write_value(text: &mut Text, value: &Value) -> Result<(), AllocError>
    ensures { OnOk result (text.new ≡ text.old ++ compact_text (value_data value.now)) }
{
    match value {
        Value::True => text.word(b"true"),
        Value::Count(number) => text.number(*number),
        Value::Difference(more, less) => write_difference(text, *more, *less),
        Value::Lines(first, last) => write_lines(text, *first, *last),
        Value::Byte(byte) => write_bytes(text, &[*byte]),
        Value::Bytes(bytes) => write_bytes(text, bytes.as_slice()),
        Value::Terminal(id) => write_bytes(text, id.as_slice()),
        Value::Receipts(first, last) => write_receipts(text, first.as_slice(), last.as_slice()),
        Value::Orders(orders) => write_orders(text, orders),
        Value::Groups(groups) => write_groups(text, groups.as_slice()),
        Value::Currency(currency) => write_currency(text, *currency),
        Value::Moment(moment) => write_moment(text, *moment),
        Value::Word(word) => write_word(text, *word),
        Value::CardName(name) => quoted_name(text, name.as_slice()),
        Value::CardNumber(number) => quoted_number(text, number.as_slice()),
    }
}

/// Writes the first number less the second one.
fn write_difference(text: &mut Text, more: u128, less: u128) -> Result<(), AllocError>
    ensures { OnOk result (text.new ≡ text.old ++ compact_text (difference_value more less)) }
{
    if less <= more {
        text.number(more - less)
    } else {
        text.push(b'-')?;
        text.number(less - more)
    }
}

/// Writes two receipt numbers as an array.
fn write_receipts(text: &mut Text, first: &[u8], last: &[u8]) -> Result<(), AllocError>
    ensures { OnOk result (text.new ≡ text.old ++ compact_text (receipts_value first.now last.now)) }
{
    text.push(b'[')?;
    write_bytes(text, first)?;
    text.push(b',')?;
    write_bytes(text, last)?;
    text.push(b']')
}

/// Writes two lines as an array.
fn write_lines(text: &mut Text, first: u64, last: u64) -> Result<(), AllocError>
    ensures { OnOk result (text.new ≡ text.old ++ compact_text (lines_value first last)) }
{
    text.push(b'[')?;
    text.number(first)?;
    text.push(b',')?;
    text.number(last)?;
    text.push(b']')
}

/// Writes bytes in hexadecimal, between quotation marks.
fn write_bytes(text: &mut Text, bytes: &[u8]) -> Result<(), AllocError>
    ensures { OnOk result (text.new ≡ text.old ++ compact_text (hex_value bytes.now)) }
{
    text.push(b'"')?;
    zvt_text::hexadecimal(text, bytes)?;
    text.push(b'"')
}

/// Writes the digits of a currency, between quotation marks.
fn write_currency(text: &mut Text, currency: Currency) -> Result<(), AllocError>
    ensures { OnOk result (text.new ≡ text.old ++ compact_text (string (four_digits currency))) }
{
    text.push(b'"')?;
    zvt_text::currency_digits(text, currency)?;
    text.push(b'"')
}

/// Writes a moment between quotation marks.
fn write_moment(text: &mut Text, moment: Moment) -> Result<(), AllocError>
    ensures { OnOk result (text.new ≡ text.old ++ compact_text (string (moment_text moment))) }
{
    text.push(b'"')?;
    text.word(moment.text().as_slice())?;
    text.push(b'"')
}

/// Writes a word between quotation marks.
fn write_word(text: &mut Text, word: Word) -> Result<(), AllocError>
    ensures { OnOk result (text.new ≡ text.old ++ compact_text (string (word_text word))) }
{
    text.push(b'"')?;
    text.word(word.text().as_bytes())?;
    text.push(b'"')
}
