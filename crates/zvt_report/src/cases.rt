//! The orders that a person should look at, and why.
ghost use Rattle.std.specs.Prelude.{◌≡◌, ◌+◌, ◌<◌, ◌^◌, IfOk, length};
ghost use Rattle.zvt_report.specs.Looks.{case_as, close_case, confirmed_if, elsewhere_case, foreign_case, look_at};
ghost use Rattle.zvt_report.specs.Looks.{look_with, looks, money_case, other_payment, refused_case, reversal_case};
ghost use Rattle.zvt_report.specs.Looks.{undoing_at, undone_if};

use crate::alike::{is_marked, repeated_at, repeated_payments};
use crate::closings::Closing;
use crate::differing::differs_at;
use crate::kinds::{OrderKind, kind_at};
use crate::later_orders::{ALREADY_REVERSED, confirming, is_decided, paid_again};
use crate::payment_cases::paid_case;
use crate::rows::{OrderMessage, OrderRow};
use crate::statements::{Statement, Undoing};
use std::alloc::{AllocError, Global};
use zvt_bcd::Trace;
use zvt_till::{Entry, Outcome, Sent};

/// How urgent it is to look at an order, or at a finding.
#[derive(Clone, Copy)]
pub enum Weight {
    /// Money may be wrong, and a person can settle it.
    Act,
    /// A person should compare the order with the terminal's journal.
    Check,
    /// The makers of the till and of the terminal should know it.
    Note,
}

impl Weight {
    ghost use Rattle.std.specs.Prelude.{◌≡◌};
    ghost use Rattle.zvt_report.specs.Words.{is_act, weight_name};

    /// Returns the word as every output writes it.
    pub fn name(self) -> &'static str
        ensures { result.now ≡ weight_name self }
    {
        match self {
            Weight::Act => "act",
            Weight::Check => "check",
            Weight::Note => "note",
        }
    }

    /// Whether someone must act.
    pub(crate) fn is_urgent(self) -> bool
        ensures { result ≡ is_act self }
    {
        match self {
            Weight::Act => true,
            Weight::Check | Weight::Note => false,
        }
    }
}

/// Why a person should look at an order.
#[derive(Clone, Copy)]
pub enum Case {
    /// The terminal approved the payment, but the till does not know that it was completed.
    ApprovedNotCompleted,
    /// It is unknown whether the payment took place, and the terminal repeated its approval in a later order.
    ApprovalRepeated,
    /// The terminal approved the payment, took the approval back, and aborted the order.
    ApprovedThenUndone,
    /// The terminal approved another amount than the till asked for, perhaps with a tip.
    OtherAmount,
    /// It is unknown whether the payment took place, and no approval of it was heard.
    PaymentUnclear,
    /// The card paid the same amount again, and both payments are booked.
    PaidAlike,
    /// It is unknown whether the payment was taken back.
    ReversalUnclear,
    /// The terminal says that it had taken the payment back before.
    TakenBackBefore,
    /// The terminal did not take the payment back.
    ReversalRefused,
    /// The terminal took back a payment that is not booked in the trace.
    ReversalElsewhere,
    /// It is unknown whether a payment that is not booked in the trace was taken back.
    ElsewhereUnclear,
    /// The outcome of an order that moves money beside the book is unknown.
    OtherUnclear,
    /// It is unknown whether the day was closed.
    CloseUnclear,
    /// The terminal did not close the day.
    CloseRefused,
    /// The terminal closed the day with another total than the book has.
    CloseDiffers,
}

impl Case {
    ghost use Rattle.std.specs.Prelude.{◌≡◌};
    ghost use Rattle.zvt_report.specs.Looks.{weight_of};
    ghost use Rattle.zvt_report.specs.Words.{case_name};

    /// Returns the name of the case as every output writes it.
    pub fn name(self) -> &'static str
        ensures { result.now ≡ case_name self }
    {
        match self {
            Case::ApprovedNotCompleted => "ApprovedNotCompleted",
            Case::ApprovalRepeated => "ApprovalRepeated",
            Case::ApprovedThenUndone => "ApprovedThenUndone",
            Case::OtherAmount => "OtherAmount",
            Case::PaymentUnclear => "PaymentUnclear",
            Case::PaidAlike => "PaidAlike",
            Case::ReversalUnclear => "ReversalUnclear",
            Case::TakenBackBefore => "TakenBackBefore",
            Case::ReversalRefused => "ReversalRefused",
            Case::ReversalElsewhere | Case::ElsewhereUnclear => "ReversalElsewhere",
            Case::OtherUnclear => "OtherUnclear",
            Case::CloseUnclear => "CloseUnclear",
            Case::CloseRefused => "CloseRefused",
            Case::CloseDiffers => "CloseDiffers",
        }
    }

    /// How urgent the case is.
    pub fn weight(self) -> Weight
        ensures { result ≡ weight_of self }
    {
        match self {
            Case::ApprovedNotCompleted
            | Case::ApprovalRepeated
            | Case::OtherAmount
            | Case::ReversalUnclear
            | Case::TakenBackBefore
            | Case::ElsewhereUnclear
            | Case::OtherUnclear => Weight::Act,
            Case::ApprovedThenUndone
            | Case::PaymentUnclear
            | Case::PaidAlike
            | Case::ReversalRefused
            | Case::ReversalElsewhere
            | Case::CloseUnclear
            | Case::CloseRefused
            | Case::CloseDiffers => Weight::Check,
        }
    }
}

/// An order that a person should look at.
#[derive(Clone, Copy)]
pub struct Look {
    pub case: Case,
    /// The index of the order's row, counted from 0.
    pub order: usize,
    /// The index of the first later payment of the same amount that is booked or unclear, or of the earlier payment
    /// that this one is like.
    pub again: Option<usize>,
    /// The index of the later order in which the terminal repeated the approval.
    pub confirmed_by: Option<usize>,
    /// The trace number of the status information that took the approval back.
    pub undone_by: Option<Trace>,
}

/// Returns why to look at a reversal that the terminal refused or aborted with this code.
fn refused_case(book: &[Entry], place: usize, code: u8, decided: bool) -> Option<Case>
    ensures { result ≡ refused_case book.now place code decided }
{
    if code != ALREADY_REVERSED {
        Some(Case::ReversalRefused)
    } else if is_marked(book, place) || decided {
        None
    } else {
        Some(Case::TakenBackBefore)
    }
}

/// Returns why to look at a reversal. `decided` says whether a later reversal of the entry changes its mark or doubt.
fn reversal_case(book: &[Entry], place: usize, decided: bool, outcome: &Outcome) -> Option<Case>
    ensures { result ≡ reversal_case book.now place decided outcome.now }
{
    match outcome {
        Outcome::Declined(_) => Some(Case::ReversalRefused),
        Outcome::Refused(code) | Outcome::Aborted(code) => {
            refused_case(book, place, *code, decided)
        }
        Outcome::Unclear(_) if !decided => Some(Case::ReversalUnclear),
        _ => None,
    }
}

/// Returns why to look at an end of day. `differs` says whether the terminal's total differs from the book.
fn close_case(differs: bool, outcome: &Outcome) -> Option<Case>
    ensures { result ≡ close_case differs outcome.now }
{
    match outcome {
        Outcome::Declined(_) | Outcome::Refused(_) | Outcome::Aborted(_) => {
            Some(Case::CloseRefused)
        }
        Outcome::Unclear(_) => Some(Case::CloseUnclear),
        Outcome::DayClosed if differs => Some(Case::CloseDiffers),
        _ => None,
    }
}

/// Returns why to look at a reversal of a payment that is not in the trace.
fn elsewhere_case(outcome: &Outcome) -> Option<Case>
    ensures { result ≡ elsewhere_case outcome.now }
{
    match outcome {
        Outcome::Unclear(_) => Some(Case::ElsewhereUnclear),
        Outcome::DayClosed => Some(Case::ReversalElsewhere),
        _ => None,
    }
}

/// Returns why to look at another order that moves money.
fn money_case(outcome: &Outcome) -> Option<Case>
    ensures { result ≡ money_case outcome.now }
{
    match outcome {
        Outcome::Unclear(_) => Some(Case::OtherUnclear),
        _ => None,
    }
}

/// Returns why to look at an order of this kind that the book does not know.
fn foreign_case(kind: OrderKind, outcome: &Outcome) -> Option<Case>
    ensures { result ≡ foreign_case kind outcome.now }
{
    match kind {
        OrderKind::Reversal => elsewhere_case(outcome),
        OrderKind::OtherMoney => money_case(outcome),
        OrderKind::Payment | OrderKind::Close | OrderKind::Plain => None,
    }
}

/// Returns why to look at an order of this kind, given the book and the later orders. `differs` says whether the total
/// of an end of day differs from the book, `repeats` which payment a payment repeats, `confirmed` which later order
/// repeated its approval, and `undoing` what its statuses take back.
fn case_of(
    book: &[Entry],
    differs: bool,
    repeats: Option<usize>,
    confirmed: Option<usize>,
    undoing: &Option<Undoing>,
    kind: OrderKind,
    row: &OrderRow,
    later: &[OrderRow],
) -> Option<Case>
    ensures { result ≡ case_as book.now differs repeats confirmed undoing.now kind later.now row.now.approval
        row.now.outcome row.now.order }
{
    match &row.order {
        Sent::Pay(amount) => paid_case(
            *amount,
            repeats,
            confirmed,
            undoing,
            &row.approval,
            &row.outcome,
        ),
        Sent::Reverse(place) => {
            let decided = is_decided(*place, later);
            reversal_case(book, *place, decided, &row.outcome)
        }
        Sent::CloseDay => close_case(differs, &row.outcome),
        Sent::Foreign => foreign_case(kind, &row.outcome),
        _ => None,
    }
}

/// Returns the place of the other payment of a case: the one that it repeats, or the first later one.
fn other_payment(case: Case, repeats: Option<usize>, again: Option<usize>) -> Option<usize>
    ensures { result ≡ other_payment case repeats again }
{
    match case {
        Case::PaidAlike => repeats,
        _ => again,
    }
}

/// Returns the place of the order that repeated the approval, if that is the case.
fn confirmed_if(case: Case, confirmed: Option<usize>) -> Option<usize>
    ensures { result ≡ confirmed_if case confirmed }
{
    match case {
        Case::ApprovalRepeated => confirmed,
        _ => None,
    }
}

/// Returns the trace number of what took the approval back, if that is the case.
fn undone_if(case: Case, undoing: &Option<Undoing>) -> Option<Trace>
    ensures { result ≡ undone_if case undoing.now }
{
    match (case, undoing) {
        (Case::ApprovedThenUndone, Some(undoing)) => undoing.trace,
        _ => None,
    }
}

/// Returns what the statuses of the order at this place take back.
fn undoing_at(statements: &[Statement], place: usize) -> Option<Undoing>
    ensures { result ≡ undoing_at statements.now place }
{
    statements.get(place)?.undoing
}

/// Returns a look in this case at the order of this place.
fn look_with(
    place: usize,
    repeats: Option<usize>,
    confirmed: Option<usize>,
    undoing: &Option<Undoing>,
    again: Option<usize>,
    case: Case,
) -> Look
    ensures { result ≡ look_with place repeats confirmed undoing.now again case }
{
    Look {
        case,
        order: place,
        again: other_payment(case, repeats, again),
        confirmed_by: confirmed_if(case, confirmed),
        undone_by: undone_if(case, undoing),
    }
}

/// Returns why to look at the order at this place, if there is a reason.
fn look_at(
    book: &[Entry],
    closings: &[Option<Closing>],
    statements: &[Statement],
    messages: &[OrderMessage],
    repeated: &[Option<usize>],
    place: usize,
    row: &OrderRow,
    later: &[OrderRow],
) -> Option<Look>
    requires { place + length later.now + 1 < 2 ^ 64 }
    ensures { result ≡ look_at book.now closings.now statements.now messages.now repeated.now place row.now
        later.now }
{
    let differs = differs_at(closings, place);
    let repeats = repeated_at(repeated, place);
    let confirmed = confirming(&row.order, messages, place + 1, later);
    let undoing = &undoing_at(statements, place);
    let kind = kind_at(messages, place, row);
    let case = case_of(book, differs, repeats, confirmed, undoing, kind, row, later)?;
    let again = paid_again(&row.order, place + 1, later);
    Some(look_with(place, repeats, confirmed, undoing, again, case))
}

/// Returns the orders that a person should look at, in the order of their rows. `messages` has the message of each
/// order, and `statements` what its statuses say. Fails only if memory runs out.
pub fn looks(
    alloc: Global,
    book: &[Entry],
    closings: &[Option<Closing>],
    statements: &[Statement],
    messages: &[OrderMessage],
    rows: &[OrderRow],
) -> Result<Vec<Look>, AllocError>
    ensures { IfOk result (λ found. found.items ≡ looks book.now closings.now statements.now messages.now
        rows.now) }
{
    let repeated = repeated_payments(alloc, book, rows)?;
    let mut found = Vec::new(alloc);
    let mut rest = rows;
    let mut place = 0;
    'rows: while let [row, later @ ..] = rest {
        let repeats = repeated.as_slice();
        if let Some(look) = look_at(
            book, closings, statements, messages, repeats, place, row, later,
        ) {
            found.push(look)?;
        }
        rest = later;
        place += 1;
    }
    Ok(found)
}
