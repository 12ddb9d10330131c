//! Why a person should look at a payment.
ghost use Rattle.std.specs.Prelude.{◌≡◌};
ghost use Rattle.zvt_report.specs.Looks.{alike_case, is_undone, paid_case, payment_case, undoes, was_undone};

use crate::cases::Case;
use crate::rows::Approval;
use crate::statements::Undoing;
use zvt_bcd::Amount;
use zvt_till::{Cause, Original, Outcome};

/// Whether another status information names the trace number of this approval as its original.
fn undoes(undoing: &Undoing, approval: &Approval) -> bool
    ensures { result ≡ undoes undoing.now approval.now }
{
    match approval.trace {
        Some(trace) => {
            Original::Once(undoing.original).names(trace) && undoing.trace != Some(trace)
        }
        None => false,
    }
}

/// Whether an approval was taken back.
fn is_undone(approval: &Option<Approval>, undoing: &Option<Undoing>) -> bool
    ensures { result ≡ is_undone approval.now undoing.now }
{
    match (approval, undoing) {
        (Some(approval), Some(undoing)) => undoes(undoing, approval),
        _ => false,
    }
}

/// Whether a payment that is unclear for this reason was aborted after its approval was taken back.
fn was_undone(cause: Cause, approval: &Option<Approval>, undoing: &Option<Undoing>) -> bool
    ensures { result ≡ was_undone cause approval.now undoing.now }
{
    match cause {
        Cause::AbortAfterApproval => is_undone(approval, undoing),
        _ => false,
    }
}

/// Returns why to look at an unclear payment. Its approval was taken back or not, and repeated in a later order or not.
fn payment_case(
    amount: Amount,
    confirmed: Option<usize>,
    undone: bool,
    approval: &Option<Approval>,
) -> Case
    ensures { result ≡ payment_case amount confirmed undone approval.now }
{
    if undone {
        return Case::ApprovedThenUndone;
    }
    match (approval, confirmed) {
        (None, None) => Case::PaymentUnclear,
        (None, Some(_)) => Case::ApprovalRepeated,
        (Some(approval), _) if approval.amount == amount => Case::ApprovedNotCompleted,
        (Some(_), _) => Case::OtherAmount,
    }
}

/// Returns why to look at a booked payment, which repeats an earlier one or not.
fn alike_case(repeats: Option<usize>) -> Option<Case>
    ensures { result ≡ alike_case repeats }
{
    match repeats {
        Some(_) => Some(Case::PaidAlike),
        None => None,
    }
}

/// Returns why to look at a payment. It repeats an earlier one or not, its approval was repeated in a later order or
/// not, and its statuses take something back or not.
pub(crate) fn paid_case(
    amount: Amount,
    repeats: Option<usize>,
    confirmed: Option<usize>,
    undoing: &Option<Undoing>,
    approval: &Option<Approval>,
    outcome: &Outcome,
) -> Option<Case>
    ensures { result ≡ paid_case amount repeats confirmed undoing.now approval.now outcome.now }
{
    match outcome {
        Outcome::Unclear(cause) => {
            let undone = was_undone(*cause, approval, undoing);
            Some(payment_case(amount, confirmed, undone, approval))
        }
        Outcome::Paid { .. } => alike_case(repeats),
        _ => None,
    }
}
