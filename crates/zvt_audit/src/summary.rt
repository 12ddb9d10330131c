//! The books of a whole trace.
ghost use Rattle.std.specs.Prelude.{◌≡◌, ◌<◌, ◌≤◌, [], List, length, Err, IfOk};
ghost use Rattle.zvt_grammar.specs.Lengths.{reading_of};
ghost use Rattle.zvt_trace.specs.Written.{limit};
ghost use Rattle.zvt_till.specs.Judging.{HasJudged};
ghost use Rattle.zvt_till.specs.declared.happenings.Happening.{Happening};
ghost use Rattle.zvt_audit.specs.Audited.{AnswersBooks, AnswersReadBy, StartsIn};
ghost use Rattle.zvt_audit.specs.Currencies.{agreed};
ghost use Rattle.zvt_audit.specs.Ends.{lines_of};
ghost use Rattle.zvt_audit.specs.Unfollowed.{found_then};

use crate::auditor::Auditor;
use crate::by_control::ByControl;
use crate::currencies::NamedCurrency;
use crate::ends::Ends;
use crate::orders::Orders;
use crate::unfollowed::{Unfollowed, UnfollowedOrder};
use crate::{booked, form};
use std::alloc::{AllocError, Global};
use zvt_grammar::Lengths;
use zvt_io::Sink;
use zvt_text::{Form, Text};
use zvt_till::{Bookkeeping, Happening};
use zvt_trace::{Scope, Tally, TraceFault, walk};

/// Findings of an audit apart from the books.
#[derive(Drop)]
pub struct AuditSummary {
    pub tally: Tally,
    /// The sum of the completed payments, in the smallest unit of the currency.
    pub total: u128,
    /// The number of payments whose outcome is unknown.
    pub unclear: u64,
    /// Whether orders came only from the side that is marked as the terminal's.
    pub swapped: bool,
    /// The orders of the till that move money and that the books do not follow.
    pub unfollowed: Vec<UnfollowedOrder>,
    /// The number of refused messages that were passed over and known by their control bytes alone. It saturates.
    pub passed: u64,
}

/// Writes the books of the trace: one line per completed payment, then one per unclear payment, then the total of the
/// completed ones in the smallest unit of the currency. Payments that were taken back count too. `lengths` selects the
/// accepted forms of length.
///
/// The till's orders and the terminal's messages are read as the log of a till that starts connected. `scope` says how
/// much is not read after a refused message. With `WholeLine`, neither side is read until the connection is lost, and
/// the line was malformed. With `OneMessage`, its side is read on after the message, which is known by its control
/// bytes alone. With `OneSide`, its side is not read until the connection is lost. A stream that is refused or cut off
/// counts as bad.
///
/// Writes the text once, at the end. Writes nothing if a line can't be read or an allocation fails.
pub fn audit_trace<W: Sink>(
    alloc: Global,
    form: Form,
    scope: Scope,
    lengths: Lengths,
    trace: &[u8],
    writer: &mut W,
) -> Result<AuditSummary, TraceFault>
    requires { length trace.now ≤ limit }
    ensures writes { AnswersReadBy (reading_of lengths) scope form trace.now (W.written writer.old)
        (W.written writer.new) result }
    ensures write { result ≡ Err TraceFault.Write → W.failures writer.old < W.failures writer.new }
{
    let mut audit = connected(alloc, scope)?;
    let tally = walk(&mut audit, alloc, scope, lengths, trace)?;
    write_books(alloc, form, audit, tally, writer)
}

/// Creates an auditor of a connected till that has heard nothing. It hears events in this scope.
pub(crate) fn connected(alloc: Global, scope: Scope) -> Result<ByControl<Auditor>, AllocError>
    ensures { IfOk result (StartsIn scope) }
{
    let mut books = Bookkeeping::new(alloc);
    books.take(&Happening::Connected)?;
    Ok(ByControl {
        listener: Auditor {
            books,
            orders: Orders::none(),
            unfollowed: Unfollowed::none(alloc),
            named: NamedCurrency::none(),
            ends: Ends::none(alloc),
        },
        scope,
        passed: 0,
    })
}

/// Writes the books of an auditor at the end of its trace, in this form.
pub(crate) fn write_books<W: Sink>(
    alloc: Global,
    form: Form,
    audit: ByControl<Auditor>,
    tally: Tally,
    writer: &mut W,
) -> Result<AuditSummary, TraceFault>
    ensures writes { (log : List Happening) → HasJudged log audit.listener.books → AnswersBooks form log tally
        audit.listener.orders (found_then audit.listener.unfollowed []) (agreed audit.listener.named)
        (lines_of audit.listener.ends) audit.passed (W.written writer.old) (W.written writer.new) result }
    ensures write { result ≡ Err TraceFault.Write → W.failures writer.old < W.failures writer.new }
    ensures read { result ≡ Err TraceFault.Read → ⊥ }
{
    let ByControl {
        listener: auditor,
        passed,
        ..
    } = audit;
    let swapped = auditor.orders.are_swapped();
    let unfollowed = auditor.unfollowed.close()?;
    let currency = auditor.named.agreed();
    let found = auditor.books.close()?;
    let mut text = Text::new(alloc);
    form::write(
        &mut text,
        form,
        tally,
        currency,
        &auditor.ends,
        unfollowed.as_slice(),
        &found,
    )?;
    writer.write_all(text.bytes())?;
    Ok(AuditSummary {
        tally,
        total: booked::total(found.booked.as_slice()),
        unclear: found.unclear.len() as u64,
        swapped,
        unfollowed,
        passed,
    })
}
