//! Laws of every till and every log, each stated as the contract of an empty function.
ghost use Rattle.zvt_till.specs.Log.{StepsMeetLog};
ghost use Rattle.zvt_till.specs.TillHistory.{RunsAreLogged, FaultsAreLogged, UnsentAreLogged, OrdersAreLogged};
ghost use Rattle.zvt_till.specs.Cuttings.{LogsAreOne, CuttingsAgree};
ghost use Rattle.zvt_till.specs.Laws.{NoApprovalDropped, NoReversalDropped, DoubtsStay, TracesStayDistinct};
ghost use Rattle.zvt_till.specs.Laws.{EntriesStay, NoRepeatReverses, RulesKeepBooks};

/// The state of a till after a log is the state that the log prescribes, judged by whole orders.
pub fn steps_meet_log()
    ensures { StepsMeetLog }
{}

/// A payment that any status approved before its end is booked or unclear.
pub fn no_approval_dropped()
    ensures { NoApprovalDropped }
{}

/// A reversal that has ended is marked as completed, is known not to have reversed the payment, or is unclear.
pub fn no_reversal_dropped()
    ensures { NoReversalDropped }
{}

/// The doubt about an entry does not change until a reversal of that entry ends.
pub fn doubts_stay()
    ensures { DoubtsStay }
{}

/// Whatever happens, no two entries of the book have the same trace number.
pub fn traces_stay_distinct()
    ensures { TracesStayDistinct }
{}

/// Whatever happens, no entry leaves the book, and nothing in an entry changes except its mark and its doubt.
pub fn entries_stay()
    ensures { EntriesStay }
{}

/// If two tills agree on reversals by receipt number, no other rule changes a book, a mark, an unclear payment or an
/// order that a till accepts.
pub fn rules_keep_books()
    ensures { RulesKeepBooks }
{}

/// A status that answers a reversal without naming the payment is no late answer to another order of this book: no
/// other payment of its amount is booked or unclear, and the entry has another receipt number. Payments that the book
/// does not contain are not ruled out.
pub fn no_repeat_reverses()
    ensures { NoRepeatReverses }
{}

/// Events have exactly one log.
pub fn logs_are_one()
    ensures { LogsAreOne }
{}

/// However the bytes of a line are divided into pieces, the log is the same: two pieces have the same log as one piece
/// with all their bytes.
pub fn cuttings_agree()
    ensures { CuttingsAgree }
{}

/// If a log leads to a till, then an order that runs to its end extends the log by the order and by the messages read.
/// The till's book is then the book of the extended log.
pub fn runs_are_logged()
    ensures { RunsAreLogged }
{}

/// An order whose line broke extends the log by the order, by the messages in a prefix of the bytes read, and by the
/// fault.
pub fn faults_are_logged()
    ensures { FaultsAreLogged }
{}

/// An accepted order whose message could not be written is in the log as sent, followed by the loss of the connection.
pub fn unsent_are_logged()
    ensures { UnsentAreLogged }
{}

/// However its orders end, a till that runs them one after another has the book of a log that continues its own, and
/// the orders in that log are exactly the orders that were not refused.
pub fn orders_are_logged()
    ensures { OrdersAreLogged }
{}
