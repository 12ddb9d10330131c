//! Laws about sequences of records, and about the records that a crash at any moment leaves. Each is stated as the
//! contract of an empty function.
ghost use Rattle.zvt_kept.specs.Logs.{LogsAreOne, OpeningsAreOne};
ghost use Rattle.zvt_kept.specs.Outliving.{CallsOutlive, HearingsOutlive, LogsAreRecovered, RunsOutlive};
ghost use Rattle.zvt_kept.specs.Outliving.{SettlingIsRecovered, TillsAreRecovered};
ghost use Rattle.zvt_kept.specs.Records.{OpeningIsTaken, RecordsAreKept, RecordsAreTaken, RecordsAreWhole};
ghost use Rattle.zvt_kept.specs.PastOrders.{PaidAreBooked, PastOrdersStay};
ghost use Rattle.zvt_kept.specs.Remarks.{RemarksMeanNothing};

use zvt_journal::Device;

/// A record after complete lines adds exactly the entry for which it was written. The result is again complete lines,
/// and a journal accepts it.
pub fn records_are_kept()
    ensures kept { RecordsAreKept }
    ensures whole { RecordsAreWhole }
    ensures taken { RecordsAreTaken }
{}

/// The opening of a journal has no meaning of its own, and a journal accepts it as its first record: a crash while it
/// is appended leaves a file that can be opened.
pub fn opening_is_taken()
    ensures { OpeningIsTaken }
{}

/// A journal has exactly one currency and one rule on reversals by receipt number: its first line fits no till with
/// another one.
pub fn openings_are_one()
    ensures { OpeningsAreOne }
{}

/// A remark that a person adds to a journal does not change the journal's meaning.
pub fn remarks_mean_nothing()
    ensures { RemarksMeanNothing }
{}

/// A journal has exactly one log.
pub fn logs_are_one()
    ensures { LogsAreOne }
{}

/// The journal of a till's log recovers to the till of that log after losing its line, unless memory runs out.
pub fn logs_are_recovered()
    ensures { LogsAreRecovered }
{}

/// While a till processes messages, a crash at any moment leaves a journal of its log and a prefix of these messages.
pub fn hearings_outlive<D: Device>()
    ensures { HearingsOutlive D.seen D.may_leave D.moment D.left_since D.faults }
{}

/// While a till runs an order, a crash at any moment leaves a journal of its log, possibly followed by the order and
/// then by a prefix of the messages that were read.
pub fn runs_outlive<D: Device>()
    ensures { RunsOutlive D.seen D.may_leave D.moment D.left_since D.faults }
{}

/// Over many orders, asks and lines, a crash at any moment leaves a journal of the till's log and a prefix of the later
/// events. At the end, the journal contains all events, unless it failed.
pub fn calls_outlive<D: Device>()
    ensures { CallsOutlive D.seen D.may_leave D.moment D.left_since D.faults }
{}

/// If a till's journal did not fail, recovery restores the same till after losing its line, unless memory runs out.
pub fn tills_are_recovered<D: Device>()
    ensures { TillsAreRecovered D.seen D.may_leave D.moment D.left_since D.faults }
{}

/// If a till's journal did not fail, recovery restores what the till has settled and what is pending. An ask that was
/// running has ended with the line.
pub fn settling_is_recovered<D: Device>()
    ensures { SettlingIsRecovered D.seen D.may_leave D.moment D.left_since D.faults }
{}

/// A payment that ended as paid has a row in the till's book, with its amount and its numbers, whatever followed.
pub fn paid_orders_are_booked()
    ensures { PaidAreBooked }
{}

/// How an order ended does not change, whatever records follow.
pub fn past_orders_stay()
    ensures { PastOrdersStay }
{}
