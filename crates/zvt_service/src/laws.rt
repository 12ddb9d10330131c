//! Laws about the lives of a service. Each is stated as the contract of an empty function.
ghost use Rattle.zvt_service.specs.Lives.{AnswersStay, PaidIsBooked, SentOnce, VerdictsStay};

use zvt_journal::Device;

/// Over any calls, and any ends of the process during a call and between calls, no key is sent twice, and each key that
/// was sent is in the book.
pub fn sent_once<D: Device>()
    ensures { SentOnce D.seen D.may_leave D.moment D.left_since D.faults }
{}

/// A key whose payment was answered as paid has a row in the till's book, with that amount and those numbers.
pub fn paid_is_booked<D: Device>()
    ensures { PaidIsBooked D.seen D.may_leave D.moment D.left_since D.faults }
{}

/// What an ask settled about an unclear payment stays, over any calls and any ends of the process.
pub fn verdicts_stay<D: Device>()
    ensures { VerdictsStay D.seen D.may_leave D.moment D.left_since D.faults }
{}

/// How an order ended stays, over any calls and any ends of the process: a client that asks again with its key gets the
/// same answer.
pub fn answers_stay<D: Device>()
    ensures { AnswersStay D.seen D.may_leave D.moment D.left_since D.faults }
{}
