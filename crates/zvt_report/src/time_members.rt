//! The members of times in the objects of a report.
ghost use Rattle.std.specs.Prelude.{◌≡◌};
ghost use Rattle.zvt_report.specs.TimeMembers.{back_member, bad_member, from_member, maybe_time, moment_member};
ghost use Rattle.zvt_report.specs.TimeMembers.{to_member};

use crate::members::{Member, Name, Value};
use zvt_trace::Moment;

/// Returns a member with this moment.
fn moment_member(name: Name, time: &Moment) -> Member
    ensures { result ≡ moment_member name time.now }
{
    Member {
        name,
        value: Value::Moment(*time),
    }
}

/// Returns the member of the moment at which an order was sent, if it is known.
pub(crate) fn maybe_time(time: &Option<Moment>) -> Option<Member>
    ensures { result ≡ maybe_time time.now }
{
    match time {
        Some(time) => Some(moment_member(Name::Time, time)),
        None => None,
    }
}

/// Returns the member of the first line's moment, if there is one.
pub(crate) fn from_member(span: &Option<(Moment, Moment)>) -> Option<Member>
    ensures { result ≡ from_member span.now }
{
    match span {
        Some((from, _)) => Some(moment_member(Name::TimeFrom, from)),
        None => None,
    }
}

/// Returns the member of the last line's moment, if there is one.
pub(crate) fn to_member(span: &Option<(Moment, Moment)>) -> Option<Member>
    ensures { result ≡ to_member span.now }
{
    match span {
        Some((_, to)) => Some(moment_member(Name::TimeTo, to)),
        None => None,
    }
}

/// Returns the member of the line at which the clock went back, if it did.
pub(crate) fn back_member(line: Option<u64>) -> Option<Member>
    ensures { result ≡ back_member line }
{
    match line {
        Some(line) => Some(Member {
            name: Name::TimesBack,
            value: Value::Count(u128::from(line)),
        }),
        None => None,
    }
}

/// Returns the member of the number of time marks that can't be read, if there is one.
pub(crate) fn bad_member(bad: usize, first: Option<u64>) -> Option<Member>
    ensures { result ≡ bad_member bad first }
{
    match first {
        Some(_) => Some(Member {
            name: Name::TimesBad,
            value: Value::Count(u128::from(bad as u64)),
        }),
        None => None,
    }
}
