//! The terminal's replies to one message.
ghost use Rattle.std.specs.Prelude.{◌≡◌, ◌<◌, ◌≤◌, length};
ghost use Rattle.zvt_term.specs.Reports.{IsWritable};
ghost use Rattle.zvt_term.specs.Terminal.{reports_of};
ghost use Rattle.zvt_term.specs.Steps.{Adds, AreWritable, Says};

use crate::messages::{Report, Response};
use crate::writer::{MAX_REPORT_LEN, put_report};
use zvt_stream::Answers;

/// Adds the bytes of a report.
fn add(answers: &mut Answers, report: &Report)
    requires few { answers.old.count < 2 }
    requires room { length answers.old.bytes ≤ 32 }
    requires writable { IsWritable report.now }
    ensures { Adds report.now answers.old answers.new }
{
    let mut buffer = [0; MAX_REPORT_LEN];
    let size = put_report(report, &mut buffer);
    answers.add(&buffer[..size]);
}

/// Returns the bytes of the reports, one after another.
pub(crate) fn answers_of(reply: &Response) -> Answers
    requires { AreWritable (reports_of reply.now) }
    ensures { Says (reports_of reply.now) result }
{
    let mut answers = Answers::new();
    match reply {
        Response::Nothing => {}
        Response::One(report) => add(&mut answers, report),
        Response::Two(first, second) => {
            add(&mut answers, first);
            add(&mut answers, second);
        }
    }
    answers
}
