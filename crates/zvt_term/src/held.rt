//! The payments that a terminal holds before it decides, so that the till can abort them.
ghost use Rattle.std.specs.Prelude.{◌≡◌};
ghost use Rattle.zvt_term.specs.Extended.{held_after};

use crate::codes::{ABORTED_BY_TILL, NOT_POSSIBLE};
use crate::dressing::{answers_by, later_answers};
use crate::extended::Extended;
use crate::messages::{Asked, Report, Response};
use crate::turns::Turn;
use std::alloc::AllocError;
use zvt_stream::Answers;

/// Returns the payment that is still held after a message: none after an abort.
fn held_after(payment: Asked, asked: &Asked) -> Option<Asked>
    ensures { result ≡ held_after payment asked.now }
{
    match asked {
        Asked::AbortOrder => None,
        _ => Some(payment),
    }
}

impl Extended {
    ghost use Rattle.std.specs.Prelude.{◌≡◌, IfOk, OnErr};
    ghost use Rattle.zvt_term.specs.Extended.{Holds, extended_elapses, hears_window, is_held, window_turn};

    /// Returns whether it holds a request that leads to this reply: a payment that it accepts, if there is a delay.
    pub(crate) fn is_held(&self, asked: &Asked, reply: &Response) -> bool
        ensures { result ≡ is_held self.now.extras asked.now reply.now }
    {
        self.extras.delay > 0
            && matches!(asked, Asked::Authorisation(_, _))
            && matches!(reply, Response::Two(Report::Ack, _))
    }

    /// Acknowledges a payment, and holds it.
    pub(crate) fn hold(&mut self, payment: Asked) -> Answers
        ensures { Holds self.old payment result self.new }
    {
        self.held = Some(payment);
        answers_by(
            self.served.terminal.tid(),
            &self.extras,
            &Response::One(Report::Ack),
        )
    }

    /// Returns the turn that a message leads to while a payment is held.
    fn window_turn(&self, asked: &Asked) -> Turn
        ensures { result ≡ window_turn self.now.served.terminal asked.now }
    {
        match asked {
            Asked::AbortOrder => self.served.terminal.aborts(ABORTED_BY_TILL),
            _ => self.served.terminal.refuses(NOT_POSSIBLE),
        }
    }

    /// Processes a message while it holds a payment, and returns the replies.
    pub(crate) fn hear_window(
        &mut self,
        payment: Asked,
        asked: &Asked,
    ) -> Result<Answers, AllocError>
        ensures heard { IfOk result (λ answers. hears_window payment self.old asked.now answers self.new) }
        ensures err { OnErr result (self.new ≡ self.old) }
    {
        let turn = self.window_turn(asked);
        self.hear_turn(&turn, None, held_after(payment, asked))
    }

    /// Decides the payment that it holds, because the delay is over, and returns the messages that follow the
    /// acknowledgement. Returns none if it holds no payment. If an allocation fails, nothing changes.
    pub fn elapse(&mut self) -> Result<Answers, AllocError>
        ensures elapsed { IfOk result (λ answers. extended_elapses self.old answers self.new) }
        ensures err { OnErr result (self.new ≡ self.old) }
    {
        let Some(payment) = self.held else {
            return Ok(Answers::new());
        };
        let turn = self.profile_turn(&payment);
        self.make(&turn, None, None)?;
        Ok(later_answers(self.served.terminal.tid(), &self.extras, &turn.reply))
    }
}
