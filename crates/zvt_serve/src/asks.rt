//! What becomes of a request: the till is asked, or the request waits, or it is answered at once.

use crate::clock::{Moment, keyed_note, timed_note};
use crate::deciding::Decision;
use crate::host::{BookUnread, Host, Watch};
use crate::line::Line;
use crate::outcomes::{Answer, answer_for, end_of, look, payment, reversal, trouble_of};
use crate::status::put_status;
use crate::troubles::Trouble;
use std::alloc::{AllocError, Global};
use std::rt::Clock;
use zvt_journal::Device;
use zvt_kept::Note;
use zvt_service::{Service, Ungiven};
use zvt_text::Text;
use zvt_till::Order;
use zvt_web::page::{PAGE, SCRIPT, STYLE};
use zvt_web::{Ask, Guards, Kind, Refusal, Request, ask_of};

/// What a request came to.
#[derive(Drop)]
pub(crate) enum Reaction {
    Answer(Answer),
    Decline(Refusal),
    /// Send a file of the page.
    File(Kind, &'static str),
    /// Answer when the order with the request's key ends.
    Wait,
    /// React again later. Nothing was recorded.
    Hold,
    /// Send the events from this number on.
    Listen { first: u64 },
}

/// What a request came to, and whether it showed the token.
#[derive(Drop)]
pub(crate) struct Reacted {
    pub(crate) reaction: Reaction,
    pub(crate) is_trusted: bool,
}

/// The till, its line to the terminal, and what is seen of the line.
#[derive(Drop)]
pub(crate) struct Desk<'s, 'w, 'h, D: Device, H> {
    pub(crate) alloc: Global,
    pub(crate) service: &'s mut Service<D>,
    pub(crate) line: Line,
    pub(crate) watch: &'w mut Watch<'h, H>,
    /// The number of orders whose ends are in the log.
    reported: usize,
    /// A client asked the service to stop.
    was_stopped: bool,
}

impl<'s, 'w, 'h, D: Device, H: Host> Desk<'s, 'w, 'h, D, H> {
    pub(crate) fn new(
        alloc: Global,
        service: &'s mut Service<D>,
        line: Line,
        watch: &'w mut Watch<'h, H>,
    ) -> Desk<'s, 'w, 'h, D, H> {
        let reported = service.orders().len();
        Desk {
            alloc,
            service,
            line,
            watch,
            reported,
            was_stopped: false,
        }
    }

    /// Returns whether no more orders are taken, because a client stopped the service, or because what passes on the
    /// line cannot be recorded.
    pub(crate) fn is_stopping(&self) -> bool {
        self.was_stopped || self.watch.is_broken()
    }

    /// Reacts to a request, after the guards.
    pub(crate) fn react<C: Clock>(
        &mut self,
        clock: &C,
        guards: &Guards,
        request: &Request,
        now: Moment,
    ) -> Result<Reacted, AllocError> {
        let ask = match ask_of(guards, request) {
            Ok(ask) => ask,
            Err(refusal) => {
                return Ok(Reacted {
                    reaction: Reaction::Decline(refusal),
                    is_trusted: false,
                });
            }
        };
        let is_trusted = !matches!(ask, Ask::Page | Ask::Script | Ask::Style);
        let reaction = self.react_to(clock, request, &ask, now)?;
        Ok(Reacted {
            reaction,
            is_trusted,
        })
    }

    fn react_to<C: Clock>(
        &mut self,
        clock: &C,
        request: &Request,
        ask: &Ask<'_>,
        now: Moment,
    ) -> Result<Reaction, AllocError> {
        match ask {
            Ask::Pay { key, .. } | Ask::Reverse { key, .. } | Ask::CloseDay { key } => {
                let is_async = prefers_no_wait(request);
                self.give(clock, key, ask, is_async, now)
            }
            Ask::Look { key } => self.look(key),
            Ask::AskTerminal => self.ask_terminal(clock, now),
            Ask::Cancel => self.cancel(now),
            Ask::Book => self.book(),
            Ask::Status => self.status(),
            Ask::Events { after } => Ok(Reaction::Listen {
                first: self.watch.log.first_after(*after),
            }),
            Ask::Stop => self.stop(),
            Ask::Page => Ok(Reaction::File(Kind::Html, PAGE)),
            Ask::Script => Ok(Reaction::File(Kind::Script, SCRIPT)),
            Ask::Style => Ok(Reaction::File(Kind::Style, STYLE)),
        }
    }

    /// Returns the order that this asks for, or why it asks for none.
    fn wanted(&self, ask: &Ask<'_>) -> Result<Order, Trouble> {
        match ask {
            Ask::Pay {
                amount,
                currency,
                ..
            } => payment(self.service.till(), *amount, *currency),
            Ask::Reverse { key, payment } => reversal(self.service, key, payment),
            _ => Ok(Order::CloseDay),
        }
    }

    /// Gives the till an order, unless one with its key was given before.
    fn give<C: Clock>(
        &mut self,
        clock: &C,
        key: &[u8],
        ask: &Ask<'_>,
        is_async: bool,
        now: Moment,
    ) -> Result<Reaction, AllocError> {
        let wanted = self.wanted(ask);
        let is_stopping = self.is_stopping();
        match Decision::about(self.service, is_stopping, key, wanted) {
            Decision::Refuse(trouble) => self.refused(trouble),
            Decision::Replay => self.replayed(key),
            Decision::Join => self.joined(key, is_async),
            Decision::Hold => Ok(Reaction::Hold),
            Decision::Give(order) => match self.order(clock, key, &order, now) {
                Ok(()) => self.joined(key, is_async),
                Err(trouble) => self.refused(trouble),
            },
        }
    }

    /// Gives the till an order whose key no order has.
    fn order<C: Clock>(
        &mut self,
        clock: &C,
        key: &[u8],
        order: &Order,
        now: Moment,
    ) -> Result<(), Trouble> {
        let Some(note) = keyed_note(clock, key) else {
            return Err(Trouble::UnknownKey);
        };
        match self
            .line
            .order(self.alloc, self.service, self.watch, order, &note, now)
        {
            Ok(()) => Ok(()),
            Err(why) => Err(trouble_of(why)),
        }
    }

    fn refused(&self, trouble: Trouble) -> Result<Reaction, AllocError> {
        Ok(Reaction::Answer(Answer::of_trouble(self.alloc, trouble)?))
    }

    /// Returns the answer of an order that ended before the request came.
    fn replayed(&self, key: &[u8]) -> Result<Reaction, AllocError> {
        match answer_for(self.alloc, self.service, key)? {
            Some(answer) => Ok(Reaction::Answer(Answer {
                is_replayed: true,
                ..answer
            })),
            None => Ok(Reaction::Wait),
        }
    }

    /// Waits for the order with this key, or says where its answer will be.
    fn joined(&self, key: &[u8], is_async: bool) -> Result<Reaction, AllocError> {
        if is_async {
            self.look(key)
        } else {
            Ok(Reaction::Wait)
        }
    }

    fn look(&self, key: &[u8]) -> Result<Reaction, AllocError> {
        Ok(Reaction::Answer(look(self.alloc, self.service, key)?))
    }

    fn ask_terminal<C: Clock>(&mut self, clock: &C, now: Moment) -> Result<Reaction, AllocError> {
        if self.is_stopping() {
            return self.refused(Trouble::Stopping);
        }
        let note = timed_note(clock);
        match self
            .line
            .ask(self.alloc, self.service, self.watch, &note, now)
        {
            Ok(()) => self.accepted(),
            Err(why) => self.refused(trouble_of(Ungiven::Till(why))),
        }
    }

    fn cancel(&mut self, now: Moment) -> Result<Reaction, AllocError> {
        let note = Note::none();
        match self.line.order(
            self.alloc,
            self.service,
            self.watch,
            &Order::Cancel,
            &note,
            now,
        ) {
            Ok(()) => self.accepted(),
            Err(why) => self.refused(trouble_of(why)),
        }
    }

    fn stop(&mut self) -> Result<Reaction, AllocError> {
        self.was_stopped = true;
        self.accepted()
    }

    fn accepted(&self) -> Result<Reaction, AllocError> {
        let mut body = Text::new(self.alloc);
        body.word(b"{}\n")?;
        Ok(Reaction::Answer(Answer::new(202, body)))
    }

    fn book(&mut self) -> Result<Reaction, AllocError> {
        let mut body = Text::new(self.alloc);
        match self.watch.host.put_book(self.alloc, &mut body) {
            Ok(()) => Ok(Reaction::Answer(Answer::new(200, body))),
            Err(BookUnread) => self.refused(Trouble::Book),
        }
    }

    fn status(&self) -> Result<Reaction, AllocError> {
        let mut body = Text::new(self.alloc);
        put_status(
            &mut body,
            self.service.has_failed(),
            self.service.till(),
            self.service.orders().last(),
        )?;
        Ok(Reaction::Answer(Answer::new(200, body)))
    }

    /// Gives up the line to the terminal.
    pub(crate) fn close(&mut self) {
        self.line.close(self.service, self.watch);
    }

    /// Returns whether an order runs whose end somebody may wait for.
    pub(crate) fn has_running(&self) -> bool {
        match self.service.till().running() {
            None | Some(Order::Register) => false,
            Some(_) => true,
        }
    }

    /// Adds an event for each order that has ended since the last call. If an allocation fails, events are missing.
    pub(crate) fn report_ends(&mut self) {
        for at in self.reported..self.service.orders().len() {
            let Some(past) = self.service.orders().get(at) else {
                return;
            };
            if past.outcome.is_none() {
                return;
            }
            let event = end_of(self.alloc, past);
            self.reported = at + 1;
            if let Ok(Some(line)) = event {
                let _ = self.watch.log.add(line);
            }
        }
    }
}

/// Returns whether the client wants no answer to wait for.
fn prefers_no_wait(request: &Request) -> bool {
    match &request.prefer {
        Some(prefer) => prefer.eq_ignore_ascii_case(b"respond-async"),
        None => false,
    }
}
