//! Serves the requests of a client: answers them, or lets the client wait.

use super::{AT_ONCE, Client, Waiting};
use crate::asks::{Desk, Reacted, Reaction};
use crate::clock::Moment;
use crate::host::Host;
use crate::outcomes::{Answer, answer_for};
use crate::troubles::Trouble;
use std::rt::Clock;
use zvt_journal::Device;
use zvt_web::{Guards, Kind, Refusal, Reply, Request, Step};

/// Milliseconds for which a request is held until the till is registered.
const HOLD_MS: u64 = 10_000;

/// Milliseconds between two signs of life to a listener.
const BEAT_MS: u64 = 15_000;

impl Client {
    /// Answers a client whose order has ended, or whose request was held.
    pub(super) fn settle<C: Clock, D: Device, H: Host>(
        &mut self,
        clock: &C,
        guards: &Guards,
        desk: &mut Desk<'_, '_, '_, D, H>,
        now: Moment,
    ) -> bool {
        match std::mem::replace(&mut self.waiting, Waiting::Nothing) {
            Waiting::End(key) => match answer_for(self.alloc, desk.service, &key) {
                Ok(Some(answer)) => {
                    self.begun = self.next_begun(now);
                    self.answer(&answer)
                }
                Ok(None) => {
                    self.waiting = Waiting::End(key);
                    true
                }
                Err(_) => false,
            },
            Waiting::Registration(request) => self.resume(clock, guards, desk, request, now),
            other => {
                self.waiting = other;
                true
            }
        }
    }

    /// Reacts again to a request that was held, unless it was held for too long.
    fn resume<C: Clock, D: Device, H: Host>(
        &mut self,
        clock: &C,
        guards: &Guards,
        desk: &mut Desk<'_, '_, '_, D, H>,
        request: Request,
        now: Moment,
    ) -> bool {
        if self.has_ended {
            return false;
        }
        self.begun = self.next_begun(now);
        if now.is_late(self.active, HOLD_MS) {
            return self.trouble(Trouble::NoTerminal);
        }
        let held = self.active;
        let is_sound = self.react(clock, guards, desk, request, now);
        if let Waiting::Registration(_) = &self.waiting {
            self.active = held;
        }
        is_sound
    }

    /// Serves the client's next requests, as long as it waits for nothing.
    pub(super) fn serve<C: Clock, D: Device, H: Host>(
        &mut self,
        clock: &C,
        guards: &Guards,
        desk: &mut Desk<'_, '_, '_, D, H>,
        now: Moment,
    ) -> bool {
        for _step in 0..AT_ONCE {
            if !self.may_step() {
                return true;
            }
            let Ok(read) = self
                .connection
                .read(self.input.as_slice(), &mut self.output)
            else {
                return false;
            };
            self.input.advance(read.consumed);
            if !self.take(clock, guards, desk, read.step, now) {
                return false;
            }
        }
        true
    }

    /// Takes a step of the input.
    fn take<C: Clock, D: Device, H: Host>(
        &mut self,
        clock: &C,
        guards: &Guards,
        desk: &mut Desk<'_, '_, '_, D, H>,
        step: Step,
        now: Moment,
    ) -> bool {
        match step {
            Step::Again => true,
            Step::More | Step::Waits => {
                self.has_steps = false;
                true
            }
            Step::Whole(request) => {
                self.begun = self.next_begun(now);
                self.react(clock, guards, desk, request, now)
            }
            Step::Refused(refusal) => {
                self.closes = true;
                self.connection.refuse(&mut self.output, refusal).is_ok()
            }
            Step::Closed => {
                self.closes = true;
                true
            }
        }
    }

    /// Returns when the next request began, now that the one before it was read or answered.
    fn next_begun(&self, now: Moment) -> Option<Moment> {
        if self.input.is_empty() {
            None
        } else {
            Some(now)
        }
    }

    /// Answers a request, or begins to wait.
    fn react<C: Clock, D: Device, H: Host>(
        &mut self,
        clock: &C,
        guards: &Guards,
        desk: &mut Desk<'_, '_, '_, D, H>,
        request: Request,
        now: Moment,
    ) -> bool {
        let Ok(reacted) = desk.react(clock, guards, &request, now) else {
            return self.trouble(Trouble::Memory);
        };
        let Reacted {
            reaction,
            is_trusted,
        } = reacted;
        self.is_trusted = self.is_trusted || is_trusted;
        self.active = now;
        match reaction {
            Reaction::Answer(answer) => self.answer(&answer),
            Reaction::Decline(refusal) => self.decline(refusal),
            Reaction::File(kind, text) => self.send_file(kind, text),
            Reaction::Hold => {
                self.waiting = Waiting::Registration(request);
                true
            }
            Reaction::Wait => self.await_end(request),
            Reaction::Listen { first } => {
                self.waiting = Waiting::Events(first);
                self.connection.begin_events(&mut self.output).is_ok()
            }
        }
    }

    /// Waits for the end of the order with the request's key.
    fn await_end(&mut self, request: Request) -> bool {
        let Request { key, .. } = request;
        let Some(key) = key else {
            return false;
        };
        self.waiting = Waiting::End(key);
        true
    }

    fn decline(&mut self, refusal: Refusal) -> bool {
        self.connection.decline(&mut self.output, refusal).is_ok()
    }

    fn send_file(&mut self, kind: Kind, text: &str) -> bool {
        let reply = Reply::new(200, kind, text.as_bytes());
        self.connection.answer(&mut self.output, &reply).is_ok()
    }

    fn trouble(&mut self, trouble: Trouble) -> bool {
        match Answer::of_trouble(self.alloc, trouble) {
            Ok(answer) => self.answer(&answer),
            Err(_) => false,
        }
    }

    fn answer(&mut self, answer: &Answer) -> bool {
        let mut reply = Reply::new(answer.status, Kind::Json, answer.body.bytes());
        if let Some(location) = &answer.location {
            reply.location = Some(location.bytes());
        }
        reply.retry_after = answer.retry_after;
        reply.replayed = answer.is_replayed;
        self.connection.answer(&mut self.output, &reply).is_ok()
    }

    /// Sends a listener the events that it has not been sent, and a sign of life from time to time.
    pub(super) fn send_events<D: Device, H: Host>(
        &mut self,
        desk: &Desk<'_, '_, '_, D, H>,
        now: Moment,
    ) -> bool {
        let Waiting::Events(first) = &self.waiting else {
            return true;
        };
        let mut next = desk.watch.log.oldest().max(*first);
        for _event in 0..AT_ONCE {
            let Some(line) = desk.watch.log.get(next) else {
                break;
            };
            if self
                .connection
                .send_event(&mut self.output, next, line)
                .is_err()
            {
                return false;
            }
            self.active = now;
            next = next.saturating_add(1);
        }
        self.waiting = Waiting::Events(next);
        self.beat(now)
    }

    /// Sends a listener a sign of life if it was sent nothing for a while.
    fn beat(&mut self, now: Moment) -> bool {
        if !now.is_late(self.active, BEAT_MS) {
            return true;
        }
        self.active = now;
        self.connection.send_heartbeat(&mut self.output).is_ok()
    }
}
