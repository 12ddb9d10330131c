//! A till's run over the events of its line.
ghost use Rattle.std.specs.Prelude.{◌≡◌, ◌++◌, ◌∷◌, [], ℕ, List, true, false, if◌then◌else◌, OnOk, IfOk};
ghost use Rattle.zvt_apdu.specs.Message.{Message};
ghost use Rattle.zvt_apdu.specs.Briefs.{message_of_brief};
ghost use Rattle.zvt_stream.specs.Apdus.{Spelled};
ghost use Rattle.zvt_stream.specs.LineReading.{strictly};
ghost use Rattle.zvt_stream.specs.StreamState.{at_start};
ghost use Rattle.zvt_till.specs.Refusals.{refusal, sent_as};
ghost use Rattle.zvt_till.specs.Till.{facts_of, new_till, state_after};
ghost use Rattle.zvt_till.specs.Log.{IsLog, facts_in, line_up};
ghost use Rattle.zvt_till.specs.Books.{books, settled};
ghost use Rattle.zvt_till.specs.Doubts.{unclear_reversals};
ghost use Rattle.zvt_till.specs.Marks.{entries, reversals_left};
ghost use Rattle.zvt_till.specs.Settings.{strict};
ghost use Rattle.zvt_grammar.specs.Reading.{shortest};
ghost use Rattle.zvt_till.specs.Events.{IsTied, HoldsLine, Follows, IsLogOf, run_settings, sent_over, log_after_order};
ghost use Rattle.zvt_till.specs.Events.{message_out, ReadsPiece};

use crate::happenings::{Happening, Sent};
use crate::hearing::heard_view;
use crate::messages::{CurrencyFact, Heard, Original, StatusFacts};
use crate::orders::{Order, OrderRefusal, Outgoing};
use crate::till::Till;
use std::alloc::{AllocError, Global};
use zvt_apdu::MAX_BRIEF_LEN;
use zvt_bcd::{Amount, Currency, Trace};
use zvt_stream::{FedView, FeedError, Stream};

/// An event in a run of a till.
#[derive(Drop)]
pub enum Event {
    /// The line is up. If it was down, this is a new line.
    Connected,
    /// The till is given this order.
    Order(Order),
    /// These bytes arrived on the line. They may begin and end in the middle of a message.
    Piece(Vec<u8>),
    /// The connection was lost.
    Lost,
}

/// The result of a run: the log, the till after it, and all bytes that the till sent.
#[derive(Drop)]
pub struct Run {
    pub log: Vec<Happening>,
    pub till: Till,
    pub sent: Vec<u8>,
}

/// Returns an order of a till with this currency, as a log contains it.
fn sent_as(currency: Currency, order: &Order) -> Sent
    ensures { result ≡ sent_as currency order.now }
{
    match order {
        Order::Register => Sent::Register(Some(currency)),
        Order::Pay(amount) => Sent::Pay(*amount),
        Order::Reverse(entry) => Sent::Reverse(*entry),
        Order::CloseDay => Sent::CloseDay,
        Order::Cancel => Sent::Cancel,
    }
}

/// Adds an event to a log. The first lines of the body have no effect: they name the types in a happening, which the
/// proof of `push` asks for.
fn add(log: &mut Vec<Happening>, happening: Happening) -> Result<(), AllocError>
    ensures { OnOk result (log.new.items ≡ log.old.items ++ happening ∷ []) }
{
    let _sent: Option<Sent> = None;
    let _heard: Option<Heard> = None;
    let _status: Option<StatusFacts> = None;
    let _amount: Option<Amount> = None;
    let _trace: Option<Trace> = None;
    let _original: Option<Original> = None;
    let _named: Option<CurrencyFact> = None;
    let _currency: Option<Currency> = None;
    log.push(happening)?;
    Ok(())
}

/// Adds the bytes of a message to the bytes sent.
fn send(sent: &mut Vec<u8>, outgoing: &Outgoing) -> Result<(), AllocError>
    ensures { OnOk result ((before : List Message) → Spelled sent.old.items before [] → Spelled sent.new.items
        (before ++ message_out outgoing.now ∷ []) []) }
{
    let mut buffer = [0; MAX_BRIEF_LEN];
    let size = outgoing.put(&mut buffer);
    sent.extend_from_slice(&buffer[..size])?;
    Ok(())
}

/// Starts a new stream if the line was down.
fn start_line(alloc: Global, stream: &mut Stream, up: bool)
    ensures { stream.new ≡ (if up then stream.old else at_start) }
{
    if !up {
        *stream = Stream::new(alloc);
    }
}

impl Run {
    /// Gives the till an order. A refused order has no effect.
    fn order(&mut self, order: Order) -> Result<(), AllocError>
        requires { IsTied self.old.log.items self.old.till.state self.old.sent.items }
        ensures tied { OnOk result (IsTied self.new.log.items self.new.till.state self.new.sent.items) }
        ensures log { OnOk result (self.new.log.items ≡ log_after_order self.old.log.items order
            (refusal (facts_in strict self.old.log.items) order)) }
    {
        let as_sent = sent_as(self.till.currency(), &order);
        match self.till.order(order) {
            Ok(outgoing) => {
                add(&mut self.log, Happening::Sent(as_sent))?;
                send(&mut self.sent, &outgoing)?;
                Ok(())
            }
            Err(why) => match why {
                OrderRefusal::Memory => Err(AllocError),
                _ => Ok(()),
            },
        }
    }

    /// Notifies the till that the line is up.
    fn connected(&mut self) -> Result<(), AllocError>
        requires { IsTied self.old.log.items self.old.till.state self.old.sent.items }
        ensures tied { OnOk result (IsTied self.new.log.items self.new.till.state self.new.sent.items) }
        ensures log { OnOk result (self.new.log.items ≡ self.old.log.items ++ Happening.Connected ∷ []) }
    {
        self.till.connected();
        add(&mut self.log, Happening::Connected)?;
        Ok(())
    }

    /// Notifies the till that the connection was lost.
    fn lost(&mut self) -> Result<(), AllocError>
        requires { IsTied self.old.log.items self.old.till.state self.old.sent.items }
        ensures tied { OnOk result (IsTied self.new.log.items self.new.till.state self.new.sent.items) }
        ensures log { OnOk result (self.new.log.items ≡ self.old.log.items ++ Happening.Lost ∷ []) }
    {
        let _ = self.till.lost();
        add(&mut self.log, Happening::Lost)?;
        Ok(())
    }

    /// Lets the till process a message on a line that is up.
    fn heard(&mut self, heard: &Heard) -> Result<(), AllocError>
        requires tied { IsTied self.old.log.items self.old.till.state self.old.sent.items }
        requires up { line_up self.old.log.items ≡ true }
        ensures tied { OnOk result (IsTied self.new.log.items self.new.till.state self.new.sent.items) }
        ensures log { OnOk result (self.new.log.items ≡ self.old.log.items ++ Happening.Heard heard.now ∷ []) }
    {
        let answer = self.till.hear(*heard).send;
        add(&mut self.log, Happening::Heard(*heard))?;
        if let Some(outgoing) = answer {
            send(&mut self.sent, &outgoing)?;
        }
        Ok(())
    }

    /// Gives up a line that is up, because its bytes are not a message.
    fn malformed(&mut self) -> Result<(), AllocError>
        requires tied { IsTied self.old.log.items self.old.till.state self.old.sent.items }
        requires up { line_up self.old.log.items ≡ true }
        ensures tied { OnOk result (IsTied self.new.log.items self.new.till.state self.new.sent.items) }
        ensures log { OnOk result (self.new.log.items ≡ self.old.log.items ++ Happening.Malformed ∷ []) }
    {
        let _ = self.till.malformed();
        add(&mut self.log, Happening::Malformed)?;
        Ok(())
    }

    /// Processes bytes on a line that is up: their messages, up to the point where they are malformed.
    fn piece(&mut self, stream: &mut Stream, piece: &[u8]) -> Result<(), AllocError>
        requires tied { IsTied self.old.log.items self.old.till.state self.old.sent.items }
        requires up { line_up self.old.log.items ≡ true }
        requires runs { stream.old.stopped ≡ false }
        requires strict { stream.old.reading ≡ strictly shortest }
        ensures tied { OnOk result (IsTied self.new.log.items self.new.till.state self.new.sent.items) }
        ensures read { OnOk result (ReadsPiece self.old.log.items stream.old.held piece.now self.new.log.items
            stream.new) }
    {
        let mut rest = piece;
        'messages: loop {
            match stream.feed_view(rest) {
                Ok(FedView::Message { taken }) => {
                    let Some(apdu) = stream.lent() else {
                        unreachable!()
                    };
                    let message = heard_view(&apdu);
                    self.heard(&message)?;
                    rest = &rest[taken..];
                }
                Ok(FedView::More) => return Ok(()),
                Ok(FedView::Refused { .. }) => {
                    self.malformed()?;
                    return Ok(());
                }
                Err(FeedError::Stopped) => unreachable!(),
                Err(FeedError::Memory) => return Err(AllocError),
            }
        }
    }

    /// Processes one event.
    fn event(&mut self, alloc: Global, stream: &mut Stream, event: &Event) -> Result<(), AllocError>
        requires tied { IsTied self.old.log.items self.old.till.state self.old.sent.items }
        requires runs { line_up self.old.log.items ≡ true → stream.old.stopped ≡ false }
        requires strict { line_up self.old.log.items ≡ true → stream.old.reading ≡ strictly shortest }
        ensures tied { OnOk result (IsTied self.new.log.items self.new.till.state self.new.sent.items) }
        ensures follows { OnOk result ((bytes : List ℕ) → HoldsLine self.old.log.items bytes stream.old
            → (later : List ℕ) × Follows self.old.log.items bytes event.now self.new.log.items later
            × HoldsLine self.new.log.items later stream.new) }
    {
        match event {
            Event::Connected => {
                start_line(alloc, stream, self.till.line_up());
                self.connected()?;
            }
            Event::Order(order) => self.order(*order)?,
            Event::Piece(piece) => {
                if self.till.line_up() {
                    self.piece(stream, piece.as_slice())?;
                }
            }
            Event::Lost => self.lost()?,
        }
        Ok(())
    }
}

/// Runs a new till over the events. A refused order does not appear in the log. Fails only if memory runs out.
pub fn replay(alloc: Global, events: &[Event]) -> Result<Run, AllocError>
    // The log is the log of the events, however the line's bytes are cut into pieces.
    ensures log { IfOk result (λ run. IsLogOf events.now run.log.items) }
    ensures allowed { IfOk result (λ run. IsLog run_settings run.log.items) }
    // The till has the state that the log prescribes,
    ensures state { IfOk result (λ run. run.till.state ≡ state_after run_settings run.log.items) }
    ensures facts { IfOk result (λ run. facts_of run.till.state ≡ facts_in strict run.log.items) }
    // with the book, its marks and the unclear payments that the log's complete orders justify.
    ensures book { IfOk result (λ run. run.till.state.book ≡ entries strict run.log.items) }
    ensures unclear { IfOk result (λ run. run.till.state.unclear ≡ settled (books run.log.items).unclear) }
    // Its unclear reversals are exactly those that the log leaves unclear.
    ensures reversals { IfOk result (λ run. unclear_reversals run.till.state.book
        ≡ reversals_left strict run.log.items) }
    // It sent the accepted orders and the replies, in order, and nothing else.
    ensures sent { IfOk result (λ run. Spelled run.sent.items (sent_over run.log.items) []) }
{
    let mut run = Run {
        log: Vec::new(alloc),
        till: Till::with_defaults(alloc),
        sent: Vec::new(alloc),
    };
    let mut stream = Stream::new(alloc);
    for event in events {
        run.event(alloc, &mut stream, event)?;
    }
    Ok(run)
}
