//! Both ends of a line that may lose, repeat and reorder messages.
ghost use Rattle.std.specs.Prelude.{◌≡◌, ◌++◌, [], map, IfOk, IsTrue, OnOk, slice_get};
ghost use Rattle.zvt_term.specs.Reports.{message_of_report};
ghost use Rattle.zvt_term.specs.Steps.{AreWritable};
ghost use Rattle.zvt_term.specs.Terminal.{reports_of};
ghost use Rattle.zvt_term.specs.World.{sent_out, new_ends, FitOrder, FitMove, Matches, move, orders, reaches_terminal};
ghost use Rattle.zvt_term.specs.World.{reaches_till, world};
ghost use Rattle.zvt_till.specs.Till.{facts_of};
ghost use Rattle.zvt_till.specs.Refusals.{refusal};
ghost use Rattle.zvt_term.specs.Orderly.{are_orderly, IsAccounted};
ghost use Rattle.zvt_term.specs.Returned.{KeepsReversals};
ghost use Rattle.zvt_term.specs.Simulation.{ends_of};

use crate::asked::asked;
use crate::messages::Response;
use crate::terminal::Terminal;
use crate::turns::Verdict;
use crate::writer::report_message;
use std::alloc::{AllocError, Global};
use zvt_apdu::Apdu;
use zvt_till::{Order, OrderRefusal, Outgoing, Till, heard};

/// An event at either end. A delivery names a message by its index among all messages that the other end ever sent,
/// counted from 0, so a message may arrive late, again, or never.
#[derive(Clone, Copy)]
pub enum Move {
    /// The till has a new line.
    Connect,
    /// The till is given an order.
    Order(Order),
    /// A message of the till reaches the terminal, which decides like this if the message is an authorisation.
    ToTerminal(usize, Verdict),
    /// A message of the terminal reaches the till.
    ToTill(usize),
    /// The till loses its line.
    TillLost,
    /// The terminal loses its line.
    TerminalLost,
}

/// Both ends, and all messages that each ever sent.
#[derive(Drop)]
pub struct World {
    pub till: Till,
    pub terminal: Terminal,
    pub from_till: Vec<Apdu>,
    pub from_terminal: Vec<Apdu>,
}

/// The default terminal ID.
pub const DEFAULT_TID: u32 = 12_345_678;

/// Keeps a message that the till sends, if there is one.
fn keep_sent(
    sent: &mut Vec<Apdu>,
    alloc: Global,
    outgoing: &Option<Outgoing>,
) -> Result<(), AllocError>
    ensures { OnOk result (sent.new.items ≡ sent.old.items ++ sent_out outgoing.now) }
{
    if let Some(outgoing) = outgoing {
        sent.push(outgoing.message(alloc)?)?;
    }
    Ok(())
}

/// Keeps the replies of the terminal.
fn keep_said(said: &mut Vec<Apdu>, alloc: Global, reply: &Response) -> Result<(), AllocError>
    requires { AreWritable (reports_of reply.now) }
    ensures { OnOk result (said.new.items ≡ said.old.items ++ map message_of_report (reports_of reply.now)) }
{
    match reply {
        Response::Nothing => {}
        Response::One(report) => said.push(report_message(alloc, report)?)?,
        Response::Two(first, second) => {
            said.push(report_message(alloc, first)?)?;
            said.push(report_message(alloc, second)?)?;
        }
    }
    Ok(())
}

/// Makes it known to the proof that the amount of an order is valid. Does nothing else.
fn note_amount(order: &Order)
    ensures { FitOrder order.now }
{
    if let Order::Pay(amount) = order {
        let _ = amount.get();
    }
}

impl World {
    fn new(alloc: Global) -> World
        ensures { ends_of result ≡ new_ends }
    {
        World {
            till: Till::with_defaults(alloc),
            terminal: Terminal::new(alloc, DEFAULT_TID),
            from_till: Vec::new(alloc),
            from_terminal: Vec::new(alloc),
        }
    }

    /// Gives the till an order. A refused order has no effect.
    fn order(&mut self, alloc: Global, order: &Order) -> Result<(), AllocError>
        ensures { OnOk result (ends_of self.new ≡ orders (ends_of self.old) order.now
            (refusal (facts_of self.old.till.state) order.now)) }
    {
        match self.till.order(*order) {
            Ok(outgoing) => keep_sent(&mut self.from_till, alloc, &Some(outgoing)),
            Err(OrderRefusal::Memory) => Err(AllocError),
            Err(_) => Ok(()),
        }
    }

    /// Delivers a message of the till, if there is one with this index.
    fn to_terminal(
        &mut self,
        alloc: Global,
        index: usize,
        verdict: Verdict,
    ) -> Result<(), AllocError>
        ensures { OnOk result (ends_of self.new ≡ reaches_terminal (ends_of self.old) verdict
            (slice_get self.old.from_till.items index)) }
    {
        let Some(apdu) = self.from_till.get(index) else {
            return Ok(());
        };
        let turn = self.terminal.turn_of(&asked(apdu), verdict);
        self.terminal.make(&turn)?;
        keep_said(&mut self.from_terminal, alloc, &turn.reply)
    }

    /// Delivers a message of the terminal, if there is one with this index.
    fn to_till(&mut self, alloc: Global, index: usize) -> Result<(), AllocError>
        ensures { OnOk result (ends_of self.new ≡ reaches_till (ends_of self.old)
            (slice_get self.old.from_terminal.items index)) }
    {
        let Some(apdu) = self.from_terminal.get(index) else {
            return Ok(());
        };
        let reply = self.till.hear(heard(apdu));
        keep_sent(&mut self.from_till, alloc, &reply.send)
    }

    /// Makes one move.
    fn make(&mut self, alloc: Global, step: &Move) -> Result<(), AllocError>
        ensures moved { OnOk result (ends_of self.new ≡ move (ends_of self.old) step.now) }
        ensures fit { FitMove step.now }
    {
        match step {
            Move::Connect => self.till.connected(),
            Move::Order(order) => {
                note_amount(order);
                self.order(alloc, order)?;
            }
            Move::ToTerminal(index, verdict) => self.to_terminal(alloc, *index, *verdict)?,
            Move::ToTill(index) => self.to_till(alloc, *index)?,
            Move::TillLost => {
                let _ = self.till.lost();
            }
            Move::TerminalLost => self.terminal.lose(),
        }
        Ok(())
    }
}

/// Makes the moves with a new till and a new terminal. A delivery of a message that was never sent has no effect, and
/// neither has an order that the till refuses. Fails only if memory runs out.
pub fn run_world(alloc: Global, moves: &[Move]) -> Result<World, AllocError>
    ensures world { IfOk result (λ both. ends_of both ≡ world moves.now) }
    // Even if messages arrive late, again or never, each entry of the book corresponds to an approval of its own in the
    // ledger, in the till's currency.
    ensures matches { IfOk result (λ both. Matches both.till.state both.terminal.ledger) }
    // Over lines that keep the order of messages, each approval of an amount is booked, unclear or still awaited.
    ensures accounted { IfOk result (λ both. IsTrue (are_orderly moves.now) → IsAccounted both.till.state
        both.terminal.ledger) }
    // Over such lines, each payment that the terminal reversed is marked, unclear or known by B4, or its reversal is
    // running.
    ensures reversals { IfOk result (λ both. IsTrue (are_orderly moves.now) → KeepsReversals both.till.state
        both.terminal.ledger) }
{
    let mut both = World::new(alloc);
    for step in moves {
        both.make(alloc, step)?;
    }
    Ok(both)
}
