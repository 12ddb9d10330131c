//! What is wrong with a trace itself, apart from its orders.
ghost use Rattle.std.specs.Prelude.{◌≡◌, ◌++◌, [], IfOk, OnOk};
ghost use Rattle.std.specs.List.{cons_option};
ghost use Rattle.zvt_trace.specs.TraceEvent.{event_of};
ghost use Rattle.zvt_report.specs.Findings.{ApprovalBy, ApprovalIn, approval_finding, finding_by, listed};
ghost use Rattle.zvt_report.specs.Findings.{reads_on, urgent_findings};

use crate::approvals::{UnreadableApproval, approval_in};
use crate::cases::Weight;
use std::alloc::{AllocError, Global};
use zvt_bcd::{Amount, Currency, Trace};
use zvt_grammar::Why;
use zvt_trace::{Direction, Head, Listener, ListenerError, Scope, TraceEvent};

/// The number of messages that were refused or cut off and that a report lists. Of the others it has the number.
const MOST_LISTED: usize = 20;

/// A finding about the trace itself, which belongs to no order.
#[derive(Clone, Copy)]
pub enum Finding {
    /// The terminal's side sent this many orders, and the till's side none. The number saturates.
    Swapped(usize),
    /// A status information of the terminal could not be read to its end, and its complete fields state an approval.
    ApprovalUnreadable {
        line: u64,
        /// The number of its bytes before the end.
        place: usize,
        /// The amount, if there is exactly one.
        amount: Option<Amount>,
        /// The trace number, if there is exactly one.
        trace: Option<Trace>,
    },
    /// Registrations name two currencies.
    Currencies {
        /// The first that one names.
        first: Currency,
        /// The first other one.
        other: Currency,
        /// The line of the registration that names the other one.
        line: u64,
    },
    /// A message cannot be read.
    Refused {
        line: u64,
        from: Direction,
        /// The control bytes of the message.
        head: Head,
        /// The offset of the first byte after which no message can follow.
        place: usize,
        why: Why,
        /// Whether its side is read on after the message, and not only from the next connection.
        reads_on: bool,
    },
    /// The trace ends, or the connection is lost, within a message.
    CutOff {
        line: u64,
        from: Direction,
        /// The control bytes of the message, as far as they have come.
        head: Head,
        /// The number of bytes that have come.
        have: usize,
    },
    /// This many more messages are refused or cut off.
    MoreRefused(usize),
}

impl Finding {
    ghost use Rattle.std.specs.Prelude.{◌≡◌};
    ghost use Rattle.zvt_report.specs.Findings.{head_of, line_of, weight_of};
    ghost use Rattle.zvt_report.specs.Words.{finding_name};

    /// Returns the name of the finding as every output writes it.
    pub fn name(self) -> &'static str
        ensures { result.now ≡ finding_name self }
    {
        match self {
            Finding::Swapped(_) => "Swapped",
            Finding::ApprovalUnreadable { .. } => "ApprovalUnreadable",
            Finding::Currencies { .. } => "Currencies",
            Finding::Refused { .. } => "Refused",
            Finding::CutOff { .. } => "CutOff",
            Finding::MoreRefused(_) => "MoreRefused",
        }
    }

    /// How urgent the finding is.
    pub fn weight(self) -> Weight
        ensures { result ≡ weight_of self }
    {
        match self {
            Finding::Swapped(_) | Finding::ApprovalUnreadable { .. } => Weight::Act,
            Finding::Currencies { .. } => Weight::Check,
            Finding::Refused { .. } | Finding::CutOff { .. } | Finding::MoreRefused(_) => {
                Weight::Note
            }
        }
    }

    /// Returns the control bytes of the message that the finding is about, as far as they are known.
    pub(crate) fn head(self) -> Head
        ensures { result ≡ head_of self }
    {
        match self {
            Finding::Refused { head, .. } | Finding::CutOff { head, .. } => head,
            Finding::ApprovalUnreadable { .. } => Head::Two(0x04, 0x0F),
            Finding::Swapped(_) | Finding::Currencies { .. } | Finding::MoreRefused(_) => {
                Head::Empty
            }
        }
    }

    /// Returns the line of the trace that the finding is about.
    pub fn line(self) -> Option<u64>
        ensures { result ≡ line_of self }
    {
        match self {
            Finding::ApprovalUnreadable { line, .. }
            | Finding::Currencies { line, .. }
            | Finding::Refused { line, .. }
            | Finding::CutOff { line, .. } => Some(line),
            Finding::Swapped(_) | Finding::MoreRefused(_) => None,
        }
    }
}

/// Finds the messages that are refused or cut off.
#[derive(Drop)]
pub(crate) struct Finder {
    alloc: Global,
    scope: Scope,
    /// In the order of the trace.
    pub(crate) found: Vec<Finding>,
    /// The approvals among them, in the order of the trace.
    pub(crate) approvals: Vec<Finding>,
}

impl Finder {
    /// Starts before the first event of a trace that is read in this scope.
    pub(crate) fn new(alloc: Global, scope: Scope) -> Finder
        ensures scope { result.scope ≡ scope }
        ensures found { result.found.items ≡ [] }
        ensures approvals { result.approvals.items ≡ [] }
    {
        Finder {
            alloc,
            scope,
            found: Vec::new(alloc),
            approvals: Vec::new(alloc),
        }
    }

    /// Adds a finding, if there is one.
    fn take(&mut self, finding: Option<Finding>) -> Result<(), AllocError>
        ensures { OnOk result ((self.new.scope ≡ self.old.scope)
            × (self.new.found.items ≡ self.old.found.items ++ cons_option finding [])
            × (self.new.approvals.items ≡ self.old.approvals.items)) }
    {
        // Names the types in a finding, which the proof asks for.
        let _amount: Option<Amount> = None;
        let _trace: Option<Trace> = None;
        if let Some(finding) = finding {
            self.found.push(finding)?;
        }
        Ok(())
    }

    /// Adds the finding of an approval, if there is one.
    fn take_approval(&mut self, approval: Option<Finding>) -> Result<(), AllocError>
        ensures { OnOk result ((self.new.scope ≡ self.old.scope)
            × (self.new.found.items ≡ self.old.found.items)
            × (self.new.approvals.items ≡ self.old.approvals.items ++ cons_option approval [])) }
    {
        // Names the types in a finding, which the proof asks for.
        let _amount: Option<Amount> = None;
        let _trace: Option<Trace> = None;
        if let Some(approval) = approval {
            self.approvals.push(approval)?;
        }
        Ok(())
    }
}

impl Listener for Finder {
    ghost use Rattle.std.specs.Prelude.{◌≡◌};
    ghost use Rattle.zvt_report.specs.Findings.{finds};
    ghost use Rattle.zvt_trace.specs.declared.listener.ListenerError.TheVariants.{Memory};

    ghost hears = { λ old event new. finds old event new };

    ghost fails = { λ _ _ failure _. failure ≡ Memory };

    fn hear(&mut self, line: u64, trace_event: &TraceEvent<'_>) -> Result<(), ListenerError> {
        // Names the types in a finding, which the proof asks for.
        let _amount: Option<Amount> = None;
        let _trace: Option<Trace> = None;
        self.take(finding_by(self.scope, line, trace_event))?;
        self.take_approval(approval_by(self.alloc, line, trace_event)?)?;
        Ok(())
    }
}

/// Whether a side is read on after a refused message.
fn reads_on(scope: Scope) -> bool
    ensures { result ≡ reads_on scope }
{
    match scope {
        Scope::OneMessage => true,
        Scope::OneSide | Scope::WholeLine => false,
    }
}

/// Returns the finding about a message that is refused or cut off, if this event is one.
fn finding_by(scope: Scope, line: u64, trace_event: &TraceEvent<'_>) -> Option<Finding>
    ensures { result ≡ finding_by scope line (event_of trace_event.now) }
{
    match trace_event {
        TraceEvent::Refused { from, refusal } => Some(Finding::Refused {
            line,
            from: *from,
            head: refusal.head(),
            place: refusal.place(),
            why: refusal.why,
            reads_on: reads_on(scope),
        }),
        TraceEvent::CutOff { from, bytes } => Some(Finding::CutOff {
            line,
            from: *from,
            head: Head::of(bytes),
            have: bytes.len(),
        }),
        TraceEvent::Message { .. }
        | TraceEvent::Unread { .. }
        | TraceEvent::Resumed { .. }
        | TraceEvent::Lost => None,
    }
}

/// Returns the finding about what these bytes of a message state, if they state an approval.
fn approval_finding(line: u64, place: usize, said: Option<UnreadableApproval>) -> Option<Finding>
    ensures { result ≡ approval_finding line place said }
{
    let said = said?;
    Some(Finding::ApprovalUnreadable {
        line,
        place,
        amount: said.amount,
        trace: said.trace,
    })
}

/// Returns the finding about an approval in a message that could not be read to its end. The bytes are the message from
/// its first byte on, as far as it could be read.
fn approval_at(
    alloc: Global,
    line: u64,
    from: Direction,
    bytes: &[u8],
) -> Result<Option<Finding>, AllocError>
    ensures { IfOk result (ApprovalIn line from bytes.now) }
{
    match from {
        Direction::FromTill => Ok(None),
        Direction::FromTerminal => {
            let said = approval_in(alloc, bytes)?;
            Ok(approval_finding(line, bytes.len(), said))
        }
    }
}

/// Returns the finding about an approval in a message that is refused or cut off, if this event is one.
fn approval_by(
    alloc: Global,
    line: u64,
    trace_event: &TraceEvent<'_>,
) -> Result<Option<Finding>, AllocError>
    ensures { IfOk result (ApprovalBy line (event_of trace_event.now)) }
{
    match trace_event {
        TraceEvent::Refused { from, refusal } => approval_at(alloc, line, *from, refusal.before),
        TraceEvent::CutOff { from, bytes } => approval_at(alloc, line, *from, bytes),
        TraceEvent::Message { .. }
        | TraceEvent::Unread { .. }
        | TraceEvent::Resumed { .. }
        | TraceEvent::Lost => Ok(None),
    }
}

/// Returns how many of these findings someone must act on.
pub(crate) fn urgent_findings(findings: &[Finding]) -> usize
    ensures { result ≡ urgent_findings findings.now }
{
    findings
        .iter()
        .filter(|finding| finding.weight().is_urgent())
        .count()
}

/// Returns the first of these findings, and the number of the others.
pub(crate) fn listed(mut found: Vec<Finding>) -> Result<Vec<Finding>, AllocError>
    ensures { IfOk result (λ few. few.items ≡ listed found.items) }
{
    // Names the types in a finding, which the proof asks for.
    let _amount: Option<Amount> = None;
    let _trace: Option<Trace> = None;
    let more = found.len().saturating_sub(MOST_LISTED);
    found.truncate(MOST_LISTED);
    if more > 0 {
        found.push(Finding::MoreRefused(more))?;
    }
    Ok(found)
}
