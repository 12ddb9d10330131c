//! The text of a line, which is shown while another listener hears the line.
ghost use Rattle.std.specs.Prelude.{◌≡◌, ◌++◌, ◌∷◌, [], codes, ℕ, List, Option, None, OnOk};
ghost use Rattle.std.specs.Result.{result_err};
ghost use Rattle.zvt_grammar.specs.Lengths.{reading_of};
ghost use Rattle.zvt_grammar.specs.Reading.{Reading};
ghost use Rattle.zvt_trace.specs.Chunks.{IsBetweenLines, IsReady};
ghost use Rattle.zvt_trace.specs.Lines.{piece_text};
ghost use Rattle.zvt_trace.specs.declared.listener.Scope.{Scope};
ghost use Rattle.zvt_show.specs.Beside.{AnswersTold, HasReadSome, HasTold, MayWatch, PrintsRest, Tells};
ghost use Rattle.zvt_show.specs.Beside.{or_failed, showing_of, told_all, watching};
ghost use Rattle.zvt_show.specs.Shown.{AnswersShown, HasShown, Shows};
ghost use Rattle.zvt_show.specs.declared.render.Style.{Style};

use crate::pages::{Pages, Printing, flush};
use crate::render::Style;
use std::alloc::Global;
use std::marker::Model;
use zvt_grammar::Lengths;
use zvt_io::Sink;
use zvt_trace::{
    Alone, Both, Direction, Listener, ListenerError, Observer, Scope, Tally, TraceFault, Walker,
};

/// A printing, and a listener beside it. Each stops at its own failure.
type Listeners<W, L> = Both<Alone<Printing<W>>, Alone<L>>;

/// Shows the text of a line on its output while the line goes on: what `zvt show` prints of the line's trace. Another
/// listener hears the same events. Each stops at its own failure, and the other continues.
/// It misses nothing.
#[derive(Drop)]
pub struct Shown<W, L> {
    walker: Walker,
    fault: Option<TraceFault>,
    listeners: Listeners<W, L>,
}

/// What came of showing a line, the output that has its text, and the listener that heard all of it.
#[derive(Drop)]
pub struct ShownToEnd<W, L> {
    /// How many messages were shown, and how many streams were refused or cut off.
    pub shown: Result<Tally, TraceFault>,
    pub output: W,
    pub beside: Result<L, TraceFault>,
}

impl<W, L> Model for Shown<W, L> {
    ghost use Rattle.zvt_show.specs.Beside.{MayWatch, Watching};
    ghost use Rattle.std.specs.Coded.{codes as codes_of};
    ghost use Rattle.zvt_show.specs.contracts.follow.Follower as follower_of;

    ghost Value = { Watching W L };

    ghost coded = { Prim.hlevel (codes_of, follower_of.the_row.coded) };

    ghost view = { λ one. record {
      follower = record { pages = one.listeners.first.listener.pages; walker = one.walker };
      printing_fault = one.listeners.first.fault;
      fault = one.fault;
      output = one.listeners.first.listener.output;
      beside = one.listeners.second.listener;
      beside_fault = one.listeners.second.fault;
    } };

    ghost invariant = { λ one. MayWatch one.listeners.first.fault one.fault one.walker
        one.listeners.first.listener.pages };
}

impl<W: Sink + Drop, L: Listener + Drop> Shown<W, L> {
    /// Shows nothing yet. The text has this style. `scope` says how much of the line is not read after a refused
    /// message, and `lengths` selects the accepted forms of length.
    pub fn new(
        alloc: Global,
        style: Style,
        scope: Scope,
        lengths: Lengths,
        output: W,
        beside: L,
    ) -> Shown<W, L>
        ensures shown { HasShown W.written (reading_of lengths) scope style [] (W.written output)
            (showing_of result) }
        ensures told { HasTold L.hears (reading_of lengths) scope [] beside result }
        ensures output { result.output ≡ output }
    {
        Shown {
            walker: Walker::new(alloc, scope, lengths),
            fault: None,
            listeners: Both {
                first: Alone {
                    listener: Printing {
                        pages: Pages::new(alloc, style),
                        output,
                    },
                    fault: None,
                },
                second: Alone {
                    listener: beside,
                    fault: None,
                },
            },
        }
    }

    /// Shows that the line has ended, and what is cut off there. The listener hears that too.
    pub fn end(self) -> ShownToEnd<W, L>
        ensures shown { (r : Reading) (scope : Scope) (style : Style) (trace : List ℕ) (first : Option (List ℕ))
            → HasShown W.written r scope style trace first (showing_of self) → AnswersShown r scope style
            (trace ++ (codes "!" ++ 10 ∷ [])) first (W.written result.output) result.shown }
        ensures told { (r : Reading) (scope : Scope) (trace : List ℕ) (start : L)
            → HasTold L.hears r scope trace start self
            → AnswersTold L.hears r scope (trace ++ (codes "!" ++ 10 ∷ [])) start result.beside }
    {
        let Shown {
            walker,
            fault,
            mut listeners,
        } = self;
        let answer = end_line(walker, fault, &mut listeners);
        let Both { first, second } = listeners;
        ShownToEnd {
            shown: or_failure(first.fault, answer),
            output: first.listener.output,
            beside: heard_all(second, answer),
        }
    }
}

impl<W: Sink, L: Listener> Observer for Shown<W, L> {
    ghost observes = { λ old from bytes new. Shows W.written (showing_of old) (piece_text from bytes) (showing_of new)
        × Tells L.hears old (piece_text from bytes) new };

    ghost misses = { λ _ _ _ _ _. ⊥ };

    fn observe(&mut self, from: Direction, bytes: &[u8]) -> Result<(), ListenerError> {
        if self.fault.is_some() {
            return Ok(());
        }
        self.fault = show_piece(&mut self.walker, &mut self.listeners, from, bytes).err();
        Ok(())
    }
}

/// Shows what this side sent.
fn show_piece<W: Sink, L: Listener>(
    walker: &mut Walker,
    listeners: &mut Listeners<W, L>,
    from: Direction,
    bytes: &[u8],
) -> Result<(), TraceFault>
    requires ready { IsReady walker.old }
    requires read { HasReadSome walker.old }
    requires between { IsBetweenLines walker.old }
    requires empty { listeners.old.first.fault ≡ None → listeners.old.first.listener.pages.block ≡ [] }
    ensures shows { Shows W.written (showing_of (watching walker.old None listeners.old)) (piece_text from bytes.now)
        (showing_of (watching walker.new (result_err result) listeners.new)) }
    ensures tells { Tells L.hears (watching walker.old None listeners.old) (piece_text from bytes.now)
        (watching walker.new (result_err result) listeners.new) }
    ensures ready { OnOk result (IsReady walker.new) }
    ensures read { OnOk result (HasReadSome walker.new) }
    ensures between { IsBetweenLines walker.new }
    ensures empty { listeners.new.first.fault ≡ None → listeners.new.first.listener.pages.block ≡ [] }
{
    let was_failed = listeners.first.fault.is_some();
    let answer = walker.take(listeners, from, bytes);
    print_rest(was_failed, &mut listeners.first);
    answer
}

/// Shows that the connection is lost.
fn show_loss<W: Sink, L: Listener>(
    walker: &mut Walker,
    listeners: &mut Listeners<W, L>,
) -> Result<(), TraceFault>
    requires ready { IsReady walker.old }
    requires read { HasReadSome walker.old }
    requires empty { listeners.old.first.fault ≡ None → listeners.old.first.listener.pages.block ≡ [] }
    ensures shows { Shows W.written (showing_of (watching walker.old None listeners.old)) (codes "!" ++ 10 ∷ [])
        (showing_of (watching walker.new (result_err result) listeners.new)) }
    ensures tells { Tells L.hears (watching walker.old None listeners.old) (codes "!" ++ 10 ∷ [])
        (watching walker.new (result_err result) listeners.new) }
    ensures ready { OnOk result (IsReady walker.new) }
    ensures read { OnOk result (HasReadSome walker.new) }
    ensures empty { listeners.new.first.fault ≡ None → listeners.new.first.listener.pages.block ≡ [] }
{
    let was_failed = listeners.first.fault.is_some();
    let answer = walker.feed(listeners, b"!\n");
    print_rest(was_failed, &mut listeners.first);
    answer
}

/// Shows that the line has ended, unless it could not be read before.
fn end_line<W: Sink, L: Listener>(
    walker: Walker,
    fault: Option<TraceFault>,
    listeners: &mut Listeners<W, L>,
) -> Result<Tally, TraceFault>
    requires { MayWatch listeners.old.first.fault fault walker listeners.old.first.listener.pages }
    ensures shows { (r : Reading) (scope : Scope) (style : Style) (trace : List ℕ) (first : Option (List ℕ))
        → HasShown W.written r scope style trace first (showing_of (watching walker fault listeners.old))
        → AnswersShown r scope style (trace ++ (codes "!" ++ 10 ∷ [])) first
        (W.written listeners.new.first.listener.output)
        (or_failed listeners.new.first.fault result) }
    ensures tells { (r : Reading) (scope : Scope) (trace : List ℕ) (start : L)
        → HasTold L.hears r scope trace start (watching walker fault listeners.old)
        → AnswersTold L.hears r scope (trace ++ (codes "!" ++ 10 ∷ [])) start
        (told_all listeners.new.second.fault result listeners.new.second.listener) }
{
    match fault {
        Some(fault) => Err(fault),
        None => show_end(walker, listeners),
    }
}

/// Shows that the connection is lost, and what is cut off at the end of the line.
fn show_end<W: Sink, L: Listener>(
    walker: Walker,
    listeners: &mut Listeners<W, L>,
) -> Result<Tally, TraceFault>
    requires ready { IsReady walker }
    requires read { HasReadSome walker }
    requires empty { listeners.old.first.fault ≡ None → listeners.old.first.listener.pages.block ≡ [] }
    ensures shows { (r : Reading) (scope : Scope) (style : Style) (trace : List ℕ) (first : Option (List ℕ))
        → HasShown W.written r scope style trace first (showing_of (watching walker None listeners.old))
        → AnswersShown r scope style (trace ++ (codes "!" ++ 10 ∷ [])) first
        (W.written listeners.new.first.listener.output)
        (or_failed listeners.new.first.fault result) }
    ensures tells { (r : Reading) (scope : Scope) (trace : List ℕ) (start : L)
        → HasTold L.hears r scope trace start (watching walker None listeners.old)
        → AnswersTold L.hears r scope (trace ++ (codes "!" ++ 10 ∷ [])) start
        (told_all listeners.new.second.fault result listeners.new.second.listener) }
{
    let mut walker = walker;
    show_loss(&mut walker, listeners)?;
    show_rest(walker, listeners)
}

/// Shows what is cut off at the end of the line.
fn show_rest<W: Sink, L: Listener>(
    walker: Walker,
    listeners: &mut Listeners<W, L>,
) -> Result<Tally, TraceFault>
    requires ready { IsReady walker }
    requires read { HasReadSome walker }
    requires empty { listeners.old.first.fault ≡ None → listeners.old.first.listener.pages.block ≡ [] }
    ensures shows { (r : Reading) (scope : Scope) (style : Style) (trace : List ℕ) (first : Option (List ℕ))
        → HasShown W.written r scope style trace first (showing_of (watching walker None listeners.old))
        → AnswersShown r scope style trace first (W.written listeners.new.first.listener.output)
        (or_failed listeners.new.first.fault result) }
    ensures tells { (r : Reading) (scope : Scope) (trace : List ℕ) (start : L)
        → HasTold L.hears r scope trace start (watching walker None listeners.old)
        → AnswersTold L.hears r scope trace start
        (told_all listeners.new.second.fault result listeners.new.second.listener) }
{
    let was_failed = listeners.first.fault.is_some();
    let answer = walker.finish(listeners);
    print_rest(was_failed, &mut listeners.first);
    answer
}

/// Writes the text that waits, unless printing had failed before.
fn print_rest<W: Sink>(was_failed: bool, shown: &mut Alone<Printing<W>>)
    ensures { PrintsRest W.written was_failed shown.old shown.new }
{
    if was_failed {
        return;
    }
    if let Err(why) = flush(&mut shown.listener.pages.block, &mut shown.listener.output) {
        shown.fault = Some(why);
    }
}

/// The answer, where printing has not failed.
fn or_failure(
    fault: Option<ListenerError>,
    answer: Result<Tally, TraceFault>,
) -> Result<Tally, TraceFault>
    ensures { result ≡ or_failed fault answer }
{
    match fault {
        Some(why) => Err(TraceFault::from(why)),
        None => answer,
    }
}

/// The listener, where it has heard all.
fn heard_all<L: Drop>(alone: Alone<L>, answer: Result<Tally, TraceFault>) -> Result<L, TraceFault>
    ensures { result ≡ told_all alone.fault answer alone.listener }
{
    match (alone.fault, answer) {
        (Some(why), _) => Err(TraceFault::from(why)),
        (None, Err(fault)) => Err(fault),
        (None, Ok(_)) => Ok(alone.listener),
    }
}
