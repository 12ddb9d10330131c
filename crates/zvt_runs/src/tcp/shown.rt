//! Shows the messages of a terminal as they arrive.
ghost use Rattle.std.specs.Prelude.{◌≡◌, [], is_some};
ghost use Rattle.zvt_grammar.specs.Lengths.{reading_of};
ghost use Rattle.zvt_trace.specs.Resuming.{side_scope};
ghost use Rattle.zvt_show.specs.Beside.{showing_of};
ghost use Rattle.zvt_show.specs.Shown.{HasShown};
ghost use Rattle.zvt_runs.specs.Showing.{style_of};

use std::alloc::Global;
use std::io::Stderr;
use zvt_io::{Over, Sink};
use zvt_show::{Shown, Style};
use zvt_stream::LineForm;
use zvt_text::{Form, TextOptions};
use zvt_trace::{Scope, Tally};

/// Returns a listener that shows a line on this output in this form, if an output is given. `line` says how the
/// messages are read.
pub(crate) fn shown_by(
    alloc: Global,
    form: Form,
    line: LineForm,
    output: Option<Stderr>,
) -> Option<Shown<Over<Stderr>, Tally>>
    ensures { is_some result ≡ is_some output }
{
    match output {
        Some(output) => Some(shown_on(alloc, form, line, Over::new(output))),
        None => None,
    }
}

/// Returns a listener that shows a line on this output in this form. It has shown nothing yet. `line` says how the
/// messages are read.
fn shown_on<W: Sink + Drop>(alloc: Global, form: Form, line: LineForm, output: W) -> Shown<W, Tally>
    ensures { HasShown W.written (reading_of line.lengths) (side_scope line.passes) (style_of form) []
        (W.written output) (showing_of result) }
{
    let count = Tally {
        messages: 0,
        bad: 0,
    };
    Shown::new(
        alloc,
        style_of(form),
        Scope::of_side(line.passes),
        line.lengths,
        output,
        count,
    )
}

/// Returns the style that shows a line in this form.
fn style_of(form: Form) -> Style
    ensures { result ≡ style_of form }
{
    match form {
        Form::Text => Style::Show(TextOptions::safe()),
        Form::Json => Style::Json,
    }
}
