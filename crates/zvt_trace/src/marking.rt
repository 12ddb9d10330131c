//! A device that writes time marks.
ghost use Rattle.std.specs.Prelude.{◌≡◌, ◌++◌, ◌∷◌, true, OnOk};
ghost use Rattle.zvt_trace.specs.Marking.{IsMarked};
ghost use Rattle.zvt_trace.specs.Marks.{mark_text};

use crate::ghost_text::GhostText;
use crate::moment::Moment;
use std::alloc::{AllocError, Global};
use zvt_io::{Failed, Sink};
use zvt_text::Text;

/// Supplies moments.
pub trait MomentSource {
    /// Returns the current moment, or `None` if marks are to be left out or the time is not known.
    fn now(&self) -> Option<Moment>;
}

/// No moments, if there is no source.
impl<S: MomentSource> MomentSource for Option<S> {
    fn now(&self) -> Option<Moment> {
        match self {
            Some(source) => source.now(),
            None => None,
        }
    }
}

/// A device for a trace that writes a time mark before each text, both in one write. So no mark stands alone if the
/// program is ended between two writes.
///
/// In contracts, the bytes written are the texts without the marks. A text has no mark if its moment is not
/// known or memory runs out.
#[derive(Drop)]
pub struct Marking<W, S> {
    pub device: W,
    source: S,
    /// The buffer for a mark and a text.
    line: Text,
    texts: GhostText,
}

impl<W, S> Marking<W, S> {
    ghost use Rattle.std.specs.Prelude.{◌≡◌, []};

    /// Creates a device that marks what is written to this one by the moments of this source.
    pub fn new(alloc: Global, device: W, source: S) -> Marking<W, S>
        ensures device { result.device ≡ device }
        ensures source { result.source ≡ source }
        ensures texts { result.texts.text ≡ [] }
    {
        Marking {
            device,
            source,
            line: Text::new(alloc),
            texts: GhostText::empty(),
        }
    }
}

impl<W: Sink, S: MomentSource> Sink for Marking<W, S> {
    ghost use Rattle.std.specs.Prelude.{Some};
    ghost use Rattle.zvt_io.specs.Devices.{CountsFailure, Writes};
    ghost use Rattle.zvt_trace.specs.Marking.{WritesMarked};

    ghost written = { λ marking. Some marking.texts.text };

    ghost failures = { λ marking. W.failures marking.device };

    fn write_all(&mut self, bytes: &[u8]) -> Result<(), Failed>
        ensures bytes { Writes (Some self.old.texts.text) (Some self.new.texts.text) result bytes.now }
        ensures failures { CountsFailure (W.failures self.old.device) (W.failures self.new.device) result }
        ensures marked { WritesMarked (W.written self.old.device) (W.written self.new.device) result bytes.now }
    {
        let is_marked = spell(&mut self.line, &self.source, bytes);
        let text = choose(is_marked, self.line.bytes(), bytes);
        self.device.write_all(text)?;
        self.texts = self.texts.with(bytes);
        Ok(())
    }
}

/// Returns the marked bytes if there are any, and otherwise the bytes alone.
#[tactic(auto, using(crate::proofs::MarkingLemmas::alone))]
fn choose<'a>(is_marked: bool, marked: &'a [u8], bytes: &'a [u8]) -> &'a [u8]
    requires { is_marked ≡ true → IsMarked marked.now bytes.now }
    ensures { IsMarked result.now bytes.now }
{
    if is_marked { marked } else { bytes }
}

/// Writes a mark and these bytes into the buffer. Returns whether it did: not if the moment is not known, or memory
/// runs out.
fn spell<S: MomentSource>(line: &mut Text, source: &S, bytes: &[u8]) -> bool
    ensures { result ≡ true → IsMarked line.new bytes.now }
{
    match source.now() {
        Some(moment) if moment.is_real() => spell_at(line, &moment, bytes).is_ok(),
        _ => false,
    }
}

/// Writes the mark of this moment and these bytes into the buffer.
fn spell_at(line: &mut Text, moment: &Moment, bytes: &[u8]) -> Result<(), AllocError>
    ensures { OnOk result (line.new ≡ mark_text moment.now ++ 10 ∷ bytes.now) }
{
    line.clear();
    line.word(moment.mark().as_slice())?;
    line.push(b'\n')?;
    line.word(bytes)
}
