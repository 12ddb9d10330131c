//! Standard output and standard error, whose reader may disconnect.
ghost use Rattle.std.specs.Prelude.{◌≡◌, IfSome, IsSome, None, false};
ghost use Rattle.std.specs.Io.{WritesAtMost};
ghost use Rattle.zvt.specs.Output.{explained};

use std::alloc::Global;
use std::io::{self, ErrorKind, Write};
use zvt_text::Text;
use zvt_tool::label::Label;
use zvt_trace::TraceFault;

/// A writer that remembers whether its reader disconnected, as the reader of a pipe may. With a label, each line that
/// is written begins with it.
#[derive(Drop)]
pub struct Output<W> {
    inner: W,
    labelling: Option<Labelling>,
    pub broken_pipe: bool,
    /// Whether a write failed since memory was refused for a label.
    pub out_of_memory: bool,
    /// Whether anything was to be written.
    pub has_text: bool,
}

/// A label, the text written last, and its last byte.
#[derive(Drop)]
struct Labelling {
    label: Label,
    text: Text,
    before: u8,
}

impl<W: Drop> Output<W> {
    /// A writer whose reader is connected.
    pub fn new(inner: W) -> Output<W>
        ensures inner { result.inner ≡ inner }
        ensures plain { result.labelling ≡ None }
        ensures connected { (result.broken_pipe ≡ false) × (result.out_of_memory ≡ false) }
    {
        Output {
            inner,
            labelling: None,
            broken_pipe: false,
            out_of_memory: false,
            has_text: false,
        }
    }

    /// A writer whose lines begin with this label.
    pub fn labelled(alloc: Global, inner: W, label: Label) -> Output<W>
        ensures inner { result.inner ≡ inner }
        ensures label { IfSome result.labelling (λ labelling. (labelling.label ≡ label) × (labelling.before ≡ 10))
            × IsSome result.labelling }
        ensures connected { (result.broken_pipe ≡ false) × (result.out_of_memory ≡ false) }
    {
        let labelling = Labelling {
            label,
            text: Text::new(alloc),
            before: b'\n',
        };
        Output {
            inner,
            labelling: Some(labelling),
            broken_pipe: false,
            out_of_memory: false,
            has_text: false,
        }
    }
}

impl<W> Output<W> {
    /// Returns the result of a command that wrote here. If a write failed because an allocation failed, the fault is
    /// the allocation's.
    pub fn explained<T: Drop>(&self, answer: Result<T, TraceFault>) -> Result<T, TraceFault>
        ensures { result ≡ explained self.now.out_of_memory answer }
    {
        match answer {
            Err(TraceFault::Write) if self.out_of_memory => Err(TraceFault::Memory),
            answer => answer,
        }
    }
}

impl<W: Write> Write for Output<W> {
    ghost use Rattle.zvt.specs.Output.{known};

    ghost contents = { λ output. known output.labelling (W.contents output.inner) };

    fn write(&mut self, bytes: &[u8]) -> io::Result<usize> {
        if !bytes.is_empty() {
            self.has_text = true;
        }
        let written = match &mut self.labelling {
            None => self.inner.write(bytes),
            Some(labelling) => write_labelled(&mut self.inner, labelling, bytes),
        };
        if let Err(error) = &written {
            self.broken_pipe = error.kind() == ErrorKind::BrokenPipe;
            self.out_of_memory = error.kind() == ErrorKind::OutOfMemory;
        }
        written
    }

    fn flush(&mut self) -> io::Result<()> {
        self.inner.flush()
    }
}

/// Writes the bytes with their labels.
fn write_labelled<W: Write>(
    inner: &mut W,
    labelling: &mut Labelling,
    bytes: &[u8],
) -> io::Result<usize>
    ensures { WritesAtMost result bytes.now }
{
    let Labelling {
        label,
        text,
        before,
    } = labelling;
    text.clear();
    label.add(text, *before, bytes)?;
    inner.write_all(text.bytes())?;
    if let Some(last) = bytes.last() {
        *before = *last;
    }
    Ok(bytes.len())
}
