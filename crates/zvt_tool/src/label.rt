//! Labels at the beginning of lines, used when several files are read.
ghost use Rattle.std.specs.Prelude.{◌≡◌, ◌++◌, ◌∷◌, [], IfOk, OnOk};
ghost use Rattle.zvt_tool.specs.Labels.{comment_label, json_label, labelled, line_head, text_label};

use serde_json::Value;
use std::alloc::{AllocError, Global};
use zvt_text::Text;

/// A prefix of lines.
#[derive(Drop)]
pub struct Label {
    text: Text,
    /// Whether a line loses its first byte. This is the brace of a JSON object, which the label also contains.
    replaces: bool,
}

impl Label {
    /// Creates a label for text: the name of this file, a colon and a space.
    pub fn of_text(alloc: Global, file: &str) -> Result<Label, AllocError>
        ensures { IfOk result (λ label. label ≡ text_label file.now) }
    {
        let mut text = Text::new(alloc);
        text.word(file.as_bytes())?;
        text.word(b": ")?;
        Ok(Label {
            text,
            replaces: false,
        })
    }

    /// Creates a label that turns lines into comments.
    pub fn of_comment(alloc: Global) -> Result<Label, AllocError>
        ensures { IfOk result (λ label. label ≡ comment_label) }
    {
        let mut text = Text::new(alloc);
        text.word(b"# ")?;
        Ok(Label {
            text,
            replaces: false,
        })
    }

    /// Creates a label for JSON: the beginning of an object whose first member is the name of this file.
    pub fn of_json(alloc: Global, file: &str) -> Result<Label, AllocError>
        ensures { IfOk result (λ label. label ≡ json_label file.now) }
    {
        let mut text = Text::new(alloc);
        text.word(b"{\"file\":")?;
        let name = Value::String(String::from_str(alloc, file)?);
        text.word(name.to_string(alloc)?.as_bytes())?;
        text.push(b',')?;
        Ok(Label {
            text,
            replaces: true,
        })
    }

    /// Adds the bytes to the text, with the label at the beginning of each line. `before` is the byte before them,
    /// which is a line feed at the start.
    pub fn add(&self, text: &mut Text, before: u8, bytes: &[u8]) -> Result<(), AllocError>
        ensures { OnOk result (text.new ≡ text.old ++ labelled self.now before bytes.now) }
    {
        let mut last = before;
        let mut rest = bytes;
        'bytes: while let [byte, after @ ..] = rest {
            if last == b'\n' {
                self.begin(text, *byte)?;
            } else {
                text.push(*byte)?;
            }
            last = *byte;
            rest = after;
        }
        Ok(())
    }

    /// Adds the label and the first byte of a line.
    fn begin(&self, text: &mut Text, first: u8) -> Result<(), AllocError>
        ensures { OnOk result (text.new ≡ text.old ++ line_head self.now first) }
    {
        text.word(self.text.bytes())?;
        if self.replaces {
            return Ok(());
        }
        text.push(first)
    }
}
