//! The sum over several files.
ghost use Rattle.std.specs.Prelude.{◌≡◌, ◌+◌, ◌++◌, ◌^◌, ◌<◌, OnOk};
ghost use Rattle.zvt_audit.specs.Sums.{sum_in, sum_json, sum_text};

use std::alloc::AllocError;
use zvt_text::{Form, Text};

/// The sum of the audits of several traces, or of the books of several tills.
#[derive(Clone, Copy, Debug, PartialEq, Eq)]
pub struct Sum {
    /// The sum of their totals, in the smallest unit of the currency.
    total: u128,
    /// The number of files that were read to their end.
    audited: usize,
    /// The number of files.
    files: usize,
}

impl Sum {
    /// Starts at nothing, with none of the given number of files read.
    pub fn new(files: usize) -> Sum
        ensures { (result.total ≡ 0) × (result.audited ≡ 0) × (result.files ≡ files) }
    {
        Sum {
            total: 0,
            audited: 0,
            files,
        }
    }

    /// Adds the total of one more file.
    pub fn add(&mut self, total: u128)
        ensures total { self.old.total + total < 2 ^ 128 → self.new.total ≡ self.old.total + total }
        ensures audited { self.old.audited + 1 < 2 ^ 64 → self.new.audited ≡ self.old.audited + 1 }
        ensures files { self.new.files ≡ self.old.files }
    {
        self.total = self.total.saturating_add(total);
        self.audited = self.audited.saturating_add(1);
    }

    /// Writes the line of the sum in this form.
    #[tactic(auto, using(crate::proofs::JsonLemmas::sum_said))]
    pub fn write(&self, text: &mut Text, form: Form) -> Result<(), AllocError>
        ensures { OnOk result (text.new ≡ text.old ++ sum_in form self.now) }
    {
        match form {
            Form::Text => self.write_text(text),
            Form::Json => self.write_json(text),
        }
    }

    fn write_text(&self, text: &mut Text) -> Result<(), AllocError>
        ensures { OnOk result (text.new ≡ text.old ++ sum_text self.now) }
    {
        text.word(b"total ")?;
        text.number(self.total)?;
        text.word(b" in ")?;
        if self.audited != self.files {
            text.number(self.audited)?;
            text.word(b" of ")?;
        }
        text.number(self.files)?;
        text.word(b" files\n")
    }

    fn write_json(&self, text: &mut Text) -> Result<(), AllocError>
        ensures { OnOk result (text.new ≡ text.old ++ sum_json self.now) }
    {
        text.word(b"{\"audited\":")?;
        text.number(self.audited)?;
        text.word(b",\"files\":")?;
        text.number(self.files)?;
        text.word(b",\"total\":")?;
        text.number(self.total)?;
        text.word(b"}\n")
    }
}
