//! Appends records of text lines. A record takes effect as a whole, through its gate.
ghost use Rattle.std.specs.Prelude.{◌≡◌, true, All, ◌↔◌, ◌⊎◌, ◌+◌, ◌<◌, ◌≤◌, ◌^◌, ◌++◌, [], ◌∷◌, List, ℕ, get_or};
ghost use Rattle.std.specs.Prelude.{length, drop, IfOk, OnErr, OnOk, IsErrOf, IsTrue};
ghost use Rattle.zvt_journal.specs.Device.{Only, LeavesOnly};
ghost use Rattle.zvt_journal.specs.Files.{GoOn, GoesOn, IsKnown, IsKnownAsBefore, IsRepairable, IsRepairableAsBefore};
ghost use Rattle.zvt_journal.specs.Opening.{NoneIsRefused};
ghost use Rattle.zvt_journal.specs.Text.{whole, begins_marked, recovered, IsRecord, IsSettled, IsWithOrWithout};
ghost use Rattle.zvt_journal.specs.Text.{IsAsBefore, joined, HasFirst, LinesAreRecovered, RecoveredIsLines};

use crate::durable::{cut_synced, set_synced, write_synced};
use crate::{Device, DeviceError, NoSpace};
use std::alloc::{AllocError, Global};

pub(crate) const LINE_FEED: u8 = b'\n';

/// The file size from which on a journal accepts no record, in bytes.
const MAX_JOURNAL_LEN: usize = 1 << 60;

/// Maximum size of a record in bytes. After the complete lines of a file, a crash leaves at most one byte more than
/// this.
pub const MAX_RECORD_LEN: usize = 1 << 18;

/// An open journal over its device. [`open`] returns the position of its gate.
#[derive(Drop)]
pub struct Journal<D: Device> {
    pub alloc: Global,
    pub device: D,
    /// The position of the closed gate, which is the size of the records in bytes.
    pub gate: usize,
}

impl<D: Device> Journal<D> {
    /// Reserves disk space, so that the next record and the records that follow from it do not find the disk full. The
    /// file does not change.
    ///
    /// Fails only if the disk does not have the space. The journal can still be used then.
    pub fn reserve(&mut self) -> Result<(), NoSpace>
        requires { IsSettled (D.seen self.old.device) (D.may_leave self.old.device) self.old.gate }

        ensures room { OnOk result (D.has_capacity self.new.device ≡ true) }
        ensures seen { D.seen self.new.device ≡ D.seen self.old.device }
        ensures settled { IsSettled (D.seen self.new.device) (D.may_leave self.new.device) self.new.gate }
        ensures any_moment { LeavesOnly D.moment D.left_since self.old.device self.new.device
            (λ file. file ≡ D.seen self.old.device) }
        ensures cause { OnErr result (D.faults self.old.device < D.faults self.new.device) }
        ensures faults { D.faults self.old.device ≤ D.faults self.new.device }
        ensures gate { self.new.gate ≡ self.old.gate }
    {
        self.device.reserve()
    }

    /// Appends a record, consisting of complete lines, and makes it durable. Disk space has to be reserved for a record
    /// that begins with `#`, like an order's: see [`reserve`](Journal::reserve).
    ///
    /// After `Ok`, every later crash leaves a file that contains the record. After `Err`, the file contains the
    /// earlier records, with or without the new one. `Full` and `Memory` write nothing. After `Failed`, do not use
    /// this journal again.
    pub fn append(&mut self, entry: &[u8]) -> Result<(), DeviceError>
        requires settled { IsSettled (D.seen self.old.device) (D.may_leave self.old.device) self.old.gate }
        requires entry { IsRecord entry.now }
        requires room { get_or entry.now 0 0 ≡ 35 → D.has_capacity self.old.device ≡ true }

        ensures settled { OnOk result (IsSettled (D.seen self.new.device) (D.may_leave self.new.device) self.new.gate) }
        ensures acknowledged { OnOk result (recovered (D.seen self.new.device) ≡ recovered (D.seen self.old.device) ++
            entry.now) }
        ensures longest { OnOk result (length entry.now ≤ 2 ^ 18) }

        // A crash at any moment of the call leaves the earlier text, with or without the record.
        ensures any_moment { LeavesOnly D.moment D.left_since self.old.device self.new.device
            (IsWithOrWithout (recovered (D.seen self.old.device)) entry.now) }

        // Opening repairs that file: its complete lines are followed by at most a record and one byte, and no line.
        ensures repairable { LeavesOnly D.moment D.left_since self.old.device self.new.device IsRepairable }

        // Opening accepts it as a journal's file, if the record follows others or is the opening of a new one.
        ensures known { GoesOn (recovered (D.seen self.old.device)) entry.now → LeavesOnly D.moment D.left_since
            self.old.device self.new.device IsKnown }

        // It fails only for one of these causes.
        ensures failed { IsErrOf result DeviceError.Failed → D.faults self.old.device < D.faults self.new.device }
        ensures full { IsErrOf result DeviceError.Full → (2 ^ 60 ≤ self.old.gate) ⊎ (2 ^ 18 < length entry.now) }
        ensures faults { D.faults self.old.device ≤ D.faults self.new.device }
        ensures gate { OnErr result (self.new.gate ≡ self.old.gate) }
    {
        if self.gate >= MAX_JOURNAL_LEN || entry.len() > MAX_RECORD_LEN {
            return Err(DeviceError::Full);
        }
        let following = after_gate(self.alloc, entry)?;
        write_synced(&mut self.device, self.gate + 1, &following)?;
        set_synced(&mut self.device, self.gate, entry[0])?;
        self.gate += entry.len();
        Ok(())
    }

    /// Appends records one after another, in the order given. After `Err`, the file contains the first of them, and
    /// none of the others.
    pub fn append_all(&mut self, entries: &[Vec<u8>]) -> Result<(), DeviceError>
        requires settled { IsSettled (D.seen self.old.device) (D.may_leave self.old.device) self.old.gate }
        requires entries { All (λ entry. IsRecord entry.items) entries.now }

        ensures settled { OnOk result (IsSettled (D.seen self.new.device) (D.may_leave self.new.device) self.new.gate) }
        ensures acknowledged { OnOk result (recovered (D.seen self.new.device) ≡ recovered (D.seen self.old.device) ++
            joined entries.now) }

        // A crash at any moment leaves the earlier text and a prefix of the records, each of them complete.
        ensures any_moment { LeavesOnly D.moment D.left_since self.old.device self.new.device
            (HasFirst (recovered (D.seen self.old.device)) entries.now) }
        ensures repairable { LeavesOnly D.moment D.left_since self.old.device self.new.device IsRepairable }
        ensures known { GoOn (recovered (D.seen self.old.device)) entries.now → LeavesOnly D.moment D.left_since
            self.old.device self.new.device IsKnown }

        ensures failed { IsErrOf result DeviceError.Failed → D.faults self.old.device < D.faults self.new.device }
        ensures full { IsErrOf result DeviceError.Full → (2 ^ 60 ≤ self.new.gate)
            ⊎ (All (λ entry. length entry.items ≤ 2 ^ 18) entries.now → ⊥) }
        ensures faults { D.faults self.old.device ≤ D.faults self.new.device }
    {
        for entry in entries {
            self.reserve()?;
            self.append(entry)?;
        }
        Ok(())
    }
}

/// Returns the bytes to write after the closed gate: the record without its first byte, and the next closed gate.
fn after_gate(alloc: Global, entry: &[u8]) -> Result<Vec<u8>, AllocError>
    requires { 0 < length entry.now }
    ensures { IfOk result (λ following. following.items ≡ drop 1 entry.now ++ 10 ∷ []) }
{
    let mut following = entry[1..].to_vec(alloc)?;
    following.push(LINE_FEED)?;
    Ok(following)
}

/// Returns the complete records of a journal file, and repairs whatever a crash left behind them.
///
/// Pass the whole content of the file as `bytes`. The file is synced first, because data that can be read after a
/// process was killed is not necessarily durable yet. An empty file is a valid, empty journal. A file at rest is not
/// written.
pub fn open<D: Device>(device: &mut D, mut bytes: Vec<u8>) -> Result<Vec<u8>, DeviceError>
    requires bytes { bytes.items ≡ D.seen device.old }

    ensures text { IfOk result (λ text. text.items ≡ recovered (D.seen device.old)) }
    ensures settled { IfOk result (λ text. IsSettled (D.seen device.new) (D.may_leave device.new) (length text.items)) }
    ensures kept { OnOk result (recovered (D.seen device.new) ≡ recovered (D.seen device.old)) }

    // A crash at any moment leaves the same text, or a file that it might have left before the call.
    ensures any_moment { LeavesOnly D.moment D.left_since device.old device.new
        (IsAsBefore (D.may_leave device.old) (recovered (D.seen device.old))) }

    // It leaves no file that opening refuses, if it was given none.
    ensures repairable { IsRepairable (D.seen device.old) → LeavesOnly D.moment D.left_since device.old device.new
        (IsRepairableAsBefore (D.may_leave device.old)) }
    ensures known { IsKnown (D.seen device.old) → LeavesOnly D.moment D.left_since device.old device.new
        (IsKnownAsBefore (D.may_leave device.old)) }

    ensures failed { IsErrOf result DeviceError.Failed → D.faults device.old < D.faults device.new }
    ensures full { IsErrOf result DeviceError.Full → ⊥ }
{
    device.sync()?;
    let end = whole_lines(&bytes);
    if is_gate_alone(&bytes[end..]) {
        bytes.truncate(end);
        return Ok(bytes);
    }
    // The cut is on the disk before a gate is written; otherwise the old bytes would count after a torn gate.
    cut_synced(device, end)?;
    write_synced(device, end, &[LINE_FEED])?;
    bytes.truncate(end);
    Ok(bytes)
}

/// Returns whether these bytes are a closed gate and nothing more.
fn is_gate_alone(rest: &[u8]) -> bool
    ensures { IsTrue result ↔ (rest.now ≡ 10 ∷ []) }
{
    matches!(rest, [LINE_FEED])
}

/// Returns whether a journal accepts this text as a record: it is at least one line, all lines are complete and none is
/// empty, and the text without its first byte does not begin like a record.
#[tactic(auto, using(crate::proofs::Meaning::record_if, crate::proofs::Meaning::record_whole))]
pub fn is_record(text: &[u8]) -> bool
    ensures { IsTrue result ↔ IsRecord text.now }
{
    !text.is_empty() && !begins_marked(&text[1..]) && whole_lines(text) == text.len()
}

/// Law: recovery returns exactly the lines before a closed gate, whatever follows it. Every file stands for such lines,
/// and recovering them again changes nothing.
pub fn lines_are_recovered()
    ensures lines { LinesAreRecovered }
    ensures converse { RecoveredIsLines }
    ensures again { (file : List ℕ) → recovered (recovered file) ≡ recovered file }
{}

/// Law: no crash during an append, several appends, or [`open`] leaves a file that opening refuses. By the clauses
/// `known` and `repairable` of these calls, a file that a crash leaves is known and repairable.
pub fn no_crash_is_refused()
    ensures { NoneIsRefused }
{}

/// Returns whether the text begins like a line of a till's record.
pub(crate) fn begins_marked(text: &[u8]) -> bool
    ensures { result ≡ begins_marked text.now }
{
    matches!(text.first(), Some(&(b'!' | b'#' | b'<' | b'>')))
}

/// Returns the number of bytes in the complete lines before the first empty line.
pub(crate) fn whole_lines(bytes: &[u8]) -> usize
    ensures whole { result ≡ whole 0 bytes.now }
    ensures within { result ≤ length bytes.now }
{
    let mut end = 0;
    for (at, byte) in bytes.iter().enumerate() {
        if *byte == LINE_FEED {
            if at == end {
                return end;
            }
            end = at + 1;
        }
    }
    end
}
