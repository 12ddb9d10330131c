//! Opens a journal's file: creates it if necessary, locks it, and recovers its records. No call that opens it takes the
//! runtime, because a library that programs in C link has none.
ghost use Rattle.std.specs.Prelude.{◌≡◌, ◌<◌, ◌≤◌, ◌++◌, [], length, IfErr, IfOk, MatchResult};
ghost use Rattle.zvt_journal.specs.Text.{recovered, whole, IsSettled};
ghost use Rattle.zvt_journal.specs.Files.{file_seen, file_may_leave};
ghost use Rattle.zvt_journal.specs.Calls.{failed_among};
ghost use Rattle.zvt_journal.specs.Opening.{IsAccepted, WhyRefused, WasOpened, WasPeeked, WasRead, kept_beside};

use crate::calls::GhostCalls;
use crate::content::{accepted_lines, to_cut};
use crate::file::FileFailure;
use crate::noted::{
    find, is_in_place, keep_beside, open_or_make, peek, read, sync_folder, try_lock, why_no_file,
};
use crate::spare::Spare;
use crate::{DeviceError, FileDevice, JournalFileError, open};
use std::alloc::Global;

/// A result, and the calls on a file that led to it. Only contracts see the calls: they take no memory.
#[derive(Drop)]
pub struct Noted<T> {
    pub answer: T,
    pub calls: GhostCalls,
}

/// An open journal file. Nobody else can open it as a journal while the device lives.
#[derive(Drop)]
pub struct Opened {
    pub device: FileDevice,
    /// The records that were recovered.
    pub text: Vec<u8>,
    /// The number of bytes that were cut after the closed gate. The file of this name plus `.cut` ends with them.
    pub cut: usize,
    /// Whether the file did not exist before.
    pub created: bool,
}

/// Opens a journal's file, creating it if necessary, and recovers its records.
///
/// The text is empty if the file was just created, or if a crash left it before its first record. Then the first
/// record is appended: one line, `# zvt journal 1, currency ` and a number of at most four digits, which
/// `, reversals by receipt` may follow.
pub fn open_file(alloc: Global, path: &[u8]) -> Noted<Result<Opened, JournalFileError>>
    ensures text { IfOk result.answer (λ opened. opened.text.items ≡ recovered (file_seen opened.device)) }
    ensures whole { IfOk result.answer (λ opened. recovered opened.text.items ≡ opened.text.items) }
    ensures settled { IfOk result.answer (λ opened. IsSettled (file_seen opened.device) (file_may_leave opened.device)
        (length opened.text.items)) }
    // The file was locked, made durable, read and checked again; bytes to be removed were saved before they were cut,
    // and the name was made durable. An error occurs only with its cause.
    ensures calls { MatchResult result.answer
        (λ opened. WasOpened path.now result.calls.made opened.text.items opened.cut opened.created)
        (λ error. WhyRefused error result.calls.made) }
{
    let mut calls = GhostCalls::none(&[]);
    let answer = opened_by(&mut calls, alloc, path);
    Noted { answer, calls }
}

/// Opens a journal's file, and notes the calls.
fn opened_by(calls: &mut GhostCalls, alloc: Global, path: &[u8]) -> Result<Opened, JournalFileError>
    requires { calls.old.made ≡ [] }
    ensures text { IfOk result (λ opened. opened.text.items ≡ recovered (file_seen opened.device)) }
    ensures settled { IfOk result (λ opened. IsSettled (file_seen opened.device) (file_may_leave opened.device)
        (length opened.text.items)) }
    ensures calls { MatchResult result
        (λ opened. WasOpened path.now calls.new.made opened.text.items opened.cut opened.created)
        (λ error. WhyRefused error calls.new.made) }
{
    let (file, created) = open_or_make(calls, path)?;
    if !try_lock(calls, &file)? {
        return Err(JournalFileError::InUse);
    }
    let bytes = read(calls, alloc, &file).map_err(why_no_file)?;
    if !is_in_place(calls, path, bytes.len())? {
        return Err(JournalFileError::Displaced);
    }
    let end = accepted(calls, &bytes)?;
    let cut = keep_cut(calls, alloc, path, to_cut(&bytes, end))?;
    sync_folder(calls, path)?;
    let mut device = FileDevice::new(file, Spare::none(alloc, path)?, &bytes);
    match open(&mut device, bytes) {
        Ok(text) => Ok(Opened {
            device,
            text,
            cut,
            created,
        }),
        Err(why) => {
            let error = refusal(why, &device);
            *calls = device.calls;
            Err(error)
        }
    }
}

/// Reads the records that a journal's file contains at this moment, for a program that only looks. Takes no lock and
/// writes nothing.
///
/// The text consists of complete lines, none of them empty. They need not be durable.
pub fn read_book(
    rt: &HostRuntime,
    alloc: Global,
    path: &str,
) -> Noted<Result<Vec<u8>, JournalFileError>>
    ensures whole { IfOk result.answer (λ text. recovered text.items ≡ text.items) }
    ensures calls { MatchResult result.answer
        (λ text. WasPeeked path.now result.calls.made text.items)
        (λ error. WhyRefused error result.calls.made) }
{
    let mut calls = GhostCalls::none(&[]);
    let answer = peeked_by(&mut calls, rt, alloc, path);
    Noted { answer, calls }
}

/// Reads a journal's file, and notes the calls.
fn peeked_by(
    calls: &mut GhostCalls,
    rt: &HostRuntime,
    alloc: Global,
    path: &str,
) -> Result<Vec<u8>, JournalFileError>
    requires { calls.old.made ≡ [] }
    ensures { MatchResult result
        (λ text. WasPeeked path.now calls.new.made text.items)
        (λ error. WhyRefused error calls.new.made) }
{
    find(calls, rt, path)?;
    let mut bytes = peek(calls, alloc, path.as_bytes())?;
    let end = accepted(calls, &bytes)?;
    bytes.truncate(end);
    Ok(bytes)
}

/// Returns the number of bytes in the complete lines before the first empty line, if a journal's file may contain the
/// bytes read.
fn accepted(calls: &GhostCalls, bytes: &[u8]) -> Result<usize, JournalFileError>
    requires { WasRead bytes.now calls.now.made }
    ensures whole { IfOk result (λ end. end ≡ whole 0 bytes.now) }
    ensures within { IfOk result (λ end. end ≤ length bytes.now) }
    ensures accepted { IfOk result (λ _. IsAccepted bytes.now) }
    ensures refused { IfErr result (λ error. WhyRefused error calls.now.made) }
{
    accepted_lines(bytes)
}

/// Appends the bytes that will be removed to the file of this name plus `.cut`, and returns their number.
fn keep_cut(
    calls: &mut GhostCalls,
    alloc: Global,
    path: &[u8],
    cut: &[u8],
) -> Result<usize, JournalFileError>
    ensures { MatchResult result
        (λ count. (count ≡ length cut.now) × (calls.new.made ≡ kept_beside path.now cut.now ++ calls.old.made))
        (λ error. WhyRefused error calls.new.made) }
{
    if !cut.is_empty() {
        keep_beside(calls, alloc, path, cut).map_err(JournalFileError::CutNotKept)?;
    }
    Ok(cut.len())
}

/// Returns why the device refused a call.
fn refusal(why: DeviceError, device: &FileDevice) -> JournalFileError
    requires { why ≡ DeviceError.Failed → 0 < failed_among device.now.calls.made }
    ensures { WhyRefused result device.now.calls.made }
{
    match (why, device.failure()) {
        (DeviceError::Failed, Some(FileFailure::Io(error) | FileFailure::Unreserved(error))) => {
            JournalFileError::Io(error)
        }
        (DeviceError::Failed, Some(FileFailure::Displaced)) => JournalFileError::Displaced,
        _ => JournalFileError::Memory,
    }
}
