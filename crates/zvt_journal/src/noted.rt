//! The system calls on a journal's file, each noted in a record that only contracts see.
//!
//! It is trusted that each function makes the call that it notes, and that a read returns what the file contains.
//! Everything else about a journal's file is proved from these notes.
ghost use Rattle.std.specs.Prelude.{◌≡◌, [], ◌∷◌, is_ok, true, false, IfErr, IfOk, IsErr, IsSome, MatchResult};
ghost use Rattle.zvt_journal.specs.Opening.{IsOfCall, IsLocked, IsOfFolder, WhyRefused, found_by};

use crate::JournalFileError;
use crate::call::{Call, Step};
use crate::calls::GhostCalls;
use crate::descriptor::{
    self, append_synced, durable_bytes, opened, read_all, set_len, sync_data, write_all_at,
};
use crate::file::FileFailure;
use crate::spare::Spare;
use std::alloc::Global;
use std::io::ErrorKind;
use std::os::fd::OwnedFd;
use std::{fs, io};

/// The permissions of a new file: only its owner may read and write it.
const OWNER_ALONE: u32 = 0o600;

/// An open file, or why an earlier call on it failed.
pub(crate) type Usable<'a> = Result<&'a OwnedFd, FileFailure>;

/// Notes a call with its bytes, and whether it succeeded.
fn note(calls: &mut GhostCalls, call: Call, bytes: &[u8], done: bool)
    ensures start { calls.new.start ≡ calls.old.start }
    ensures made { calls.new.made ≡ (call, bytes.now, done) ∷ calls.old.made }
{
    *calls = calls.with(&call, bytes, done);
}

/// Opens or creates the file, and returns whether it was created. Creates none if its name cannot be made durable.
pub(crate) fn open_or_make(
    calls: &mut GhostCalls,
    path: &[u8],
) -> Result<(OwnedFd, bool), JournalFileError>
    ensures { MatchResult result
        (λ found. calls.new.made ≡ (Call.Aside (found_by found.1), path.now, true) ∷ calls.old.made)
        (λ error. WhyRefused error calls.new.made) }
{
    match opened(path, libc::O_RDWR, 0) {
        Ok(file) => {
            note(calls, Call::Aside(Step::Found), path, true);
            Ok((file, false))
        }
        Err(error) if error.kind() == ErrorKind::NotFound => make(calls, path),
        Err(error) => {
            note(calls, Call::Aside(Step::Found), &[], false);
            Err(why_no_file(error))
        }
    }
}

/// Creates the file after syncing its directory.
fn make(calls: &mut GhostCalls, path: &[u8]) -> Result<(OwnedFd, bool), JournalFileError>
    ensures { MatchResult result
        (λ found. calls.new.made ≡ (Call.Aside (found_by found.1), path.now, true) ∷ calls.old.made)
        (λ error. WhyRefused error calls.new.made) }
{
    if let Err(error) = descriptor::sync_folder_of(path) {
        note(calls, Call::Aside(Step::FolderSynced), &[], false);
        return Err(why_no_name(error));
    }
    let answer = opened(
        path,
        libc::O_RDWR | libc::O_CREAT | libc::O_EXCL,
        OWNER_ALONE,
    );
    note(calls, Call::Aside(Step::Made), path, answer.is_ok());
    match answer {
        Ok(file) => Ok((file, true)),
        Err(error) if error.kind() == ErrorKind::AlreadyExists => Err(JournalFileError::Displaced),
        Err(error) => Err(JournalFileError::Io(error)),
    }
}

/// Returns why the name of a file cannot be made durable: its directory does not exist, or cannot be read or synced.
fn why_no_name(error: io::Error) -> JournalFileError
    ensures { IsOfFolder result }
{
    match error.kind() {
        ErrorKind::NotFound => JournalFileError::Io(error),
        _ => JournalFileError::FolderNotSynced(error),
    }
}

/// Returns the error for something that is not a regular file. It can be opened, but its first sync fails: Linux
/// returns EINVAL.
pub(crate) fn why_no_file(error: io::Error) -> JournalFileError
    ensures { IsOfCall result }
{
    match error.raw_os_error() {
        Some(libc::EISDIR) => JournalFileError::Folder,
        Some(libc::EINVAL) => JournalFileError::NotAFile,
        _ => JournalFileError::Io(error),
    }
}

/// Checks that a regular file of this name exists, because opening a FIFO for reading waits for a writer.
pub(crate) fn find(
    calls: &mut GhostCalls,
    rt: &HostRuntime,
    path: &str,
) -> Result<(), JournalFileError>
    ensures made { calls.new.made ≡ (Call.Aside Step.Found, path.now, is_ok result) ∷ calls.old.made }
    ensures error { IfErr result IsOfCall }
{
    let answer = only_regular(rt, path);
    note(
        calls,
        Call::Aside(Step::Found),
        path.as_bytes(),
        answer.is_ok(),
    );
    answer
}

/// Refuses anything that is not a regular file.
fn only_regular(rt: &HostRuntime, path: &str) -> Result<(), JournalFileError>
    ensures { IfErr result IsOfCall }
{
    let found = match fs::metadata(rt, path) {
        Ok(found) => found,
        Err(error) => return Err(JournalFileError::Io(error)),
    };
    if found.is_dir() {
        return Err(JournalFileError::Folder);
    }
    if !found.is_file() {
        return Err(JournalFileError::NotAFile);
    }
    Ok(())
}

/// Tries to lock the file. The lock is released with the file's last descriptor. Returns whether it was free.
pub(crate) fn try_lock(calls: &mut GhostCalls, file: &OwnedFd) -> io::Result<bool>
    ensures { MatchResult result
        (λ free. calls.new.made ≡ (Call.Aside Step.Locked, [], free) ∷ calls.old.made)
        (λ _. calls.new.made ≡ (Call.Aside Step.Locked, [], false) ∷ calls.old.made) }
{
    let answer = descriptor::try_lock(file);
    note(
        calls,
        Call::Aside(Step::Locked),
        &[],
        matches!(answer, Ok(true)),
    );
    answer
}

/// Returns the bytes of the file, which is locked. They are durable.
pub(crate) fn read(calls: &mut GhostCalls, alloc: Global, file: &OwnedFd) -> io::Result<Vec<u8>>
    requires { IsLocked calls.old.made }
    ensures { MatchResult result
        (λ bytes. calls.new.made ≡ (Call.Aside Step.Read, bytes.items, true) ∷ calls.old.made)
        (λ _. calls.new.made ≡ (Call.Aside Step.Read, [], false) ∷ calls.old.made) }
{
    let answer = durable_bytes(alloc, file);
    match &answer {
        Ok(bytes) => note(calls, Call::Aside(Step::Read), bytes, true),
        Err(_) => note(calls, Call::Aside(Step::Read), &[], false),
    }
    answer
}

/// Returns the bytes that the file of this name contains at the moment.
pub(crate) fn peek(calls: &mut GhostCalls, alloc: Global, path: &[u8]) -> io::Result<Vec<u8>>
    ensures { MatchResult result
        (λ bytes. calls.new.made ≡ (Call.Aside Step.Peeked, bytes.items, true) ∷ calls.old.made)
        (λ _. calls.new.made ≡ (Call.Aside Step.Peeked, [], false) ∷ calls.old.made) }
{
    let answer = bytes_of(alloc, path);
    match &answer {
        Ok(bytes) => note(calls, Call::Aside(Step::Peeked), bytes, true),
        Err(_) => note(calls, Call::Aside(Step::Peeked), &[], false),
    }
    answer
}

/// Returns the bytes of the file of this name.
fn bytes_of(alloc: Global, path: &[u8]) -> io::Result<Vec<u8>> {
    let file = opened(path, libc::O_RDONLY, 0)?;
    let mut bytes = Vec::new(alloc);
    read_all(&file, &mut bytes)?;
    Ok(bytes)
}

/// Returns whether the file of this name is the one that the caller has locked, and has this many bytes.
pub(crate) fn is_in_place(calls: &mut GhostCalls, path: &[u8], size: usize) -> io::Result<bool>
    ensures { MatchResult result
        (λ is. calls.new.made ≡ (Call.Aside Step.InPlace, path.now, is) ∷ calls.old.made)
        (λ _. calls.new.made ≡ (Call.Aside Step.InPlace, path.now, false) ∷ calls.old.made) }
{
    let answer = descriptor::is_in_place(path, size);
    note(
        calls,
        Call::Aside(Step::InPlace),
        path,
        matches!(answer, Ok(true)),
    );
    answer
}

/// Appends these bytes to the file of this name plus `.cut`, and makes them durable there.
pub(crate) fn keep_beside(
    calls: &mut GhostCalls,
    alloc: Global,
    path: &[u8],
    bytes: &[u8],
) -> io::Result<()>
    ensures { calls.new.made ≡ (Call.Aside Step.KeptBeside, bytes.now, is_ok result) ∷
        (Call.Aside Step.Beside, path.now, is_ok result) ∷ calls.old.made }
{
    let answer = append_beside(alloc, path, bytes);
    note(calls, Call::Aside(Step::Beside), path, answer.is_ok());
    note(calls, Call::Aside(Step::KeptBeside), bytes, answer.is_ok());
    answer
}

/// Appends the bytes to the file of this name plus `.cut`.
fn append_beside(alloc: Global, path: &[u8], bytes: &[u8]) -> io::Result<()> {
    let mut name = path.to_vec(alloc)?;
    name.extend_from_slice(b".cut")?;
    append_synced(&name, bytes)
}

/// Makes the name of the file durable.
pub(crate) fn sync_folder(calls: &mut GhostCalls, path: &[u8]) -> Result<(), JournalFileError>
    ensures { MatchResult result
        (λ _. calls.new.made ≡ (Call.Aside Step.FolderSynced, path.now, true) ∷ calls.old.made)
        (λ error. WhyRefused error calls.new.made) }
{
    let answer = descriptor::sync_folder(path);
    note(calls, Call::Aside(Step::FolderSynced), path, answer.is_ok());
    answer.map_err(why_no_name)
}

/// Reserves disk space for the next writes.
pub(crate) fn reserve(
    calls: &mut GhostCalls,
    file: Usable<'_>,
    spare: &mut Spare,
) -> Result<(), FileFailure>
    ensures start { calls.new.start ≡ calls.old.start }
    ensures made { calls.new.made ≡ (Call.Aside Step.Reserved, [], is_ok result) ∷ calls.old.made }
    ensures unmade { IsErr file.entry → IsErr result }
    ensures room { IfOk result (λ _. IsSome spare.new.held) }
{
    let answer = match file {
        Ok(_) => spare.hold().map_err(FileFailure::Unreserved),
        Err(failure) => Err(failure),
    };
    note(calls, Call::Aside(Step::Reserved), &[], answer.is_ok());
    answer
}

/// Writes these bytes at the end of the file, which is at this index, if the name still belongs to that file. If the
/// disk is full, releases the reserved space.
pub(crate) fn write_at_end(
    calls: &mut GhostCalls,
    file: Usable<'_>,
    spare: &mut Spare,
    at: usize,
    bytes: &[u8],
) -> Result<(), FileFailure>
    ensures start { calls.new.start ≡ calls.old.start }
    ensures made { calls.new.made ≡ (Call.Wrote at, bytes.now, is_ok result) ∷ calls.old.made }
    ensures unmade { IsErr file.entry → IsErr result }
{
    let answer = written(file, spare, at, bytes);
    note(calls, Call::Wrote(at), bytes, answer.is_ok());
    answer
}

/// Checks that the file is in its place, and writes at its end.
fn written(file: Usable<'_>, spare: &mut Spare, at: usize, bytes: &[u8]) -> Result<(), FileFailure>
    ensures { IsErr file.entry → IsErr result }
{
    let file = file?;
    if !descriptor::is_in_place(spare.path(), at)? {
        return Err(FileFailure::Displaced);
    }
    let answer = write_with(file, spare, at, bytes);
    if answer.is_err() {
        // Removes the bytes that were written, so that opening has nothing to save on a full disk. This may fail:
        // nothing relies on it.
        let _ = set_len(file, at);
    }
    answer
}

/// Writes bytes. If the disk is full, releases the reserved space and writes them once more.
fn write_with(
    file: &OwnedFd,
    spare: &mut Spare,
    at: usize,
    bytes: &[u8],
) -> Result<(), FileFailure> {
    match write_all_at(file, at, bytes) {
        Err(error) if is_full(&error) && spare.give_back() => {
            write_all_at(file, at, bytes).map_err(FileFailure::Io)
        }
        answer => answer.map_err(FileFailure::Io),
    }
}

/// Returns whether the disk, or the user's share of it, is full.
fn is_full(error: &io::Error) -> bool {
    matches!(
        error.kind(),
        ErrorKind::StorageFull | ErrorKind::QuotaExceeded
    )
}

/// Overwrites one byte. If the disk is full, releases the reserved space.
pub(crate) fn set(
    calls: &mut GhostCalls,
    file: Usable<'_>,
    spare: &mut Spare,
    at: usize,
    byte: u8,
) -> Result<(), FileFailure>
    ensures start { calls.new.start ≡ calls.old.start }
    ensures made { calls.new.made ≡ (Call.SetByte at byte, [], is_ok result) ∷ calls.old.made }
    ensures unmade { IsErr file.entry → IsErr result }
{
    let answer = match file {
        Ok(file) => write_with(file, spare, at, &[byte]),
        Err(failure) => Err(failure),
    };
    note(calls, Call::SetByte(at, byte), &[], answer.is_ok());
    answer
}

/// Cuts the file to this length.
pub(crate) fn cut(calls: &mut GhostCalls, file: Usable<'_>, len: usize) -> Result<(), FileFailure>
    ensures start { calls.new.start ≡ calls.old.start }
    ensures made { calls.new.made ≡ (Call.CutTo len, [], is_ok result) ∷ calls.old.made }
    ensures unmade { IsErr file.entry → IsErr result }
{
    let answer = match file {
        Ok(file) => set_len(file, len).map_err(FileFailure::Io),
        Err(failure) => Err(failure),
    };
    note(calls, Call::CutTo(len), &[], answer.is_ok());
    answer
}

/// Makes the written bytes durable.
pub(crate) fn sync(calls: &mut GhostCalls, file: Usable<'_>) -> Result<(), FileFailure>
    ensures start { calls.new.start ≡ calls.old.start }
    ensures made { calls.new.made ≡ (Call.Synced, [], is_ok result) ∷ calls.old.made }
    ensures unmade { IsErr file.entry → IsErr result }
{
    let answer = match file {
        Ok(file) => sync_data(file).map_err(FileFailure::Io),
        Err(failure) => Err(failure),
    };
    note(calls, Call::Synced, &[], answer.is_ok());
    answer
}
