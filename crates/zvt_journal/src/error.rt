//! Why a journal's file is not opened.
ghost use Rattle.std.specs.Prelude.{◌≡◌};
ghost use Rattle.zvt_journal.specs.declared.error.JournalFileError.TheVariants.{Io, Memory};

use std::alloc::AllocError;
use std::io;
use thiserror::Error;

/// Why a journal's file was not opened. Nothing was written to it, except that `Io` and `Memory` can occur at any
/// moment.
///
/// The messages do not name the file; the program puts its name in front.
#[derive(Debug, Drop, Error)]
pub enum JournalFileError {
    /// Another process has the file open as its journal.
    #[error("another till is using this book: stop it first, or name another file")]
    InUse,
    /// When the file was locked, its name belonged to another file, or its bytes had changed.
    #[error("this file was moved, replaced or changed while it was opened: open it again")]
    Displaced,
    /// The name belongs to a directory.
    #[error("this is a directory: name a file")]
    Folder,
    /// The name belongs to something that is not a regular file.
    #[error("not a regular file: name a regular file, or one that does not exist yet")]
    NotAFile,
    /// The file is not a journal: its first line does not begin with the name of the format.
    #[error("not a till's book (left unchanged): name a book, or a file that does not exist yet")]
    NotAJournal,
    /// Complete records follow the first empty line, which is this line. No crash leaves such a file: an editor
    /// inserted the empty line, or the disk lost the bytes in its place.
    #[error("line {line} is empty and {records} records follow it, which no crash leaves: delete that line to \
        restore them, or everything after it to give them up")]
    RecordsBehind { line: usize, records: usize },
    /// More bytes follow the first empty line than a crash can leave behind.
    #[error("{bytes} bytes follow the first empty line, more than a crash can leave: if an editor inserted \
        that line, delete it")]
    TooMuchAfter { bytes: usize },
    /// The bytes to be removed could not be saved in the file beside it, so they were not removed.
    #[error("cannot save the incomplete record to the file of the same name plus '.cut', so it was not removed: {0}")]
    CutNotKept(io::Error),
    /// The name of the file cannot be made durable, because its directory cannot be opened or synced. No file was
    /// created.
    #[error("cannot make the name of this file durable: its directory has to be readable, and on a disk that can \
        sync directories: {0}")]
    FolderNotSynced(io::Error),
    /// The file could not be opened, read, written or made durable.
    #[error("cannot open, read or write this file: {0}")]
    Io(io::Error),
    /// An allocation failed.
    #[error("out of memory")]
    Memory,
}

impl From<io::Error> for JournalFileError {
    ghost from_gives = { λ given error. error ≡ Io given };

    fn from(error: io::Error) -> JournalFileError {
        JournalFileError::Io(error)
    }
}

impl From<AllocError> for JournalFileError {
    ghost from_gives = { λ _ error. error ≡ Memory };

    fn from(_refused: AllocError) -> JournalFileError {
        JournalFileError::Memory
    }
}
