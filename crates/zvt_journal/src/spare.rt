//! Disk space reserved for a journal: bytes in a nameless file in the same folder, which are free again once the
//! process has ended, however it ends.
ghost use Rattle.std.specs.Prelude.{◌≡◌, IfOk, IsNone, IsSome};

use crate::descriptor::{nameless, sync_data, write_all_at};
use std::alloc::{AllocError, Global};
use std::io;
use std::os::fd::OwnedFd;

/// Number of reserved bytes, more than the records of a payment take.
const SPARE_LEN: usize = 1 << 16;

/// Number of bytes written at once.
const PIECE: usize = 1 << 12;

/// Suffix of the file's temporary name, after the journal's name. The system replaces the last six letters.
const SUFFIX: [u8; 13] = *b".spare.XXXXXX";

/// Disk space that may be reserved beside a file.
#[derive(Drop)]
pub(crate) struct Spare {
    /// The path of the journal.
    path: Vec<u8>,
    held: Option<OwnedFd>,
}

impl Spare {
    /// Creates a reservation beside the file of this name that holds no space yet.
    pub(crate) fn none(alloc: Global, path: &[u8]) -> Result<Spare, AllocError>
        ensures { IfOk result (λ spare. IsNone spare.held) }
    {
        let mut path = path.to_vec(alloc)?;
        // This avoids an allocation later.
        path.reserve(SUFFIX.len())?;
        Ok(Spare { path, held: None })
    }

    /// Returns the path of the file.
    pub(crate) fn path(&self) -> &[u8] {
        &self.path
    }

    /// Reserves the space, unless it is reserved already.
    pub(crate) fn hold(&mut self) -> io::Result<()>
        ensures { IfOk result (λ _. IsSome self.new.held) }
    {
        if self.held.is_some() {
            return Ok(());
        }
        let len = self.path.len();
        self.path.extend_from_slice(&SUFFIX)?;
        let file = nameless(&mut self.path);
        self.path.truncate(len);
        let file = file?;
        fill(&file)?;
        self.held = Some(file);
        Ok(())
    }

    /// Releases the space, and returns whether there was any.
    pub(crate) fn give_back(&mut self) -> bool
        ensures held { IsNone self.new.held }
    {
        let was_held = self.held.is_some();
        self.held = None;
        was_held
    }
}

/// Writes bytes that no file system can compress, and makes them durable, so that the space is really taken.
fn fill(file: &OwnedFd) -> io::Result<()> {
    let mut piece = [0; PIECE];
    let mut noise: u32 = 1;
    for at in 0..PIECE {
        noise = noise.wrapping_mul(1_664_525).wrapping_add(1_013_904_223);
        piece[at] = (noise >> 24) as u8;
    }
    for turn in 0..SPARE_LEN / PIECE {
        write_all_at(file, turn * PIECE, &piece)?;
    }
    sync_data(file)
}
