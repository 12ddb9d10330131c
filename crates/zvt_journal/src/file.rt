//! A file of the operating system as a device.
//!
//! No contract of `std` says what a file contains. Therefore the device notes each call and its result in a record that
//! only contracts see, and the bytes that a read returns or a crash may leave are derived from that record. It is
//! trusted that each noted call was made, that files follow the crash model of `Device`, and that nobody else writes
//! the file.
ghost use Rattle.std.specs.Prelude.{◌≡◌, ◌↔◌, [], ◌∷◌, length, is_err, is_ok, is_some};
ghost use Rattle.std.specs.Prelude.{IfErr, IfOk, IsOk, IsNone, IsSome, MatchResult, OnErr, OnOk, Some};
ghost use Rattle.zvt_journal.specs.Calls.{seen_after, may_leave_after, left_since_after, failed_among, counts_now};
ghost use Rattle.zvt_journal.specs.Calls.{only_now, SeenMayBeLeft};

use crate::call::{Call, Step};
use crate::calls::GhostCalls;
use crate::noted::{self, Usable};
use crate::spare::Spare;
use crate::{Device, DeviceError, NoSpace};
use std::io;
use std::os::fd::OwnedFd;

/// Why a call on a journal's file failed.
#[derive(Clone, Copy, Debug)]
pub enum FileFailure {
    /// The name belongs to another file than the open one, or the file no longer ends where it did.
    Displaced,
    /// No disk space could be reserved.
    Unreserved(io::Error),
    /// The operating system refused another call.
    Io(io::Error),
}

impl From<io::Error> for FileFailure {
    ghost use Rattle.zvt_journal.specs.declared.file.FileFailure.TheVariants.{Io};

    ghost from_gives = { λ given failure. failure ≡ Io given };

    fn from(error: io::Error) -> FileFailure {
        FileFailure::Io(error)
    }
}

/// A file of the operating system. After a call has failed, the device makes no further calls, and each returns
/// `Failed`. A failed reservation is the only exception.
///
/// A write fails if its name now belongs to another file, or if the file does not end where the bytes belong. A write
/// that finds the disk full uses the reserved space.
#[derive(Drop)]
pub struct FileDevice {
    file: OwnedFd,
    spare: Spare,
    failure: Option<FileFailure>,
    /// Why the last reservation failed, if it did.
    shortage: Option<FileFailure>,
    pub(crate) calls: GhostCalls,
}

impl FileDevice {
    /// Creates a device over a file with these bytes, all of them durable. Disk space can be reserved beside it.
    pub(crate) fn new(file: OwnedFd, spare: Spare, bytes: &[u8]) -> FileDevice
        ensures start { result.calls.start ≡ bytes.now }
        ensures made { result.calls.made ≡ [] }
    {
        FileDevice {
            file,
            spare,
            failure: None,
            shortage: None,
            calls: GhostCalls::none(bytes),
        }
    }

    /// Returns why the first failed call failed, apart from reservations. The device has made no calls since.
    pub fn failure(&self) -> Option<FileFailure>
        ensures { result ≡ self.now.failure }
    {
        self.failure
    }

    /// Returns why the last reservation of disk space failed, if it did.
    pub fn shortage(&self) -> Option<FileFailure>
        ensures { result ≡ self.now.shortage }
    {
        self.shortage
    }

    /// Reserves disk space. If there is none, the device can still make calls.
    fn hold(&mut self) -> Result<(), NoSpace>
        ensures start { self.new.calls.start ≡ self.old.calls.start }
        ensures made { self.new.calls.made ≡ (Call.Aside Step.Reserved, [], is_ok result) ∷ self.old.calls.made }
        ensures room { OnOk result (IsSome self.new.spare.held) }
        ensures usable { self.new.failure ≡ self.old.failure }
        ensures told { is_some self.new.shortage ≡ is_err result }
    {
        let file = usable(&self.file, self.failure);
        let answer = noted::reserve(&mut self.calls, file, &mut self.spare);
        self.shortage = answer.err();
        match answer {
            Ok(()) => Ok(()),
            Err(_) => Err(NoSpace),
        }
    }

    /// Remembers why a call failed.
    fn remember(&mut self, answer: Result<(), FileFailure>) -> Result<(), DeviceError>
        ensures calls { self.new.calls ≡ self.old.calls }
        ensures spare { self.new.spare ≡ self.old.spare }
        ensures answer { is_ok result ≡ is_ok answer }
        ensures error { IfErr result (λ error. error ≡ DeviceError.Failed) }
        ensures failure { MatchResult answer (λ _. self.new.failure ≡ self.old.failure)
            (λ failure. self.new.failure ≡ Some failure) }
    {
        match answer {
            Ok(()) => Ok(()),
            Err(failure) => {
                self.failure = Some(failure);
                Err(DeviceError::Failed)
            }
        }
    }
}

/// Returns the file, if no call has failed so far.
fn usable(file: &OwnedFd, failure: Option<FileFailure>) -> Usable<'_>
    ensures { IsOk result ↔ IsNone failure }
{
    match failure {
        Some(failure) => Err(failure),
        None => Ok(file),
    }
}

impl Device for FileDevice {
    ghost seen = { λ f. seen_after f.calls.start f.calls.made };

    ghost may_leave = { λ f. may_leave_after f.calls.start f.calls.made };

    ghost moment = { λ f. length f.calls.made };

    ghost left_since = { λ f. left_since_after f.calls.start f.calls.made };

    ghost faults = { λ f. failed_among f.calls.made };

    ghost has_capacity = { λ f. is_some f.spare.held };

    ghost counts_now = { λ f t file le now. counts_now f.calls.start f.calls.made t file le now };

    ghost only_now = { λ f file left. only_now f.calls.start f.calls.made file left };

    fn reserve(&mut self) -> Result<(), NoSpace> {
        self.hold()
    }

    fn write_at(&mut self, at: usize, bytes: &[u8]) -> Result<(), DeviceError> {
        let file = usable(&self.file, self.failure);
        let answer = noted::write_at_end(&mut self.calls, file, &mut self.spare, at, bytes);
        self.remember(answer)
    }

    fn set_byte(&mut self, at: usize, byte: u8) -> Result<(), DeviceError> {
        let file = usable(&self.file, self.failure);
        let answer = noted::set(&mut self.calls, file, &mut self.spare, at, byte);
        self.remember(answer)
    }

    fn cut(&mut self, len: usize) -> Result<(), DeviceError> {
        let answer = noted::cut(&mut self.calls, usable(&self.file, self.failure), len);
        self.remember(answer)
    }

    fn sync(&mut self) -> Result<(), DeviceError> {
        let answer = noted::sync(&mut self.calls, usable(&self.file, self.failure));
        self.remember(answer)
    }
}

/// Law: the content that a read returns is one of the contents that a crash may leave, whatever calls were made within
/// the file.
pub fn a_read_may_be_left()
    ensures { SeenMayBeLeft }
{}
