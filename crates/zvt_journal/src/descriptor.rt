//! An open file by its descriptor, without the runtime, which a library linked into C programs does not have.
//!
//! Paths are bytes, as in Linux.
ghost use Rattle.std.specs.Prelude.{◌≤◌, length};

use os::FromRawFd;
use std::alloc::Global;
use std::io;
use std::os::fd::{AsRawFd, OwnedFd};

/// Maximum number of attempts of a call that a signal interrupted, or that took only some of its bytes.
const MAX_TURNS: u32 = 1 << 30;

/// Returns why the last call failed.
fn last_error() -> io::Error {
    io::Error::from_raw_os_error(os::errno())
}

/// Turns C's -1 into its error.
fn checked(status: i32) -> io::Result<()> {
    if status < 0 {
        Err(last_error())
    } else {
        Ok(())
    }
}

/// Opens a file with C's flags. Its descriptor is never 0, 1 or 2, so that text printed to a closed standard stream
/// cannot end up in the file.
pub(crate) fn opened(path: &[u8], flags: i32, mode: u32) -> io::Result<OwnedFd> {
    let number = os::open_with(path, libc::O_CLOEXEC | flags, mode);
    if number < 0 {
        return Err(last_error());
    }
    let file = unsafe { OwnedFd::from_raw_fd(number) };
    if number <= 2 {
        return file.try_clone();
    }
    Ok(file)
}

/// Creates a file without a name. While it is created, it has this path, with the six X at the end replaced.
pub(crate) fn nameless(path: &mut [u8]) -> io::Result<OwnedFd> {
    let number = os::create_temp(path);
    if number < 0 {
        return Err(last_error());
    }
    let file = unsafe { OwnedFd::from_raw_fd(number) };
    checked(os::unlink(path))?;
    if number <= 2 {
        return file.try_clone();
    }
    Ok(file)
}

/// Tries to lock the file. The lock is released with the file's last descriptor. Returns whether it was free.
pub(crate) fn try_lock(file: &OwnedFd) -> io::Result<bool> {
    if libc::flock(file.as_raw_fd(), libc::LOCK_EX | libc::LOCK_NB) == 0 {
        return Ok(true);
    }
    let error = last_error();
    if error.kind() == io::ErrorKind::WouldBlock {
        Ok(false)
    } else {
        Err(error)
    }
}

/// Returns whether the file of this name is locked and has this many bytes.
///
/// A lock belongs to an open file. If the lock of the file with this name is free, that file is not the one that the
/// caller has locked. If another till has locked it, the bytes differ.
pub(crate) fn is_in_place(path: &[u8], size: usize) -> io::Result<bool> {
    let named = match opened(path, libc::O_RDWR, 0) {
        Ok(named) => named,
        Err(error) if error.kind() == io::ErrorKind::NotFound => return Ok(false),
        Err(error) => return Err(error),
    };
    if try_lock(&named)? {
        return Ok(false);
    }
    let Ok(place) = i64::try_from(size.saturating_sub(1)) else {
        return Ok(false);
    };
    let mut last = [0; 2];
    let wanted = if size == 0 { 0 } else { 1 };
    Ok(libc::pread(named.as_raw_fd(), &mut last, place) == wanted)
}

/// Makes the whole file durable.
pub(crate) fn sync_all(file: &OwnedFd) -> io::Result<()> {
    checked(libc::fsync(file.as_raw_fd()))
}

/// Makes the written bytes durable.
pub(crate) fn sync_data(file: &OwnedFd) -> io::Result<()> {
    checked(libc::fdatasync(file.as_raw_fd()))
}

/// Cuts the file to this length.
pub(crate) fn set_len(file: &OwnedFd, len: usize) -> io::Result<()> {
    match i64::try_from(len) {
        Ok(len) => checked(libc::ftruncate(file.as_raw_fd(), len)),
        Err(_) => Err(io::Error::from_raw_os_error(libc::EINVAL)),
    }
}

/// Writes all of these bytes from this index on.
pub(crate) fn write_all_at(file: &OwnedFd, at: usize, bytes: &[u8]) -> io::Result<()> {
    let Ok(start) = i64::try_from(at) else {
        return Err(io::Error::from_raw_os_error(libc::EINVAL));
    };
    let mut done = 0;
    for _ in 0..MAX_TURNS {
        if done >= bytes.len() {
            return Ok(());
        }
        let place = start.wrapping_add_unsigned(done as u64);
        let put = libc::pwrite(file.as_raw_fd(), &bytes[done..], place);
        match usize::try_from(put) {
            Ok(0) => return Err(io::Error::from(io::ErrorKind::WriteZero)),
            Ok(put) => done = done.saturating_add(put),
            Err(_) => {
                let error = last_error();
                if error.kind() != io::ErrorKind::Interrupted {
                    return Err(error);
                }
            }
        }
    }
    Err(io::Error::from(io::ErrorKind::WriteZero))
}

/// Returns the bytes of the file after making them durable. Asks the kernel to read from the disk.
pub(crate) fn durable_bytes(alloc: Global, file: &OwnedFd) -> io::Result<Vec<u8>> {
    sync_all(file)?;
    let advised = libc::posix_fadvise(file.as_raw_fd(), 0, 0, libc::POSIX_FADV_DONTNEED);
    if advised != 0 {
        return Err(io::Error::from_raw_os_error(advised));
    }
    let mut bytes = Vec::new(alloc);
    read_all(file, &mut bytes)?;
    Ok(bytes)
}

/// Adds the bytes of the file.
pub(crate) fn read_all(file: &OwnedFd, buf: &mut Vec<u8>) -> io::Result<()> {
    let mut piece = [0; 4096];
    for _ in 0..MAX_TURNS {
        let got = libc::pread(file.as_raw_fd(), &mut piece, buf.len() as i64);
        match usize::try_from(got) {
            Ok(0) => return Ok(()),
            Ok(got) => buf.extend_from_slice(&piece[..got])?,
            Err(_) => {
                let error = last_error();
                if error.kind() != io::ErrorKind::Interrupted {
                    return Err(error);
                }
            }
        }
    }
    Err(io::Error::from_raw_os_error(libc::EFBIG))
}

/// Makes the name of a file durable.
pub(crate) fn sync_folder(path: &[u8]) -> io::Result<()> {
    let mut whole = [0; libc::PATH_MAX];
    checked(os::realpath(path, &mut whole))?;
    let size = os::name_length(&whole);
    sync_folder_of(&whole[..size])
}

/// Makes the names in the folder of this path durable.
pub(crate) fn sync_folder_of(path: &[u8]) -> io::Result<()> {
    let folder = match path.iter().rposition(|byte| *byte == b'/') {
        Some(0) => &path[..1],
        Some(at) => &path[..at],
        None => b".",
    };
    let number = os::open_read(folder);
    if number < 0 {
        return Err(last_error());
    }
    sync_all(&unsafe { OwnedFd::from_raw_fd(number) })
}

/// Appends these bytes to a file and makes them durable. Creates the file if it does not exist. The file is opened for
/// reading too, so that a FIFO of that name is an error instead of waiting for a reader.
pub(crate) fn append_synced(path: &[u8], bytes: &[u8]) -> io::Result<()> {
    let file = opened(path, libc::O_RDWR | libc::O_APPEND | libc::O_CREAT, 0o600)?;
    write_all_at(&file, 0, bytes)?;
    sync_all(&file)?;
    sync_folder(path)
}
