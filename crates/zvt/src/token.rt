//! The file with the token of a service's clients.

use crate::exit::Exit;
use crate::reports::{report_failed, report_on};
use std::fs::{self, File, OpenOptions};
use std::io::{self, ErrorKind, Read, Write};
use std::os::unix::fs::{OpenOptionsExt, PermissionsExt};
use zvt_tool::statuses::{DEVICE, WORDS};

/// The number of random bytes of a new token.
const RANDOM_LEN: usize = 32;

/// The file that random bytes come from.
const RANDOM: &str = "/dev/urandom";

/// The permission bits of all but the owner.
const OTHERS: u32 = 0o077;

/// The longest token that is read from a file.
const LONGEST: usize = 1024;

const TOO_OPEN: &str =
    "other users can read the token: run 'chmod 600' on the file, then start the service again";

const NO_TOKEN: &str = "the file has no token: delete it, and the service creates a new one";

/// Returns the token in this file. Creates the file with a new token if there is none. Reports why it can't, and returns
/// the exit status then.
pub fn token(rt: &HostRuntime, path: &str) -> Result<Vec<u8>, Exit> {
    match create(rt, path) {
        Ok(token) => Ok(token),
        Err(error) if error.kind() == ErrorKind::AlreadyExists => read(rt, path),
        Err(error) => {
            report_failed(rt, path, "cannot create the token file", &error)?;
            Err(Exit::Status(DEVICE))
        }
    }
}

/// Creates the file, which only its owner can read, and writes a new token.
fn create(rt: &HostRuntime, path: &str) -> io::Result<Vec<u8>> {
    let mut file = OpenOptions::new()
        .write(true)
        .create_new(true)
        .mode(0o600)
        .open(rt, path)?;
    let mut random = [0; RANDOM_LEN];
    File::open(rt, RANDOM)?.read_exact(&mut random)?;
    let digits = hex::encode(rt.alloc(), &random)?;
    file.write_all(digits.as_bytes())?;
    file.write_all(b"\n")?;
    file.sync_all()?;
    let mut token = Vec::new(rt.alloc());
    token.extend_from_slice(digits.as_bytes())?;
    Ok(token)
}

/// Reads the token, if only the owner of the file can.
fn read(rt: &HostRuntime, path: &str) -> Result<Vec<u8>, Exit> {
    let text = match closed_text(rt, path) {
        Ok(Some(text)) => text,
        Ok(None) => {
            report_on(rt, path, TOO_OPEN)?;
            return Err(Exit::Status(WORDS));
        }
        Err(error) => {
            report_failed(rt, path, "cannot read the token file", &error)?;
            return Err(Exit::Status(DEVICE));
        }
    };
    let token = text.trim_ascii();
    if token.is_empty() || token.len() > LONGEST {
        report_on(rt, path, NO_TOKEN)?;
        return Err(Exit::Status(WORDS));
    }
    let mut found = Vec::new(rt.alloc());
    found.extend_from_slice(token)?;
    Ok(found)
}

/// Returns the bytes of a file that only its owner can read, or `None` if others can read it too.
fn closed_text(rt: &HostRuntime, path: &str) -> io::Result<Option<Vec<u8>>> {
    if fs::metadata(rt, path)?.permissions().mode() & OTHERS != 0 {
        return Ok(None);
    }
    Ok(Some(fs::read(rt, path)?))
}
