//! Finds out whether two names refer to the same file.
use crate::reports::{report, report_on};
use std::fs::{self, Metadata};
use std::io;
use std::os::unix::fs::MetadataExt;
use std::path::Path;

/// What is reported of a book and a trace in one file.
const BOOK_AND_TRACE: &str =
    "'--book' and '--trace' name the same file: a book holds nothing but the till's records, so \
name another file for the trace";

/// What is reported of a book that is also named as an earlier one.
const BOOK_AND_EARLIER: &str =
    "'--book' and '--earlier' both name this file: leave it out after '--earlier', or name another file for the book";

/// Returns whether the book of a service would be the earlier book at this path, and reports it. Opens nothing.
pub fn report_earlier(rt: &HostRuntime, book: &str, earlier: &str) -> io::Result<bool> {
    let is_one = is_one_file(rt, book, earlier);
    if is_one {
        report_on(rt, earlier, BOOK_AND_EARLIER)?;
    }
    Ok(is_one)
}

/// Returns whether the book and the trace would be the same file, and reports it. Opens nothing.
pub fn report_one_file(
    rt: &HostRuntime,
    book: Option<&str>,
    trace: Option<&str>,
) -> io::Result<bool> {
    let (Some(book), Some(trace)) = (book, trace) else {
        return Ok(false);
    };
    let is_one = is_one_file(rt, book, trace);
    if is_one {
        report(rt, BOOK_AND_TRACE)?;
    }
    Ok(is_one)
}

/// Whether both names refer to one file, or would once it exists.
fn is_one_file(rt: &HostRuntime, one: &str, other: &str) -> bool {
    match (fs::metadata(rt, one), fs::metadata(rt, other)) {
        (Ok(one), Ok(other)) => is_one(&one, &other),
        (Err(_), Err(_)) => is_one_place(rt, Path::new(one), Path::new(other)),
        _ => false,
    }
}

/// Whether both names are the same one in the same folder.
fn is_one_place(rt: &HostRuntime, one: Path<'_>, other: Path<'_>) -> bool {
    if one.file_name() != other.file_name() {
        return false;
    }
    match (folder_of(rt, one), folder_of(rt, other)) {
        (Ok(one), Ok(other)) => is_one(&one, &other),
        _ => false,
    }
}

/// The folder that a file of this name is in.
fn folder_of(rt: &HostRuntime, path: Path<'_>) -> io::Result<Metadata> {
    match path.parent() {
        Some(folder) if !folder.as_str().is_empty() => fs::metadata(rt, folder),
        _ => fs::metadata(rt, "."),
    }
}

/// Whether both are of one file: its number on its device.
fn is_one(one: &Metadata, other: &Metadata) -> bool {
    one.dev() == other.dev() && one.ino() == other.ino()
}
