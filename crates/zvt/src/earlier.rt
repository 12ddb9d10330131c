//! The earlier books of a service.

use crate::book::{recovered_from, unread, unrecovered};
use crate::exit::Exit;
use crate::one_file::report_earlier;
use zvt_journal::read_book;
use zvt_kept::Recovered;
use zvt_tool::statuses::WORDS;

/// Reads the earlier books of a service, each once. Reports the first file that is the book of the service, or that
/// cannot be read as a book, and returns the exit status then.
pub fn earlier_books(rt: &HostRuntime, book: &str, paths: &[&str]) -> Result<Vec<Recovered>, Exit> {
    let mut books = Vec::new(rt.alloc());
    for path in paths {
        if report_earlier(rt, book, path)? {
            return Err(Exit::Status(WORDS));
        }
        books.push(earlier_book(rt, path)?)?;
    }
    Ok(books)
}

/// Restores the till of the book in this file, and its orders.
fn earlier_book(rt: &HostRuntime, path: &str) -> Result<Recovered, Exit> {
    let text = match read_book(rt, rt.alloc(), path).answer {
        Ok(text) => text,
        Err(error) => return Err(Exit::Status(unread(rt, path, &error)?)),
    };
    match recovered_from(rt, text.as_slice()) {
        Ok(recovered) => Ok(recovered),
        Err(error) => Err(Exit::Status(unrecovered(rt, path, error)?)),
    }
}
