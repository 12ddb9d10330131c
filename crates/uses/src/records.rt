//! Adds a record to a journal in memory, and opens the journal again as after a crash.

use std::alloc::Global;
use std::io;
use zvt_journal::{DeviceError, Journal, Memory, open};

/// Prints what a journal holds once a record was added.
pub fn print_records(rt: &HostRuntime, record: &[u8]) -> io::Result<()> {
    match kept(rt.alloc(), record) {
        Ok(bytes) => println!(rt; "records: {bytes} bytes recovered"),
        Err(fault) => println!(rt; "records: {fault}"),
    }
}

/// Adds the record to an empty journal, and returns how many bytes of records its file holds.
fn kept(alloc: Global, record: &[u8]) -> Result<usize, DeviceError> {
    let mut device = Memory::new(alloc, Vec::new(alloc));
    let gate = open(&mut device, Vec::new(alloc))?.len();
    let mut journal = Journal {
        alloc,
        device,
        gate,
    };
    if zvt_journal::is_record(record) {
        journal.reserve()?;
        journal.append(record)?;
    }
    let file = journal.device.bytes().to_vec(alloc)?;
    Ok(open(&mut journal.device, file)?.len())
}
