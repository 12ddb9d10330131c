//! The calls that a journal makes on its file.

/// A call on a file.
#[derive(Clone, Copy)]
pub enum Call {
    /// Bytes were written from this index on.
    Wrote(usize),
    /// The byte at this index was set to this value.
    SetByte(usize, u8),
    /// The file was cut to this many bytes.
    CutTo(usize),
    /// Everything written became durable.
    Synced,
    /// A call that leaves the bytes of the file unchanged.
    Aside(Step),
}

/// A call that leaves the bytes of a file unchanged.
#[derive(Clone, Copy)]
pub enum Step {
    /// The file did not exist and was created.
    Made,
    /// The file existed and was opened.
    Found,
    /// The lock of the file was acquired.
    Locked,
    /// The file was made durable and read, and these are its bytes.
    Read,
    /// The file was read without a sync: these bytes need not be durable.
    Peeked,
    /// The file of this name was checked: it is still the open one, and ends where it did.
    InPlace,
    /// The file of this name plus `.cut` was opened or created.
    Beside,
    /// These bytes were appended to the file of this name plus `.cut`, and are durable there.
    KeptBeside,
    /// The name of the file was made durable.
    FolderSynced,
    /// Disk space was reserved for the next writes.
    Reserved,
}
