//! Tills that keep their books in files.
ghost use Rattle.zvt_journal.specs.Files.{file_may_leave, file_seen};
ghost use Rattle.std.specs.Prelude.{◌≡◌, length};
ghost use Rattle.zvt_journal.specs.Text.{IsSettled, recovered};

use std::alloc::Global;
use zvt_journal::FileDevice;
use zvt_kept::{KeptTill, RecoveryError, Reopened, Unbegun};
use zvt_service::Service;
use zvt_till::{Till, TillSettings};

/// A till that keeps its book in a file.
pub trait BookTill: Drop + Sized {
    /// Begins a book on a device without records.
    fn begin(
        alloc: Global,
        settings: &TillSettings,
        device: FileDevice,
    ) -> Result<Self, Unbegun<FileDevice>>
        requires { IsSettled (file_seen device) (file_may_leave device) 0 };

    /// Restores the till from the records of a device at rest.
    fn restore(
        alloc: Global,
        settings: &TillSettings,
        device: FileDevice,
        text: &[u8],
    ) -> Result<Self, RecoveryError>
        requires text { recovered (file_seen device) ≡ text.now }
        requires settled { IsSettled (file_seen device) (file_may_leave device) (length text.now) };

    fn till(&self) -> &Till;
}

impl BookTill for KeptTill<FileDevice> {
    fn begin(
        alloc: Global,
        settings: &TillSettings,
        device: FileDevice,
    ) -> Result<KeptTill<FileDevice>, Unbegun<FileDevice>> {
        KeptTill::create(alloc, settings, device)
    }

    fn restore(
        alloc: Global,
        settings: &TillSettings,
        device: FileDevice,
        text: &[u8],
    ) -> Result<KeptTill<FileDevice>, RecoveryError> {
        let Reopened { till, .. } = KeptTill::open(alloc, settings, device, text)?;
        Ok(till)
    }

    fn till(&self) -> &Till {
        KeptTill::till(self)
    }
}

impl BookTill for Service<FileDevice> {
    fn begin(
        alloc: Global,
        settings: &TillSettings,
        device: FileDevice,
    ) -> Result<Service<FileDevice>, Unbegun<FileDevice>> {
        Service::create(alloc, settings, device)
    }

    fn restore(
        alloc: Global,
        settings: &TillSettings,
        device: FileDevice,
        text: &[u8],
    ) -> Result<Service<FileDevice>, RecoveryError> {
        Service::open(alloc, settings, device, text)
    }

    fn till(&self) -> &Till {
        Service::till(self)
    }
}
