//! Saves and restores a till.
ghost use Rattle.std.specs.Prelude.{◌≡◌, ◌≤◌, ◌⊎◌, IfSome, IfNone, None, length, MatchOption};
ghost use Rattle.zvt_c.specs.Saving.{Loads, Restores, RestoresFirst, Saves, Written};
ghost use Rattle.zvt_c.specs.Statuses as statuses;
ghost use Rattle.zvt_till.specs.SnapshotEncoded.{saved, IsKept};
ghost use Rattle.zvt_till.specs.Till.{step};

use crate::answer::{ZvtAnswer, bare, found};
use crate::card::Card;
use crate::handle::ZvtTill;
use crate::session::Session;
use crate::statuses;
use std::alloc::Global;
use zvt_settle::SettlingTill;
use zvt_stream::Stream;
use zvt_till::snapshot::{LoadError, load, save};
use zvt_till::{Happening, Till};

/// Writes the saved till if it fits, and returns its size, or `None` if an allocation failed.
fn write_saved(alloc: Global, till: &Till, buffer: &mut [u8]) -> Option<usize>
    ensures some { IfSome result (λ size. Written (saved (step till.now.state Happening.Lost)) size buffer.old
        buffer.new × IsKept (step till.now.state Happening.Lost)) }
    ensures none { IfNone result (buffer.new ≡ buffer.old) }
{
    let Ok(bytes) = save(alloc, till) else {
        return None;
    };
    let size = bytes.len();
    if size <= buffer.len() {
        buffer[..size].copy_from_slice(bytes.as_slice());
    }
    Some(size)
}

/// Saves the till as bytes, at any time, and reports their size. If the buffer is too small, nothing is written. The
/// status is 0, 3 or 6.
#[unsafe(no_mangle)]
pub extern "C" fn zvt_till_save(
    alloc: Global,
    till: &mut ZvtTill,
    buffer: &mut [u8],
    answer: &mut ZvtAnswer,
)
    ensures same { till.new.raw_handle.held ≡ till.old.raw_handle.held }
    ensures said { Saves till.old.raw_handle.held buffer.old buffer.new answer.new }
{
    let Some(end) = till.take(alloc) else {
        *answer = bare(statuses::CLOSED);
        return;
    };
    *answer = match write_saved(alloc, end.till.till(), buffer) {
        Some(size) => found(size),
        None => bare(statuses::NO_MEMORY),
    };
    *till = ZvtTill::of(end);
}

/// Restores a till from the bytes of `zvt_till_save`. It is not connected, and no order is running. The bytes do not
/// contain what asks settled, so it has nothing settled or pending. If the handle has a till, that till is freed. The
/// status is 0; or 2 if the bytes are not a saved till, or 3 if an allocation failed, and then nothing changes.
#[unsafe(no_mangle)]
pub extern "C" fn zvt_till_load(alloc: Global, till: &mut ZvtTill, bytes: &[u8]) -> u32
    ensures made { result ≡ statuses.ok → Loads bytes.now till.new.raw_handle.held }
    ensures restores { Restores bytes.now till.new.raw_handle.held result }
    ensures first { RestoresFirst bytes.now till.new.raw_handle.held result }
    ensures status { (result ≡ statuses.ok) ⊎ ((result ≡ statuses.refused) ⊎ (result ≡ statuses.no_memory)) }
    ensures unchanged { (result ≡ statuses.ok → ⊥) → till.new.raw_handle.held ≡ till.old.raw_handle.held }
{
    let loaded = match load(alloc, bytes) {
        Ok(loaded) => loaded,
        Err(LoadError::Damaged) => return statuses::REFUSED,
        Err(LoadError::Memory) => return statuses::NO_MEMORY,
    };
    let end = Session {
        till: SettlingTill::new(alloc, loaded),
        stream: Stream::new(alloc),
        card: Card::none(),
    };
    match Box::new(alloc, end) {
        Ok(end) => {
            let _ = till.take(alloc);
            *till = ZvtTill::of(end);
            statuses::OK
        }
        Err(_) => statuses::NO_MEMORY,
    }
}
