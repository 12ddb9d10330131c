//! Restores a till from its journal.
ghost use Rattle.std.specs.Prelude.{◌≡◌};
ghost use Rattle.zvt_till.specs.Settings.{settings_of};
ghost use Rattle.zvt_c.specs.Recovering.{RecoversEnd, RecoversHandle, refused_as};

use crate::answer::{ZvtAnswer, bare};
use crate::card::Card;
use crate::handle::ZvtTill;
use crate::session::Session;
use crate::statuses;
use std::alloc::Global;
use zvt_kept::{RecoveryError, recover};
use zvt_stream::Stream;
use zvt_till::{Till, TillSettings};

/// Replaces the handle's till by the one that a journal's records describe, with the same settings. It is not
/// connected, and neither an order nor an ask is running. It knows what the asks in the journal settled, and what is
/// pending. The status is 0; or 2, 3 or 6, and then nothing changes.
///
/// With status 2, the reason is 1 if the first line names another currency, or a rule that the till does not have. It
/// is 2 if the line at `place` is not a journal's, and 3 if the record at `place` cannot follow the records before it.
/// Reason 4 means that the check in the line at `place` does not match its record.
#[unsafe(no_mangle)]
pub extern "C" fn zvt_till_recover(
    alloc: Global,
    till: &mut ZvtTill,
    text: &[u8],
    answer: &mut ZvtAnswer,
)
    ensures { RecoversHandle till.old.raw_handle.held text.now till.new.raw_handle.held answer.new }
{
    let Some(mut end) = till.take(alloc) else {
        *answer = bare(statuses::CLOSED);
        return;
    };
    *answer = recover_end(alloc, &mut end, text);
    *till = ZvtTill::of(end);
}

/// Replaces the till of a handle by the one that a journal's records describe.
fn recover_end(alloc: Global, end: &mut Session, text: &[u8]) -> ZvtAnswer
    ensures { RecoversEnd end.old text.now end.new result }
{
    match recover(alloc, &settings(end.till.till()), text) {
        Ok(recovered) => {
            end.till = recovered.till;
            end.stream = Stream::new(alloc);
            end.card = Card::none();
            bare(statuses::OK)
        }
        Err(why) => unrecovered(why),
    }
}

/// Returns the settings of a till.
pub(crate) fn settings(till: &Till) -> TillSettings
    ensures { settings_of result ≡ till.now.state.settings }
{
    TillSettings {
        password: till.password(),
        config: till.config(),
        currency: till.currency(),
        rules: till.rules(),
    }
}

/// Returns why there is no till, as numbers.
pub(crate) fn unrecovered(why: RecoveryError) -> ZvtAnswer
    ensures { result ≡ refused_as why }
{
    let (reason, place) = match why {
        RecoveryError::Opening => (1, 1),
        RecoveryError::Line { number } => (2, number as u64),
        RecoveryError::Record { number } => (3, number as u64),
        RecoveryError::Check { number } => (4, number as u64),
        RecoveryError::Memory => return bare(statuses::NO_MEMORY),
    };
    ZvtAnswer {
        size: 0,
        place,
        reason,
        status: statuses::REFUSED,
    }
}
