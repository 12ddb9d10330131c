//! Laws about both ends of a line whose till keeps a journal and may crash at any moment, and about a terminal without
//! a delay.
ghost use Rattle.zvt_runs.specs.Crashes.{CrashesAccount, CrashesAreLosses, CrashesKeepReversals, CrashesMatch};
ghost use Rattle.zvt_runs.specs.Crashes.{FilesAreWorlds};
ghost use Rattle.zvt_runs.specs.Service.{UndelayedServes};
ghost use Rattle.zvt_runs.specs.Worlds.{CallsAreMoves};

use zvt_journal::Device;

/// The calls of a till with a journal are moves of both ends of its line: after a crash at any moment, recovery
/// restores the till that both ends have after a crash.
pub fn calls_are_moves<D: Device>()
    ensures { CallsAreMoves D.seen D.may_leave D.moment D.left_since D.faults }
{}

/// Whatever the till's settings are, a crash and the recovery from its journal have the same effect on both ends as a
/// lost connection. Recovery restores exactly the till that a lost connection would leave.
///
/// Therefore everything that holds for both ends also holds with crashes. If the till's reversals must be named, each
/// entry of its book corresponds to an approval of its own in the terminal's ledger. Over lines that keep the order of
/// messages, no approval and no reversed payment is dropped.
pub fn crashes_are_losses()
    ensures same { CrashesAreLosses }
    ensures files { FilesAreWorlds }
    ensures matches { CrashesMatch }
    ensures account { CrashesAccount }
    ensures reversals { CrashesKeepReversals }
{}

/// A terminal without a delay answers each message as soon as it has come, until the connection ends.
pub fn undelayed_serves()
    ensures { UndelayedServes }
{}
