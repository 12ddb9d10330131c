//! The law about the book that a crash leaves.
ghost use Rattle.zvt_runs.specs.Outliving.{BookRunsOutlive};

use zvt_journal::Device;
use zvt_kept::calls_outlive;

/// The book outlives the process. A crash at any moment of a run by [`run_till`](crate::tcp::run_till) with a book,
/// whatever the run returns, leaves a journal of the till's log followed by a prefix of the events of the run's steps.
/// When the run ends, the journal contains all of these events, unless it failed.
///
/// [`recover`](zvt_kept::recover) restores the till from such a journal.
pub fn book_runs_outlive<D: Device>()
    ensures { BookRunsOutlive D.seen D.may_leave D.moment D.left_since D.faults }
{
    calls_outlive::<D>();
}
