//! Laws of every till that settles, each stated as the contract of an empty function.
ghost use Rattle.zvt_settle.specs.Story.{SettlingMeetsLog};
ghost use Rattle.zvt_settle.specs.StoryRows.{StoriesHold, GivenAgain};
ghost use Rattle.zvt_settle.specs.Laws.{CountsOnce, OnlyTheSame, PaidIsEarned};

/// Whatever the terminal says, no trace number counts twice, neither in the book nor among the payments that were
/// settled as paid.
pub fn counts_once()
    ensures { CountsOnce }
{
    zvt_till::laws::traces_stay_distinct();
}

/// An order is settled as not having happened only if the terminal repeats the status information from before it.
pub fn only_the_same()
    ensures { OnlyTheSame }
{}

/// A payment is settled as paid only by an approval of its amount in the till's currency, under a trace number that
/// neither the book nor another settled payment has.
pub fn paid_is_earned()
    ensures { PaidIsEarned }
{}

/// Twelve logs, and what they settle: by the steps of the till, and by their whole orders and asks.
pub fn stories_hold()
    ensures { StoriesHold }
{}

/// Whatever log a till can have whose reversals must be named, its steps settle what the whole orders and asks of the
/// log settle.
pub fn settling_meets_log()
    ensures { SettlingMeetsLog }
{}

/// If a terminal gives the trace number of a settled payment to another payment, the entry of the book counts.
pub fn given_again()
    ensures { GivenAgain }
{}
