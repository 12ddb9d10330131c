//! Laws of both ends together, of tills that ask, and of orders beyond the profile. Each is stated as the contract of
//! an empty function.
ghost use Rattle.zvt_term.specs.Extended.{ExtrasKeepLedger, HeldIsAnswered, HeldKeepsLedger, PlainIsServed};
ghost use Rattle.zvt_term.specs.Extended.{RepeatsChangeNothing};
ghost use Rattle.zvt_term.specs.AskedRows.{RowsHold};
ghost use Rattle.zvt_term.specs.AskedWorld.{Complete, Exact, Sound, WorldsCountOnce};
ghost use Rattle.zvt_term.specs.Ledgers.{OnePaymentDecides, OneReversalDecides, SameLedgerDecides};
ghost use Rattle.zvt_term.specs.World.{WorldsMatch};
ghost use Rattle.zvt_term.specs.Orderly.{OrderlyWorldsAccount};
ghost use Rattle.zvt_term.specs.Returned.{OrderlyWorldsKeepReversals};
ghost use Rattle.zvt_term.specs.Withheld.{WithheldIsDue};

/// Even if messages arrive twice, late or never, each entry of the till's book corresponds to an approval of its own
/// in the terminal's ledger. This and the next two laws are about tills whose reversals must be named.
pub fn worlds_match()
    ensures { WorldsMatch }
{}

/// Over lines that keep the order of messages, each approval of an amount is booked, unclear or still awaited.
pub fn orderly_worlds_account()
    ensures { OrderlyWorldsAccount }
{}

/// Over lines that keep the order of messages, the till knows of each payment that the terminal reversed: it is marked
/// as reversed, its reversal is unclear or running, or the terminal answered B4.
pub fn orderly_worlds_keep_reversals()
    ensures { OrderlyWorldsKeepReversals }
{}

/// Without extras, a terminal processes every message like a terminal of the profile.
pub fn plain_is_served()
    ensures { PlainIsServed }
{}

/// No order beyond the profile changes the ledger.
pub fn extras_keep_ledger()
    ensures { ExtrasKeepLedger }
{}

/// A repeat receipt changes nothing except the order in progress.
pub fn repeats_change_nothing()
    ensures { RepeatsChangeNothing }
{}

/// A payment that is held until the delay is over is answered as by a terminal without a delay.
pub fn held_is_answered()
    ensures { HeldIsAnswered }
{}

/// No message changes the ledger while a payment is held, so that a payment aborted by the till is never booked.
pub fn held_keeps_ledger()
    ensures { HeldKeepsLedger }
{}

/// After every sequence of messages, ends of the delay and lost lines, a terminal waits exactly while an intermediate
/// status stands in place of a status, and then that very status is due.
pub fn withheld_is_due()
    ensures { WithheldIsDue }
{}

/// Three days of a till whose line is lost during an order, up to the answer that settles it.
pub fn rows_hold()
    ensures { RowsHold }
{}

/// With the simulated terminal, and whatever arrives late, repeatedly or never, no trace number counts twice.
pub fn worlds_count_once()
    ensures { WorldsCountOnce }
{
    zvt_till::laws::traces_stay_distinct();
}

/// With the simulated terminal, and over lines that keep the order of messages, the ledger agrees with every
/// settlement: it grew by the row of the order and no other, or by none if the order did not happen.
pub fn settlements_are_sound()
    ensures { Sound }
{}

/// With the simulated terminal, and over lines that keep the order of messages, an ask that ends by a message while an
/// order is pending settles that order.
pub fn settlements_are_complete()
    ensures { Complete }
{}

/// With the simulated terminal, and over lines that keep the order of messages, and once each unclear payment was
/// settled: the ledger has an approval for each entry and each payment settled as paid, and no other.
pub fn settlements_are_exact()
    ensures { Exact }
{}

/// If the ledger of the simulated terminal did not grow, its answer settles the order as not having happened.
pub fn same_ledger_decides()
    ensures { SameLedgerDecides }
{}

/// If the ledger grew by an approval of the amount, its answer settles the payment as paid under that trace number.
pub fn one_payment_decides()
    ensures { OnePaymentDecides }
{}

/// If the ledger grew by a row that reverses the entry, its answer settles the reversal as having happened.
pub fn one_reversal_decides()
    ensures { OneReversalDecides }
{}
