//! Laws of the decisions, each stated as the contract of an empty function.
ghost use Rattle.zvt_serve.specs.Laws.{GivesFresh, ReplaysEnded};

/// An order is given only if it was asked for, no order has its key, and the till is ready.
pub fn gives_fresh()
    ensures { GivesFresh }
{}

/// A request whose key names its own order, which has ended, is answered by that, whatever the till does.
pub fn replays_ended()
    ensures { ReplaysEnded }
{}
