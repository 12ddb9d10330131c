//! Laws of the player, each stated as the contract of an empty function.

ghost use Rattle.zvt_grammar.specs.Reading.{Reading};
ghost use Rattle.zvt_play.specs.OpenPlay.{AnyLineCanCome, OpenPlayIsStrict, OpenScriptIsStrict};

/// In the open reading, the other side can send any bytes: no line of its bytes is rejected.
pub fn any_line_can_come()
    ensures { (r : Reading) → AnyLineCanCome r }
{}

/// A trace that can be played strictly has the same steps in the open reading.
pub fn open_script_is_strict()
    ensures { (r : Reading) → OpenScriptIsStrict r }
{}

/// What a strict play does and hears, an open play can do and hear.
pub fn open_play_is_strict()
    ensures { (r : Reading) → OpenPlayIsStrict r }
{}
