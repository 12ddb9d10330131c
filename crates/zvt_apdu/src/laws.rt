//! Laws of the grammar, each stated as the contract of an empty function.

ghost use Rattle.std.specs.Prelude.{ℕ, List};
ghost use Rattle.zvt_grammar.specs.Laws.{SpellingsAreOne, CutsAreOne, PrefixesOfCut, Growth, PrefixesAlive};
ghost use Rattle.zvt_grammar.specs.Reading.{Reading, shortest};
ghost use Rattle.zvt_apdu.specs.Grammar.{Spells};
ghost use Rattle.zvt_apdu.specs.Laws.{AnswersAreOne, AnswersStay, EachBeginningStands, FaultsAreOne};
ghost use Rattle.zvt_apdu.specs.Laws.{MessagesEndThemselves, NeverNotShortest, NormalsAreOne, NormalsStay};
ghost use Rattle.zvt_apdu.specs.Laws.{PositionsAreOne, RefusalsAreOne, SpelledIsFaultless, SpellingsAreRead};
ghost use Rattle.zvt_apdu.specs.Laws.{StrictIsPadded, StrictStays, TestsDecide};

/// No message's encoding begins another one, and no two messages share an encoding.
pub fn messages_end_themselves()
    ensures { MessagesEndThemselves }
{}

/// In the shortest reading, each message has exactly one encoding.
pub fn spellings_are_one()
    ensures { SpellingsAreOne (Spells shortest) }
{}

/// The bytes of a line divide into messages in exactly one way. Any messages encoded at its start are the first
/// messages of that division, and further bytes do not change them.
pub fn cuts_are_one()
    ensures one { (r : Reading) → CutsAreOne (Spells r) }
    ensures prefixes { (r : Reading) → PrefixesOfCut (Spells r) }
    ensures growth { (r : Reading) → Growth (Spells r) }
{}

/// If bytes can be completed to a message, so can each prefix of them.
pub fn prefixes_are_alive()
    ensures { (r : Reading) → PrefixesAlive (Spells r) }
{}

/// If bytes start with the encoding of a message, the reader returns that message and its size.
pub fn spellings_are_read()
    ensures { SpellingsAreRead }
{}

/// Bytes that can be completed to a message, and do not contain one yet, end at a position.
pub fn each_beginning_stands()
    ensures { EachBeginningStands }
{}

/// Beginnings of a message are at one position alone.
pub fn positions_are_one()
    ensures { PositionsAreOne }
{}

/// At a position, one more byte keeps the bytes completable exactly if its tests pass.
pub fn tests_decide()
    ensures { TestsDecide }
{}

/// A refusal has one place and one reason.
pub fn refusals_are_one()
    ensures { RefusalsAreOne }
{}

/// Bytes have exactly one result.
pub fn answers_are_one()
    ensures { AnswersAreOne }
{}

/// Further bytes change no result except `More`.
pub fn answers_stay()
    ensures { AnswersStay }
{}

/// A message has either an encoding or exactly one fault.
pub fn faults_are_one()
    ensures faults { FaultsAreOne }
    ensures faultless { SpelledIsFaultless }
{}

/// The padded reading accepts everything that the strict one accepts, as the same messages, and refuses no length for
/// its form.
pub fn strict_is_padded()
    ensures spelled { StrictIsPadded }
    ensures found { StrictStays }
    ensures forms { NeverNotShortest }
{}

/// A message with padded lengths has exactly one strict encoding, and that is its own strict encoding.
pub fn normals_are_one()
    ensures one { NormalsAreOne }
    ensures stay { NormalsStay }
{}
