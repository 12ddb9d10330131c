//! Laws of the grammar, each stated as the contract of an empty function.

ghost use Rattle.zvt_tlv.specs.Laws.{EachSizeIsFilled, EachBeginningStands, PositionsAreOne, TestsDecide};
ghost use Rattle.zvt_tlv.specs.Laws.{EachSizedBeginningStands, SizedPositionsAreOne, SizedTestsDecide, AnswersAreOne};
ghost use Rattle.zvt_tlv.specs.Laws.{SizedAnswersAreOne, AnswersStay, SizedAnswersStay, ObjectsEndThemselves};
ghost use Rattle.zvt_tlv.specs.Laws.{RoomsEndThemselves, SizedEndThemselves, SpellingsAreOne, SizedSpellingsAreOne};
ghost use Rattle.zvt_tlv.specs.Laws.{FaultsAreOne, SpelledIsFaultless};

/// For every size except one byte there are objects of exactly that size.
pub fn each_size_is_filled()
    ensures { EachSizeIsFilled }
{}

/// Bytes that can still become a whole encoding are at exactly one position, and the tests of that position decide for
/// each next byte whether this remains so.
pub fn tests_decide()
    ensures decide { TestsDecide }
    ensures some { EachBeginningStands }
    ensures one { PositionsAreOne }
{}

/// Bytes that begin a length and its objects are at exactly one position, and the tests of that position decide for
/// each next byte.
pub fn sized_tests_decide()
    ensures decide { SizedTestsDecide }
    ensures some { EachSizedBeginningStands }
    ensures one { SizedPositionsAreOne }
{}

/// The results whole, more and refused exclude each other, and a refusal has one place and one reason.
pub fn answers_are_one()
    ensures rooms { AnswersAreOne }
    ensures sized { SizedAnswersAreOne }
{}

/// Further bytes change no result except `More`.
pub fn answers_stay()
    ensures rooms { AnswersStay }
    ensures sized { SizedAnswersStay }
{}

/// If two encodings start the same bytes, they are equal and encode the same value.
pub fn spellings_end_themselves()
    ensures objects { ObjectsEndThemselves }
    ensures rooms { RoomsEndThemselves }
    ensures sized { SizedEndThemselves }
{}

/// In the shortest reading, each value has exactly one encoding.
pub fn spellings_are_one()
    ensures objects { SpellingsAreOne }
    ensures sized { SizedSpellingsAreOne }
{}

/// Objects have either an encoding or exactly one fault.
pub fn faults_are_one()
    ensures faults { FaultsAreOne }
    ensures faultless { SpelledIsFaultless }
{}
