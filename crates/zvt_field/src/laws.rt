//! Laws of the grammar, each stated as the contract of an empty function.

ghost use Rattle.zvt_field.specs.Laws.{EachSizeIsFilled, EachBeginningStands, PositionsAreOne, TestsDecide};
ghost use Rattle.zvt_field.specs.Laws.{RefusalsAreOne, FieldsEndThemselves, ListsAreOne, ListsHaveOne, AnswersAreOne};
ghost use Rattle.zvt_field.specs.Laws.{AnswersStay, BegunAreOne, FaultsAreOne, SecretsAreHidden, SpelledIsFaultless};

/// For every size except one byte there are fields of exactly that size.
pub fn each_size_is_filled()
    ensures { EachSizeIsFilled }
{}

/// A byte keeps the bytes completable exactly if its tests pass, and there is one set of tests for it.
pub fn tests_decide()
    ensures decide { TestsDecide }
    ensures some { EachBeginningStands }
    ensures one { PositionsAreOne }
{}

/// A refusal has one place and one reason.
pub fn refusals_are_one()
    ensures { RefusalsAreOne }
{}

/// No field's encoding begins another one. Two fields, or two lists, never share an encoding, and in the shortest
/// reading each has exactly one.
pub fn spellings_are_one()
    ensures ends { FieldsEndThemselves }
    ensures lists { ListsAreOne }
    ensures one { ListsHaveOne }
{}

/// The reader's results exclude each other, and each is the only one that its definition allows.
pub fn answers_are_one()
    ensures { AnswersAreOne }
{}

/// Bytes begin with one list of whole fields.
pub fn begun_are_one()
    ensures { BegunAreOne }
{}

/// Further bytes change no result except `More`.
pub fn answers_stay()
    ensures { AnswersStay }
{}

/// A field has either an encoding or exactly one fault.
pub fn faults_are_one()
    ensures faults { FaultsAreOne }
    ensures faultless { SpelledIsFaultless }
{}

/// No output shows a card number (22), a track (23, 24, 2D), a verification value (3A) or a password (3D): the table
/// hides them.
pub fn secrets_are_hidden()
    ensures { SecretsAreHidden }
{}
