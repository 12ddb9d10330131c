//! Laws of traces, each stated as the contract of an empty function.
ghost use Rattle.zvt_trace.specs.ChunkLaw.{ChunksAreLines};
ghost use Rattle.zvt_trace.specs.Comments.{CommentsMeanNothing};
ghost use Rattle.zvt_trace.specs.Marks.{MarkRows, MarksReadBack};
ghost use Rattle.zvt_trace.specs.Moments.{MomentRows};
ghost use Rattle.zvt_trace.specs.OpenSides.{OpenSidesHearCuts};
ghost use Rattle.zvt_trace.specs.Unrefused.{ScopesAgree};

/// The chunks of a line have the same events, at the same numbers, as the lines of the trace that spells them.
pub fn chunks_are_lines()
    ensures { ChunksAreLines }
{}

/// A trace in which nothing is refused has the same events in every scope. So reading on after refused messages changes
/// nothing of what the strict reading reads.
pub fn scopes_agree()
    ensures { ScopesAgree }
{}

/// A side that is read on after each refused message hears the open cut of its bytes, however they are cut into pieces,
/// and never stops.
pub fn open_sides_hear_cuts()
    ensures { OpenSidesHearCuts }
{}

/// A trace whose comments are emptied or replaced by other comments has the same events. So time marks, which are
/// comments, change no event.
pub fn comments_mean_nothing()
    ensures { CommentsMeanNothing }
{}

/// A mark that is written is read as its moment.
pub fn marks_read_back()
    ensures { MarksReadBack }
{}

/// Lines that are marks and lines that are none, worked by hand.
pub fn mark_rows()
    ensures { MarkRows }
{}

/// The moments and the bad marks of some lines, worked by hand.
pub fn moment_rows()
    ensures { MomentRows }
{}
