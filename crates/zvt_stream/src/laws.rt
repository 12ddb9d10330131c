//! Laws of every stream, each stated as the contract of an empty function.

ghost use Rattle.zvt_stream.specs.Cutting.{AnyCutting, AnyRefusal};
ghost use Rattle.zvt_grammar.specs.Reading.{Reading};
ghost use Rattle.zvt_stream.specs.Judge.{JudgesStand};
ghost use Rattle.zvt_stream.specs.OpenReading.{EachLineIsCut, OpenCutsAreOne, OpenIsStrict};
ghost use Rattle.zvt_stream.specs.LineReading.{EachOpenLineIsHeard, LineCutsAreOne, LineReading, OpenHearsStrict};
ghost use Rattle.zvt_stream.specs.LineReading.{JudgedOnce, OpenLinesAreHeard};

/// However the input is cut into chunks, the stream finds the messages of the whole input, and holds the bytes after
/// them.
pub fn any_cutting()
    ensures { AnyCutting }
{}

/// However a line is cut into chunks, the stream refuses the bytes after the last message at the same place and for
/// the same reason.
pub fn any_refusal()
    ensures { AnyRefusal }
{}

/// A judge's state is the position of its bytes in the grammar of messages: the role of the next byte, and the number
/// of open levels.
pub fn judges_stand()
    ensures { JudgesStand }
{}

/// In the open reading, a line divides into messages and unread frames in exactly one way. A prefix of the line has a
/// prefix of these items, and further bytes do not change them.
pub fn open_cuts_are_one()
    ensures { (r : Reading) → OpenCutsAreOne r }
{}

/// In the open reading, every line has a division, and the bytes after its items can always be completed.
pub fn each_line_is_cut()
    ensures { (r : Reading) → EachLineIsCut r }
{}

/// The open reading finds the messages of the strict one, wherever the strict one refuses nothing.
pub fn open_is_strict()
    ensures { (r : Reading) → OpenIsStrict r }
{}

/// A line, strict or open, divides into messages in exactly one way. A prefix of the line has a prefix of these
/// messages, and further bytes do not change them.
pub fn line_cuts_are_one()
    ensures { (l : LineReading) → LineCutsAreOne l }
{}

/// The messages of an open line are those that its messages and unread frames count as.
pub fn open_lines_are_heard()
    ensures { (r : Reading) → OpenLinesAreHeard r }
{}

/// Every open line has a division into messages, and the bytes after them can always be completed.
pub fn each_open_line_is_heard()
    ensures { (r : Reading) → EachOpenLineIsHeard r }
{}

/// An open line has the messages of a strict one, wherever the strict one refuses nothing.
pub fn open_hears_strict()
    ensures { (r : Reading) → OpenHearsStrict r }
{}

/// Of the same bytes of a message, the same number is judged.
pub fn judged_once()
    ensures { (r : Reading) → JudgedOnce r }
{}
