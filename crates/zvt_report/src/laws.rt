//! Laws of every day and of every report, each stated as the contract of an empty function.
ghost use Rattle.zvt_report.specs.Approvals.{ApprovalsAreOne};
ghost use Rattle.zvt_report.specs.CardTotals.{ListedGroupsAddUp};
ghost use Rattle.zvt_report.specs.FindingObjects.{FindingsReadBack};
ghost use Rattle.zvt_report.specs.Findings.{EachBadMessageIsFound, FindingsAreOne, SwappedAsInAudit};
ghost use Rattle.zvt_report.specs.Hidden.{HiddenBytesAreNotFound, HiddenBytesAreNotShown, HiddenBytesMeanNothing};
ghost use Rattle.zvt_report.specs.Laws.{DoubtsAreLeftOpen, EachOrderHasARow, SameBooks, SameMarks, SumsMakeBooked};
ghost use Rattle.zvt_report.specs.LookLaws.{EachOtherIsLookedAt, EachPaymentIsLookedAt, EachReversalIsLookedAt};
ghost use Rattle.zvt_report.specs.Naming.{ReversalsNameEntries};
ghost use Rattle.zvt_report.specs.Reported.{EachOrderHasAMessage, EachReversalNamesAnEntry, SameBooksAsAudit};
ghost use Rattle.zvt_report.specs.Page.{ReportsAreDocuments};
ghost use Rattle.zvt_report.specs.Places.{PlacesNameEntries};
ghost use Rattle.zvt_report.specs.Reading.{ObjectsReadBack};
ghost use Rattle.zvt_report.specs.SlipObjects.{SlipsReadBack};
ghost use Rattle.zvt_report.specs.Wrapping.{BreaksOnlyAtBlanks, LinesFit};

/// A day has the same payments, booked and unclear, as the books of its log.
pub fn same_books()
    ensures { SameBooks }
{}

/// If each reversal of a day names an entry of the book and ended, the day has the same book as a till with its log:
/// the same entries, marks and doubts.
pub fn same_marks()
    ensures { SameMarks }
{}

/// A day has a row for each order, in the order in which they were sent. The rows of payments are its book and its
/// unclear payments, each payment once.
pub fn each_order_has_a_row()
    ensures { EachOrderHasARow }
{}

/// The entries that stand and those that were taken back add up to what was booked.
pub fn sums_make_booked()
    ensures { SumsMakeBooked }
{}

/// The totals by card that a report lists have the sum of all totals by card: a group that it leaves out has no sum.
pub fn listed_groups_add_up()
    ensures { ListedGroupsAddUp }
{}

/// A person is told to look at each unclear payment once, and no other payment is called unclear.
pub fn each_payment_is_looked_at()
    ensures { EachPaymentIsLookedAt }
{}

/// A person is told to look at each unclear reversal that no later one of its entry decides, once each.
pub fn each_reversal_is_looked_at()
    ensures { EachReversalIsLookedAt }
{}

/// A person is told to look at each unclear order that moves money beside the book, once each.
pub fn each_other_is_looked_at()
    ensures { EachOtherIsLookedAt }
{}

/// A report lists or counts each message that was refused or cut off, once each.
pub fn each_bad_message_is_found()
    ensures { EachBadMessageIsFound }
{}

/// A report finds that the marks are swapped exactly if the audit of the same events does.
pub fn swapped_as_in_audit()
    ensures { SwappedAsInAudit }
{}

/// If each reversal of a day names an entry of the book, the reversal of an entry is unclear exactly if one was left
/// open: it was unclear, and no later one of that entry decided anything.
pub fn doubts_are_left_open()
    ensures { DoubtsAreLeftOpen }
{}

/// A reversal that names a receipt number takes back an entry of the book, or it is an order that the book does not
/// know.
pub fn reversals_name_entries()
    ensures { ReversalsNameEntries }
{}

/// A report has the same payments, booked and unclear, as the audit of its trace. Only the report knows which payment a
/// reversal takes back.
pub fn same_books_as_audit()
    ensures { SameBooksAsAudit }
{}

/// A report has a message for each row of an order, in the same order: each row begins at the line of its message.
pub fn each_order_has_a_message()
    ensures { EachOrderHasAMessage }
{}

/// Each reversal of a report takes back an entry of the book before it, or it is an order that the book does not know.
/// So the law on doubts holds of every report.
pub fn each_reversal_names_an_entry()
    ensures { EachReversalNamesAnEntry }
{}

/// If the numbers of an object of a report fit into 64 bits, the reader of the crate `serde_json` gives the object back
/// from its text: its members are in the order of their names, and each is there once.
pub fn objects_read_back()
    ensures { ObjectsReadBack }
{}

/// If the numbers of the object of a finding fit into 64 bits, the reader of the crate `serde_json` gives the object
/// back from its text.
pub fn findings_read_back()
    ensures { FindingsReadBack }
{}

/// If the numbers of the object of a slip fit into 64 bits, the reader of the crate `serde_json` gives the object back
/// from its text.
pub fn slips_read_back()
    ensures { SlipsReadBack }
{}

/// The payments that a day booked have the entries of its book, each one once, in the same order.
pub fn places_name_entries()
    ensures { PlacesNameEntries }
{}

/// The lines of a sentence in the text of a report, with a blank between them, are the sentence.
pub fn breaks_only_at_blanks()
    ensures { BreaksOnlyAtBlanks }
{}

/// No line of a sentence in the text of a report has more than 76 columns, unless it is one word.
pub fn lines_fit()
    ensures { LinesFit }
{}

/// The page of a report is a document. Its dialogue is a part of it.
pub fn reports_are_documents()
    ensures { ReportsAreDocuments }
{}

/// A report depends only on what it may show. Passwords, tracks, verification values, card numbers that are not masked,
/// card data in objects, and the data of orders that move no money change nothing in it.
pub fn hidden_bytes_mean_nothing()
    ensures { HiddenBytesMeanNothing }
{}

/// Its findings do not depend on these bytes either.
pub fn hidden_bytes_are_not_found()
    ensures { HiddenBytesAreNotFound }
{}

/// The dialogue of a page shows none of these bytes either.
pub fn hidden_bytes_are_not_shown()
    ensures { HiddenBytesAreNotShown }
{
    zvt_text::laws::safe_texts_agree();
}

/// The bytes of an unreadable status information state one approval, or none, and a trace has one list of findings.
pub fn approvals_are_one()
    ensures bytes { ApprovalsAreOne }
    ensures findings { FindingsAreOne }
{}
