//! The kinds of slips, and what a message is to them.
ghost use Rattle.std.specs.Prelude.{◌≡◌};
ghost use Rattle.zvt_report.specs.Slips.{is_acknowledgement, kind_by, role_of};

use zvt_apdu::Kind;
use zvt_text::ReceiptType;

/// What a message is to a slip of print lines.
#[derive(Clone, Copy)]
pub(crate) enum Role {
    /// A print line, which goes on with it.
    Line,
    /// An acknowledgement, which may stand between its lines.
    Acknowledgement,
    /// A text block, which ends it and is a slip of its own.
    Block,
    /// Any other message, which ends it.
    Other,
}

/// Returns what a message of the terminal of this kind is.
pub(crate) fn role_of(kind: Kind) -> Role
    ensures { result ≡ role_of kind }
{
    match kind {
        Kind::Ack => Role::Acknowledgement,
        Kind::PrintLine => Role::Line,
        Kind::TextBlock => Role::Block,
        _ => Role::Other,
    }
}

/// Whether a message is an acknowledgement.
pub(crate) fn is_acknowledgement(role: Role) -> bool
    ensures { result ≡ is_acknowledgement role }
{
    match role {
        Role::Acknowledgement => true,
        Role::Line | Role::Block | Role::Other => false,
    }
}

/// What a slip is.
#[derive(Clone, Copy)]
pub(crate) enum SlipKind {
    /// Print lines (06 D1) in a row.
    PrintLines,
    /// A text block (06 D3) that names no type, or another one.
    PrintTexts,
    Merchant,
    Customer,
    /// A receipt of the terminal's administration.
    Report,
}

impl SlipKind {
    ghost use Rattle.std.specs.Prelude.{◌≡◌};
    ghost use Rattle.zvt_report.specs.SlipObjects.{kind_name};
    ghost use Rattle.zvt_report.specs.PageSlips.{kind_title};

    /// Returns the name of the kind. JSON escapes none of its characters.
    pub(crate) fn name(self) -> &'static str
        ensures { result.now ≡ kind_name self }
    {
        match self {
            SlipKind::PrintLines => "print lines",
            SlipKind::PrintTexts => "print texts",
            SlipKind::Merchant => "merchant receipt",
            SlipKind::Customer => "customer receipt",
            SlipKind::Report => "terminal report",
        }
    }

    /// Returns the title of a slip of this kind.
    pub(crate) fn title(self) -> &'static str
        ensures { result.now ≡ kind_title self }
    {
        match self {
            SlipKind::PrintLines => "Print lines",
            SlipKind::PrintTexts => "Print texts",
            SlipKind::Merchant => "Merchant receipt",
            SlipKind::Customer => "Customer receipt",
            SlipKind::Report => "Terminal report",
        }
    }
}

/// Returns the kind of a text block with this type of receipt.
pub(crate) fn kind_by(receipt_type: Option<ReceiptType>) -> SlipKind
    ensures { result ≡ kind_by receipt_type }
{
    match receipt_type {
        Some(ReceiptType::Merchant) => SlipKind::Merchant,
        Some(ReceiptType::Customer) => SlipKind::Customer,
        Some(ReceiptType::Administration) => SlipKind::Report,
        Some(ReceiptType::Other(_)) | None => SlipKind::PrintTexts,
    }
}

/// Where a slip stands.
#[derive(Clone, Copy)]
pub(crate) struct SlipPlace {
    pub(crate) kind: SlipKind,
    /// The first and the last line of the trace.
    pub(crate) first: u64,
    pub(crate) last: u64,
    /// The number of orders up to it.
    pub(crate) order: usize,
}
