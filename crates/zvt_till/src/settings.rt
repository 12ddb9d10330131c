//! The settings of a till, and its rules.

use zvt_bcd::Currency;

/// What a shop accepts although the strict rules leave it unclear.
#[derive(Clone, Copy, Debug, PartialEq, Eq)]
pub struct Rules {
    /// A completed end of day counts as closed even if its status information has no result code (BMP 27).
    pub close_by_completion: bool,
    /// A status information that reports success but names no payment (BMP 37) confirms the reversal of an entry if all
    /// of the following hold; without the rule such a reversal is unclear. The status has the entry's amount, and no
    /// currency but the till's. No other entry, reversed or not, and no unclear payment has that amount. The entry and
    /// the status both have a receipt number (BMP 87), and the numbers differ. The rule decides which entries are
    /// marked as reversed, so judge a book by the rule under which it was written.
    pub reversal_by_receipt: bool,
}

impl Rules {
    ghost use Rattle.std.specs.Prelude.{◌≡◌};
    ghost use Rattle.zvt_till.specs.Settings.{strict};

    /// Returns the strict rules, which hold unless a shop states otherwise.
    pub fn strict() -> Rules
        ensures { result ≡ strict }
    {
        Rules {
            close_by_completion: false,
            reversal_by_receipt: false,
        }
    }
}

/// The password, the configuration byte, the currency and the rules of a till.
#[derive(Clone, Copy, Debug, PartialEq, Eq)]
pub struct TillSettings {
    /// The password: six digits, two per byte.
    pub password: [u8; 3],
    /// The configuration byte of a registration (PA00P015, Registration).
    pub config: u8,
    /// The currency of its registrations and payments.
    pub currency: Currency,
    /// What the shop accepts.
    pub rules: Rules,
}

/// The password 00 00 00, the configuration byte BE, the euro and the strict rules.
impl Default for TillSettings {
    ghost use Rattle.std.specs.Prelude.{◌≡◌};
    ghost use Rattle.zvt_till.specs.Events.{run_settings};
    ghost use Rattle.zvt_till.specs.Settings.{settings_of};

    ghost is_default = { λ settings. settings_of settings ≡ run_settings };

    fn default() -> TillSettings {
        TillSettings {
            password: [0; 3],
            config: 0xBE,
            currency: Currency::EURO,
            rules: Rules::strict(),
        }
    }
}
