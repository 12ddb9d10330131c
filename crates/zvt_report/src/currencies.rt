//! The currencies whose letters and decimals are known (ISO 4217).
ghost use Rattle.std.specs.Prelude.{◌≡◌, ◌==◌, find};
ghost use Rattle.zvt_report.specs.Currencies.{decimals_of, money_of};
ghost use Rattle.zvt_report.specs.declared.currencies.Money.{Money};

use zvt_bcd::Currency;

/// How many digits an amount has after its decimal point.
#[derive(Clone, Copy)]
pub(crate) enum Decimals {
    Zero,
    Two,
    Three,
}

/// A currency of ISO 4217.
#[derive(Clone, Copy)]
pub(crate) struct Money {
    number: u16,
    pub(crate) letters: [u8; 3],
    pub(crate) decimals: Decimals,
}

/// The known currencies, in the order of their letters.
static CURRENCIES: [Money; 20] = [
    Money {
        number: 36,
        letters: *b"AUD",
        decimals: Decimals::Two,
    },
    Money {
        number: 975,
        letters: *b"BGN",
        decimals: Decimals::Two,
    },
    Money {
        number: 124,
        letters: *b"CAD",
        decimals: Decimals::Two,
    },
    Money {
        number: 756,
        letters: *b"CHF",
        decimals: Decimals::Two,
    },
    Money {
        number: 203,
        letters: *b"CZK",
        decimals: Decimals::Two,
    },
    Money {
        number: 208,
        letters: *b"DKK",
        decimals: Decimals::Two,
    },
    Money {
        number: 978,
        letters: *b"EUR",
        decimals: Decimals::Two,
    },
    Money {
        number: 826,
        letters: *b"GBP",
        decimals: Decimals::Two,
    },
    Money {
        number: 348,
        letters: *b"HUF",
        decimals: Decimals::Two,
    },
    Money {
        number: 352,
        letters: *b"ISK",
        decimals: Decimals::Zero,
    },
    Money {
        number: 392,
        letters: *b"JPY",
        decimals: Decimals::Zero,
    },
    Money {
        number: 414,
        letters: *b"KWD",
        decimals: Decimals::Three,
    },
    Money {
        number: 578,
        letters: *b"NOK",
        decimals: Decimals::Two,
    },
    Money {
        number: 985,
        letters: *b"PLN",
        decimals: Decimals::Two,
    },
    Money {
        number: 946,
        letters: *b"RON",
        decimals: Decimals::Two,
    },
    Money {
        number: 941,
        letters: *b"RSD",
        decimals: Decimals::Two,
    },
    Money {
        number: 752,
        letters: *b"SEK",
        decimals: Decimals::Two,
    },
    Money {
        number: 788,
        letters: *b"TND",
        decimals: Decimals::Three,
    },
    Money {
        number: 949,
        letters: *b"TRY",
        decimals: Decimals::Two,
    },
    Money {
        number: 840,
        letters: *b"USD",
        decimals: Decimals::Two,
    },
];

/// Returns the row with this number.
fn row_of(rows: &[Money], number: u16) -> Option<Money>
    ensures { result ≡ find (λ (money : Money). money.number == number) rows.now }
{
    rows.iter().copied().find(|money| money.number == number)
}

/// Returns the currency with this number, if it is known.
pub(crate) fn money_of(currency: Option<Currency>) -> Option<Money>
    ensures { result ≡ money_of currency }
{
    match currency {
        Some(currency) => row_of(&CURRENCIES, currency.get()),
        None => None,
    }
}

/// Returns the decimals of a currency. Amounts of an unknown one are written in its smallest unit.
#[tactic(auto, unfolding(crate::specs::Currencies::decimals_of))]
pub(crate) fn decimals_of(money: &Option<Money>) -> Decimals
    ensures { result ≡ decimals_of money.now }
{
    match money {
        Some(money) => money.decimals,
        None => Decimals::Zero,
    }
}
