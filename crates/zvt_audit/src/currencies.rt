//! The currency that the till's registrations name.
ghost use Rattle.std.specs.Prelude.{◌≡◌};
ghost use Rattle.zvt_audit.specs.Currencies.{agreed, chosen, named_after};
ghost use Rattle.zvt_audit.specs.declared.currencies.NamedCurrency.TheVariants.{Absent};

use zvt_bcd::Currency;

/// The currencies of the till's registrations.
#[derive(Clone, Copy)]
pub enum NamedCurrency {
    /// No registration names a currency.
    Absent,
    /// All registrations that name a currency name this one.
    Single(Currency),
    /// Two registrations name different currencies.
    Mixed,
}

impl NamedCurrency {
    /// Starts before the first registration.
    pub fn none() -> NamedCurrency
        ensures { result ≡ Absent }
    {
        NamedCurrency::Absent
    }

    /// Records the currency that a message of the till names, if any.
    pub fn notice(&mut self, named: Option<Currency>)
        ensures { self.new ≡ named_after self.old named }
    {
        if let Some(currency) = named {
            *self = self.with(currency);
        }
    }

    /// Returns the state after a registration that names this currency.
    fn with(&self, currency: Currency) -> NamedCurrency
        ensures { result ≡ chosen self.now currency }
    {
        match self {
            NamedCurrency::Absent => NamedCurrency::Single(currency),
            NamedCurrency::Single(first) => {
                if first.get() == currency.get() {
                    NamedCurrency::Single(*first)
                } else {
                    NamedCurrency::Mixed
                }
            }
            NamedCurrency::Mixed => NamedCurrency::Mixed,
        }
    }

    /// Returns the currency, if all registrations that name one agree.
    pub fn agreed(&self) -> Option<Currency>
        ensures { result ≡ agreed self.now }
    {
        match self {
            NamedCurrency::Single(currency) => Some(*currency),
            NamedCurrency::Absent | NamedCurrency::Mixed => None,
        }
    }
}
