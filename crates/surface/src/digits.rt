//! Digits and the numbers of a payment (`zvt_bcd`).
use zvt_bcd::{Amount, Currency, Trace, is_digits, ll_digit, ll_put, lll_put, number, put};

pub fn all() -> bool {
    numbers() && spelled() && counted()
}

fn numbers() -> bool {
    let amount: Option<Amount> = Amount::new(1234);
    let trace: Option<Trace> = Trace::new(17);
    let currency: Option<Currency> = Currency::new(978);
    match (amount, trace, currency) {
        (Some(amount), Some(trace), Some(currency)) => {
            amount.get() == 1234 && trace.get() == 17 && currency.get() == 978
        }
        _ => false,
    }
}

fn spelled() -> bool {
    let mut bytes = [0; 3];
    put(1234, &mut bytes);
    is_digits(&bytes) && number(&bytes) == 1234
}

fn counted() -> bool {
    let mut two = [0; 2];
    ll_put(12, &mut two);
    let mut three = [0; 3];
    lll_put(345, &mut three);
    ll_digit(two[1]) == Some(2) && ll_digit(three[2]) == Some(5)
}
