// The calls by which raw numbers and bytes become amounts, days, currencies, digits and accounts. They stand apart from most of these types, since a
// type with a fact beside it imports what its file imports.
ghost use Rattle.std.specs.Prelude.{◌≡◌, true, length};
ghost use Rattle.std.specs.Option.{ok_or};
ghost use Rattle.domain.specs.Accounts.{account_of, as_digits, digit_count};
ghost use Rattle.domain.specs.Currencies.{is_capital as is_capital_byte, is_currency};
ghost use Rattle.domain.specs.Makers.{as_amount, as_currency, as_day, is_amount, is_day};
ghost use Rattle.domain.specs.declared.refusal.Refusal.TheVariants.{BadAmount, BadCurrency, NoSuchDay};

use crate::amount::Amount;
use crate::currency::Currency;
use crate::day::Day;
use crate::digits::Digits;
use crate::refusal::Refusal;

fn is_amount(raw: i64) -> bool
    ensures { result ≡ is_amount raw }
{
    (-99_999_999_999_999..=99_999_999_999_999).contains(&raw)
}

fn is_day(raw: u16) -> bool
    ensures { result ≡ is_day raw }
{
    raw <= 36524
}

impl TryFrom<i64> for Amount {
    type Error = Refusal;

    ghost try_from_gives = { λ raw made. made ≡ ok_or (as_amount raw) BadAmount };

    fn try_from(raw: i64) -> Result<Amount, Refusal> {
        if !is_amount(raw) {
            return Err(Refusal::BadAmount);
        }
        Ok(Amount { minor: raw })
    }
}

impl TryFrom<u16> for Day {
    type Error = Refusal;

    ghost try_from_gives = { λ raw made. made ≡ ok_or (as_day raw) NoSuchDay };

    fn try_from(raw: u16) -> Result<Day, Refusal> {
        if !is_day(raw) {
            return Err(Refusal::NoSuchDay);
        }
        Ok(Day { number: raw })
    }
}

pub fn is_capital(b: u8) -> bool
    ensures { result ≡ is_capital_byte b }
{
    b.is_ascii_uppercase()
}

fn is_currency(code: &[u8]) -> bool
    ensures is { result ≡ is_currency code.now }
    ensures three { result ≡ true → length code.now ≡ 3 }
{
    code.len() == 3 && is_capital(code[0]) && is_capital(code[1]) && is_capital(code[2])
}

impl<'a> TryFrom<&'a [u8]> for Currency {
    type Error = Refusal;

    ghost try_from_gives = { λ code made. made ≡ ok_or (as_currency code.now) BadCurrency };

    fn try_from(code: &'a [u8]) -> Result<Currency, Refusal> {
        if !is_currency(code) {
            return Err(Refusal::BadCurrency);
        }
        Ok(Currency {
            code: [code[0], code[1], code[2]],
        })
    }
}

impl Currency {
    pub fn code(self) -> [u8; 3]
        ensures { result ≡ self.code }
    {
        self.code
    }
}

impl TryFrom<u8> for Digits {
    type Error = Refusal;

    ghost try_from_gives = { λ raw made. made ≡ ok_or (as_digits raw) BadAmount };

    fn try_from(raw: u8) -> Result<Digits, Refusal> {
        match raw {
            0 => Ok(Digits::Zero),
            2 => Ok(Digits::Two),
            3 => Ok(Digits::Three),
            _ => Err(Refusal::BadAmount),
        }
    }
}

impl Digits {
    pub fn count(self) -> u8
        ensures { result ≡ digit_count self }
    {
        match self {
            Digits::Zero => 0,
            Digits::Two => 2,
            Digits::Three => 3,
        }
    }
}

// What a text is read for, and a ledger kept in: a currency, and the decimal digits of its amounts.
#[derive(Clone, Copy, PartialEq, Eq, Debug)]
pub struct Account {
    pub currency: Currency,
    pub digits: Digits,
}

impl Account {
    pub fn new(currency: &[u8], digits: u8) -> Result<Account, Refusal>
        ensures { result ≡ account_of currency.now digits }
    {
        let digits = Digits::try_from(digits)?;
        let currency = Currency::try_from(currency)?;
        Ok(Account { currency, digits })
    }
}
