// The balances of :60: and :62:.
ghost use Rattle.std.specs.Prelude.{◌≡◌};
ghost use Rattle.std.specs.Option.{option_map};
ghost use Rattle.mt940_fields.specs.Balances.{sign_of, balance_mark, balance_cut, balance_of, shown};

use crate::sign::amount_in;
use calendar::day_in;
use domain::account::Account;
pub use domain::balance::Balance;
use domain::entry::Kind;
use domain::refusal::Refusal;
use fields::run_length;
use mt940_cuts::mark::{Mark, mark_of};
use mt940_cuts::slices::{behind, digits, front};

// What the body of a balance that has its form is cut into: its mark, its date, up to three bytes of currency, and the
// bytes of its amount.
#[derive(Clone, Copy, PartialEq, Eq, Debug)]
pub struct BalanceParts<'a> {
    pub mark: Mark,
    pub date: &'a [u8],
    pub currency: &'a [u8],
    pub run: &'a [u8],
}

// The mark at the front, which reverses nothing.
#[tactic(auto, unfolding(mt940_cuts::specs::Marks::mark_of))]
fn sign(body: &[u8]) -> Option<Mark>
    ensures { result ≡ sign_of body.now }
{
    let (mark, _) = mark_of(body)?;
    (Kind::from(mark) == Kind::Ordinary).then_some(mark)
}

// The mark of a balance that has its form: a mark, a date, up to three bytes of currency, and a run of digits and commas to the end.
#[tactic(auto, unfolding(crate::specs::Balances::balance_mark, mt940_cuts::specs::Slices::digits_at))]
pub fn balance_mark(body: &[u8]) -> Option<Mark>
    ensures { result ≡ balance_mark body.now }
{
    digits::<6>(behind(body, 1))?;
    let run = behind(body, 10);
    if run_length(run) != run.len() {
        return None;
    }
    sign(body)
}

// The parts of a balance that has its form.
#[tactic(auto, unfolding(crate::specs::Balances::balance_cut))]
pub fn cut_balance(body: &[u8]) -> Option<BalanceParts<'_>>
    ensures { option_map shown result ≡ balance_cut body.now }
{
    let mark = balance_mark(body)?;
    Some(BalanceParts {
        mark,
        date: front(behind(body, 1), 6),
        currency: front(behind(body, 7), 3),
        run: behind(body, 10),
    })
}

// A balance that has its form: its day, its amount, and its currency, which must be the account's.
#[tactic(auto, unfolding(crate::specs::Balances::balance_of))]
pub fn balance_in(parts: BalanceParts<'_>, account: Account) -> Result<Balance, Refusal>
    ensures { result ≡ balance_of account (shown parts.entry) }
{
    let day = day_in(parts.date).ok_or(Refusal::NoSuchDay)?;
    let amount = amount_in(parts.run, parts.mark, account.digits)?;
    let own = account.currency.code();
    if parts.currency != own.as_slice() {
        return Err(Refusal::BadCurrency);
    }
    Ok(Balance { day, amount })
}
