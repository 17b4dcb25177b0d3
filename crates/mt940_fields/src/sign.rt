// What the marks of balances and entries say of their amounts.
ghost use Rattle.std.specs.Prelude.{◌≡◌, Some};
ghost use Rattle.std.specs.Option.{ok_or};
ghost use Rattle.mt940_fields.specs.Signs.{signed_as, signed_made, amount_in};

use domain::amount::Amount;
use domain::digits::Digits;
use domain::refusal::Refusal;
use fields::comma_amount;
use mt940_cuts::mark::Mark;

// The amount with the sign that its mark gives it: just the one that is made of its signed number, as every amount is made of a number.
#[tactic(auto, unfolding(crate::specs::Signs::signed_as, crate::specs::Signs::signed_made), using(domain::proofs::Same::amount_same, domain::proofs::Same::as_amount_lem))]
pub fn signed(mark: Mark, unsigned: Amount) -> Amount
    ensures is { result ≡ signed_as mark unsigned }
    ensures made { signed_made mark unsigned ≡ Some result }
{
    match mark {
        Mark::Credit | Mark::DebitReversed => unsigned,
        Mark::Debit | Mark::CreditReversed => -unsigned,
    }
}

// The amount at the front, with its sign.
#[tactic(auto, unfolding(crate::specs::Signs::amount_in))]
pub fn amount_in(bytes: &[u8], mark: Mark, digits: Digits) -> Result<Amount, Refusal>
    ensures { result ≡ ok_or (amount_in digits mark bytes.now) Refusal.BadAmount }
{
    let (unsigned, _) = comma_amount(bytes, digits)?;
    Ok(signed(mark, unsigned))
}
