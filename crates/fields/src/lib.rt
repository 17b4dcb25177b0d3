// Numbers and amounts as texts write them.
#![tactic(auto)]

ghost use Rattle.std.specs.Prelude.{◌≡◌, ◌+◌, ◌-◌, ◌*◌, ◌^◌, ◌<◌, ◌≤◌, true, length, pos, position, ◌==◌, IfSome, IfOk, Some};
ghost use Rattle.std.specs.Option.{ok_or, option_map};
ghost use Rattle.domain.specs.Accounts.{digit_count};
ghost use Rattle.domain.specs.Makers.{as_amount};
ghost use Rattle.fields.specs.Commas.{comma_amount, commas as comma_count, minor_in, Figures, Taken};
ghost use Rattle.fields.specs.Runs.{is_digit as is_digit_byte, all_digits, all_in_run, in_run, is_numeral, numeral_of, run_length, worth as worth_of};
ghost use Rattle.fields.specs.Splits.{split_once};
ghost use Rattle.fields.specs.Units.{minus_of, units_of};
ghost use Rattle.fields.specs.Written.{ReadsAmount, ReadsNumber, ReadsUnits};

use domain::amount::Amount;
use domain::digits::Digits;
use domain::refusal::Refusal;

pub fn is_digit(b: u8) -> bool
    ensures { result ≡ is_digit_byte b }
{
    b.is_ascii_digit()
}

pub fn is_digits(bytes: &[u8]) -> bool
    ensures { result ≡ all_digits bytes.now }
{
    bytes.iter().all(|b| is_digit(*b))
}

// The number that up to 14 digits write.
#[tactic(auto, using(crate::proofs::Powers::power_14))]
fn worth(ds: &[u8]) -> u64
    requires few { length ds.now ≤ 14 }
    requires each { all_digits ds.now ≡ true }
    ensures is { result ≡ worth_of ds.now }
    ensures small { result < 10 ^ length ds.now }
{
    // A loop and no fold, whose closure would know neither that each byte is a digit nor that the number so far is small.
    let mut w: u64 = 0;
    for d in ds {
        w = w * 10 + (*d - b'0') as u64;
    }
    w
}

// Whether these are 1 to k digits.
fn is_numeral(bytes: &[u8], k: usize) -> bool
    ensures { result ≡ is_numeral k bytes.now }
{
    (1..=k).contains(&bytes.len()) && is_digits(bytes)
}

// The number that 1 to k digits write.
#[tactic(auto, using(crate::proofs::Powers::power_most), unfolding(crate::specs::Runs::numeral_of))]
fn numeral(bytes: &[u8], k: usize) -> Option<u64>
    requires { k ≤ 14 }
    ensures is { result ≡ numeral_of k bytes.now }
    ensures small { IfSome result (λ n. n < 10 ^ k) }
{
    is_numeral(bytes, k).then(|| worth(bytes))
}

// A statement number, a page or a count: 1 to 5 digits.
#[tactic(auto, using(crate::proofs::Numbers::reads_number))]
pub fn small_number(bytes: &[u8]) -> Option<u32>
    ensures is { result ≡ numeral_of 5 bytes.now }
    ensures law { ReadsNumber 5 bytes.now result }
    ensures small { IfSome result (λ n. n ≤ 99999) }
{
    numeral(bytes, 5).map(|n| n as u32)
}

// So many minor units.
fn positive(n: u64) -> Option<Amount>
    requires { n < 2 ^ 63 }
    ensures { result ≡ as_amount (pos n) }
{
    Amount::try_from(n as i64).ok()
}

// So many minor units behind a minus, which does not stand before zero.
fn negative(n: u64) -> Option<Amount>
    requires { n < 2 ^ 63 }
    ensures { result ≡ minus_of (Some n) }
{
    if n == 0 {
        return None;
    }
    Amount::try_from(-(n as i64)).ok()
}

// An amount in minor units, as the cash book writes it.
#[tactic(auto, unfolding(crate::specs::Units::units_of))]
pub fn units(bytes: &[u8]) -> Option<Amount>
    ensures is { result ≡ units_of bytes.now }
    ensures law { ReadsUnits bytes.now result }
{
    match bytes {
        [b'-', rest @ ..] => numeral(rest, 14).and_then(negative),
        _ => numeral(bytes, 14).and_then(positive),
    }
}

pub fn in_run(b: u8) -> bool
    ensures { result ≡ in_run b }
{
    b == b',' || is_digit(b)
}

// How many bytes the longest run of digits and commas at the front has.
pub fn run_length(bytes: &[u8]) -> usize
    ensures is { result ≡ run_length bytes.now }
    ensures within { result ≤ length bytes.now }
{
    bytes.iter().take_while(|b| in_run(**b)).count()
}

// Where the first byte `b` stands.
fn first(bytes: &[u8], b: u8) -> Option<usize>
    ensures { result ≡ position (λ x. x == b) bytes.now }
{
    bytes.iter().position(|x| *x == b)
}

// What stands before the first byte `b`, and what stands behind it; none where there is no such byte.
pub fn split_once(bytes: &[u8], b: u8) -> Option<(&[u8], &[u8])>
    ensures is { option_map (λ p. (p.0.now, p.1.now)) result ≡ split_once b bytes.now }
    ensures within { IfSome result (λ p. length p.0.now + 1 + length p.1.now ≡ length bytes.now) }
{
    let at = first(bytes, b)?;
    Some((&bytes[..at], &bytes[at + 1..]))
}

// How many commas there are.
fn commas(run: &[u8]) -> usize
    ensures { result ≡ comma_count run.now }
{
    run.iter().filter(|b| **b == b',').count()
}

// The minor units of a number with these digits before its comma and behind it.
#[tactic(auto, using(crate::proofs::Powers::power_14, crate::proofs::Powers::scaled_most))]
fn scaled(whole: &[u8], part: &[u8], digits: Digits) -> u64
    requires fit { length part.now ≤ digit_count digits }
    requires short { length whole.now ≤ 14 }
    requires front { all_digits whole.now ≡ true }
    requires back { all_digits part.now ≡ true }
    ensures is { result ≡ worth_of whole.now * 10 ^ digit_count digits + worth_of part.now * 10 ^ (digit_count digits - length part.now) }
    ensures small { result < 2 ^ 63 }
{
    let count = digits.count() as u32;
    worth(whole) * 10_u64.pow(count) + worth(part) * 10_u64.pow(count - part.len() as u32)
}

// The minor units of a run of 2 to 15 bytes with one comma, a digit before it and at most the account's digits behind it.
#[tactic(auto, using(crate::proofs::Parts::commas_none, crate::proofs::Parts::digits_before, crate::proofs::Parts::digits_behind))]
fn minor(run: &[u8], digits: Digits) -> Option<u64>
    requires { all_in_run run.now ≡ true }
    ensures is { result ≡ minor_in (digit_count digits) run.now }
    ensures small { IfSome result (λ n. n < 2 ^ 63) }
{
    // Before the search for a comma, so that a run that is too long costs no more for its length.
    if run.len() > 15 {
        return None;
    }
    let (whole, part) = split_once(run, b',')?;
    let most = digits.count() as usize;
    if commas(run) == 1 && !whole.is_empty() && part.len() <= most {
        Some(scaled(whole, part, digits))
    } else {
        None
    }
}

// The amount with a decimal comma at the front of a text: its minor units and the number of bytes read, in a tuple, as the project fixes it.
#[tactic(auto, using(crate::proofs::Parts::all_in_run_lem, crate::proofs::Begun::reads_amount, crate::proofs::Begun::begins_ok), unfolding(crate::specs::Commas::comma_amount))]
pub fn comma_amount(bytes: &[u8], digits: Digits) -> Result<(Amount, usize), Refusal>
    ensures is { result ≡ ok_or (comma_amount digits bytes.now) Refusal.BadAmount }
    ensures taken { IfOk result (λ p. Taken bytes.now p.0 p.1) }
    ensures law { ReadsAmount digits bytes.now result }
{
    let length = run_length(bytes);
    let minor = minor(&bytes[..length], digits).ok_or(Refusal::BadAmount)?;
    let amount = Amount::try_from(minor as i64)?;
    Ok((amount, length))
}

// The worked figures hold.
#[tactic(auto, unfolding(crate::specs::Commas::comma_amount, domain::specs::Makers::as_amount))]
pub fn amounts_stand()
    ensures { Figures }
{}
