// How a :61: is cut into its parts.
ghost use Rattle.std.specs.Prelude.{◌≡◌, ◌+◌, ◌<◌, length, IfSome};
ghost use Rattle.std.specs.Option.{option_map};
ghost use Rattle.mt940_cuts.specs.Cuts.{dates_of, has_funds, is_code as is_code_byte, is_type, slashes_from, key_of, key_in, details_of, mark_at, parts_of, shown, shown_date, shown_dates};

use crate::mark::{Mark, mark_of};
use crate::slices::{behind, digits, front, is_sized};
use domain::account::is_capital;
use domain::key::Key;
use fields::{is_digit, run_length};

// What a :61: that has its form is cut into: its value date, its entry date, if it has one, its mark, the bytes from its
// amount on, and the key of its reference.
#[derive(Clone, Copy, PartialEq, Eq, Debug)]
pub struct Parts<'a> {
    pub value_date: &'a [u8],
    pub entry_date: Option<&'a [u8]>,
    pub mark: Mark,
    pub run: &'a [u8],
    pub key: Key,
}

// The value date, and the entry date if a digit stands behind it; or none where the dates have not their digits.
#[tactic(auto, unfolding(crate::specs::Cuts::dates_of, crate::specs::Slices::digits_at))]
fn dates(body: &[u8]) -> Option<(&[u8], Option<&[u8]>)>
    ensures { option_map shown_dates result ≡ dates_of body.now }
{
    digits::<6>(body)?;
    let value_date = front(body, 6);
    if !body.get(6).is_some_and(|b| is_digit(*b)) {
        return Some((value_date, None));
    }
    digits::<4>(behind(body, 6))?;
    Some((value_date, Some(front(behind(body, 6), 4))))
}

// Whether a funds code stands at the front: a capital, if a digit or a comma follows it.
#[tactic(auto, unfolding(crate::specs::Cuts::has_funds))]
fn has_funds(bytes: &[u8]) -> bool
    ensures { result ≡ has_funds bytes.now }
{
    matches!(bytes, [code, rest @ ..] if is_capital(*code) && run_length(rest) >= 1)
}

fn is_code(b: u8) -> bool
    ensures { result ≡ is_code_byte b }
{
    is_capital(b) || is_digit(b)
}

// Where the first two slashes in a row stand.
fn slashes(bytes: &[u8]) -> Option<usize>
    ensures is { result ≡ slashes_from 0 bytes.now }
    ensures within { IfSome result (λ i. i + 1 < length bytes.now) }
{
    bytes.windows(2).position(|pair| pair == b"//".as_slice())
}

// The key of a reference of 1 to 16 bytes.
#[tactic(auto, unfolding(crate::specs::Cuts::key_of))]
fn key_of(reference: &[u8]) -> Option<Key>
    ensures { result ≡ key_of reference.now }
{
    if !is_sized(reference, 16) {
        return None;
    }
    Key::try_from(reference).ok()
}

// The key of a reference that runs up to two slashes, with 1 to 16 unread bytes behind them, or to the end.
#[tactic(auto, unfolding(crate::specs::Cuts::key_in))]
fn key_in(bytes: &[u8]) -> Option<Key>
    ensures { result ≡ key_in bytes.now }
{
    let Some(i) = slashes(bytes) else {
        return key_of(bytes);
    };
    if !is_sized(&bytes[i + 2..], 16) {
        return None;
    }
    key_of(&bytes[..i])
}

// The key of the reference behind a type, which is one of S, N, F, and three capitals or digits.
#[tactic(auto, unfolding(crate::specs::Cuts::details_of, crate::specs::Cuts::is_type, crate::specs::Cuts::is_class, crate::specs::Slices::starts_with))]
fn details(bytes: &[u8]) -> Option<Key>
    ensures { result ≡ details_of bytes.now }
{
    match bytes {
        [b'S' | b'N' | b'F', a, b, c, reference @ ..]
            if is_code(*a) && is_code(*b) && is_code(*c) => { key_in(reference) }
        _ => None,
    }
}

// Where the mark begins.
fn mark_at(entry_date: Option<&[u8]>) -> usize
    ensures { result ≡ mark_at (shown_date entry_date.entry) }
{
    if entry_date.is_some() { 10 } else { 6 }
}

// The parts of a :61:, or none where it has not its form.
#[tactic(auto, unfolding(crate::specs::Cuts::parts_of))]
pub fn cut(body: &[u8]) -> Option<Parts<'_>>
    ensures { option_map shown result ≡ parts_of body.now }
{
    let (value_date, entry_date) = dates(body)?;
    let marked = behind(body, mark_at(entry_date));
    let (mark, n) = mark_of(marked)?;
    let rest = behind(marked, n);
    let run = behind(rest, usize::from(has_funds(rest)));
    let key = details(behind(run, run_length(run)))?;
    Some(Parts {
        value_date,
        entry_date,
        mark,
        run,
        key,
    })
}
