ghost use Rattle.std.specs.Prelude.{◌≡◌};
ghost use Rattle.book_lines.specs.Left.{fields_left};
ghost use Rattle.book_lines.specs.Reading.{balance_of, opening_of, row_of, closing_of, tagged_of, line_of, entry_of, entry_in};

use crate::line::{Closing, Line, Opening, Row};
use crate::parts::{Fields, fields_of};
use calendar::{day_in, is_date};
use domain::amount::Amount;
use domain::currency::Currency;
use domain::day::Day;
use domain::entry::{Entry, Kind, Place};
use domain::key::Key;
use fields::{small_number, units};
use text::is_formed;

// The number, the day and the amount with which the lines of an opening and of a closing end.
// A triple and no struct inside `Opening` and `Closing`: the number is a statement's in the one and a count in the other, and each is read by its own name.
fn balance_in(mut fields: Fields<'_>) -> Option<(u32, Option<Day>, Option<Amount>)>
    ensures { result ≡ balance_of (fields_left fields.entry) }
{
    let number = small_number(fields.next()?)?;
    let day = fields.next()?;
    let amount = fields.next()?;
    if !is_date(day) || fields.next().is_some() {
        return None;
    }
    Some((number, day_in(day), units(amount)))
}

// What a line tagged B states, by the fields behind its tag: none where it has not its fields.
fn opening_in(mut fields: Fields<'_>) -> Option<Line>
    ensures { result ≡ opening_of (fields_left fields.entry) }
{
    let currency = Currency::try_from(fields.next()?).ok();
    let (number, day, amount) = balance_in(fields)?;
    Some(Line::Opens(Opening {
        currency,
        number,
        day,
        amount,
    }))
}

// What a line tagged E or R states. The text, its last field, is not read.
fn row_in(mut fields: Fields<'_>, kind: Kind) -> Option<Line>
    ensures { result ≡ row_of kind (fields_left fields.entry) }
{
    let value_day = fields.next()?;
    let entry_day = fields.next()?;
    let amount = fields.next()?;
    let key = Key::try_from(fields.next()?).ok()?;
    fields.next()?;
    if !is_date(value_day) || !is_date(entry_day) || fields.next().is_some() {
        return None;
    }
    Some(Line::Enters(Row {
        kind,
        value_day: day_in(value_day),
        entry_day: day_in(entry_day),
        amount: units(amount),
        key,
    }))
}

// What a line tagged Z states.
fn closing_in(fields: Fields<'_>) -> Option<Line>
    ensures { result ≡ closing_of (fields_left fields.entry) }
{
    let (count, day, amount) = balance_in(fields)?;
    Some(Line::Closes(Closing { count, day, amount }))
}

// What the fields behind a tag state; none where the tag is unknown.
fn tagged(tag: &[u8], fields: Fields<'_>) -> Option<Line>
    ensures { result ≡ tagged_of tag.now (fields_left fields.entry) }
{
    match tag {
        b"B" => opening_in(fields),
        b"E" => row_in(fields, Kind::Ordinary),
        b"R" => row_in(fields, Kind::Reversal),
        b"Z" => closing_in(fields),
        _ => None,
    }
}

// What a line states, given without its LF and CR; none where it has not its form.
#[tactic(auto, unfolding(crate::specs::Reading::line_of))]
pub fn line_in(line: &[u8]) -> Option<Line>
    ensures { result ≡ line_of line.now }
{
    if !is_formed(line) {
        return None;
    }
    let mut fields = fields_of(line);
    let tag = fields.next()?;
    tagged(tag, fields)
}

// The entry of a line of an entry or a reversal, unless there is no such day or no amount; no other line has one.
fn entry_of(line: Line, place: Place) -> Option<Entry>
    ensures { result ≡ entry_of place line }
{
    let Line::Enters(row) = line else {
        return None;
    };
    Some(Entry {
        value_day: row.value_day?,
        entry_day: row.entry_day?,
        amount: row.amount?,
        kind: row.kind,
        key: row.key,
        place,
    })
}

// The entry in a line that stands at this place; none where it states none.
pub fn entry_in(line: &[u8], place: Place) -> Option<Entry>
    ensures { result ≡ entry_in place line.now }
{
    line_in(line).and_then(|stated| entry_of(stated, place))
}
