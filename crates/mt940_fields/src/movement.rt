// What a :61: says of its entry.
ghost use Rattle.std.specs.Prelude.{◌≡◌};
ghost use Rattle.mt940_cuts.specs.Cuts.{shown, shown_date};
ghost use Rattle.mt940_fields.specs.Movements.{entered_on, movement_of, stated_in};

use crate::sign::amount_in;
use calendar::{day_in, entry_day};
use domain::amount::Amount;
use domain::day::Day;
use domain::digits::Digits;
use domain::entry::Kind;
use domain::key::Key;
use domain::refusal::Refusal;
use mt940_cuts::cutting::{Parts, cut};
use mt940_cuts::tag::{Field, Tag, tagged};

// All that an entry has but its place. It is no `Entry`, since a line does not know where in its text it stands.
#[derive(Clone, Copy)]
pub struct Movement {
    pub value_day: Day,
    pub entry_day: Day,
    pub amount: Amount,
    pub kind: Kind,
    pub key: Key,
}

// The entry day: that of the entry date, or the value day where there is none.
fn entered_on(value_date: &[u8], entry_date: Option<&[u8]>, value_day: Day) -> Option<Day>
    ensures { result ≡ entered_on value_date.now (shown_date entry_date.entry) value_day }
{
    match entry_date {
        Some(month_day) => entry_day(value_date, month_day),
        None => Some(value_day),
    }
}

// What a :61: that has its form says of its entry: its days and its amount.
#[tactic(auto, unfolding(crate::specs::Movements::movement_of))]
pub fn movement_in(parts: Parts<'_>, digits: Digits) -> Result<Movement, Refusal>
    ensures { result ≡ movement_of digits (shown parts.entry) }
{
    let value_day = day_in(parts.value_date).ok_or(Refusal::NoSuchDay)?;
    let entry_day = entered_on(parts.value_date, parts.entry_date, value_day).ok_or(
        Refusal::NoSuchDay,
    )?;
    let amount = amount_in(parts.run, parts.mark, digits)?;
    Ok(Movement {
        value_day,
        entry_day,
        amount,
        kind: Kind::from(parts.mark),
        key: parts.key,
    })
}

// What a line states of an entry, or none where it states none.
#[tactic(auto, unfolding(crate::specs::Movements::stated_in))]
pub fn stated(line: &[u8], digits: Digits) -> Option<Movement>
    ensures { result ≡ stated_in digits line.now }
{
    let Field { tag, body } = tagged(line)?;
    if tag != Tag::Entry {
        return None;
    }
    movement_in(cut(body)?, digits).ok()
}
