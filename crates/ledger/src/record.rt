ghost use Rattle.std.specs.Prelude.{◌≡◌};
ghost use Rattle.ledger.specs.Headings.{heading_of};
ghost use Rattle.ledger.specs.Records.{new_record};

use domain::amount::Amount;
use domain::day::Day;
use domain::entry::Side;
use source::Head;

// What a statement is taken in by: its side, its number, its closing day and its opening, in minor units.
// A source's opening is the balance it has reached, which need be no amount; then it is no side's closing.
#[derive(Clone, Copy)]
pub(crate) struct Heading {
    pub(crate) side: Side,
    pub(crate) number: u32,
    pub(crate) closing_day: Day,
    pub(crate) opening: i64,
}

impl Heading {
    // What remains of a source's statement.
    pub(crate) fn of_head(side: Side, head: &Head) -> Heading
        ensures { result ≡ heading_of side head.now }
    {
        Heading {
            side,
            number: head.number,
            closing_day: head.closing_day,
            opening: head.reached,
        }
    }
}

// What the ledger keeps of one side.
#[derive(Clone, Copy)]
pub struct SideRecord {
    // The first opening.
    pub(crate) opening: Amount,
    // The closing of the last statement, at first the opening.
    pub(crate) closing: Amount,
    // The number of the last statement, at first 0, as the rules have it; no statement has that number.
    pub(crate) number: u32,
    // The closing day of the last statement, at first the ledger's first day.
    pub(crate) last_day: Day,
}

impl SideRecord {
    // A side before its first statement.
    pub(crate) fn new(opening: Amount, first_day: Day) -> SideRecord
        ensures { result ≡ new_record opening first_day }
    {
        SideRecord {
            opening,
            closing: opening,
            number: 0,
            last_day: first_day,
        }
    }

    pub fn opening(self) -> Amount
        ensures { result ≡ self.opening }
    {
        self.opening
    }

    pub fn closing(self) -> Amount
        ensures { result ≡ self.closing }
    {
        self.closing
    }

    pub fn number(self) -> u32
        ensures { result ≡ self.number }
    {
        self.number
    }

    pub fn last_day(self) -> Day
        ensures { result ≡ self.last_day }
    {
        self.last_day
    }
}
