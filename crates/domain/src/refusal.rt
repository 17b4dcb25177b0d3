ghost use Rattle.std.specs.Prelude.{◌≡◌, Some};
ghost use Rattle.domain.specs.Refusals.{number_of};
ghost use Rattle.domain.specs.Refusing.{refused_at, refused_line};

use std::error::Error;
use std::fmt;

// Why a text or a call is refused. Where several fit, the one with the smallest number is answered.
#[derive(Clone, Copy, PartialEq, Eq, Debug)]
pub enum Refusal {
    // The line has not its form, or its tag is unknown.
    Form = 1,
    // The line is not permitted here.
    Misplaced = 2,
    // There is no such day.
    NoSuchDay = 3,
    // An amount, a number of digits or a width is out of its range, or an amount is not written as one.
    BadAmount = 4,
    // The currency is not three capitals, or is another's.
    BadCurrency = 5,
    // The number is not one from 1 to 99,999, or the page does not follow.
    BadNumber = 6,
    // The closing is not the opening plus the entries, or a page does not open where the page before closed.
    Unbalanced = 7,
    // The count stated is not the count of the entries.
    WrongCount = 9,
    // The text is too long, or the entry is one too many.
    TooMuch = 11,
    // The text ends early, or within a line.
    EndsEarly = 12,
    // The table has 0 or more than 8,192 positions, or fewer than are used.
    BadTable = 20,
    // The number is that of the side's last statement.
    NumberRepeated = 21,
    // The opening is not the side's closing.
    WrongOpening = 22,
    // The closing day is before the side's last one.
    DayBefore = 23,
    // Too few positions are free.
    NoRoom = 24,
    // The posting does not balance.
    PostingUnbalanced = 25,
    // The list has not 2 to 16 items, or repeats one.
    BadList = 26,
    // There is no such item.
    NoSuchItem = 27,
    // The item is not outstanding.
    NotOutstanding = 28,
    // The group's sums differ.
    SumsDiffer = 29,
    // There is no such set.
    NoSuchSet = 30,
    // There is no such group.
    NoSuchGroup = 31,
    // The output is too short.
    OutputShort = 32,
}

impl From<Refusal> for u8 {
    ghost from_gives = { λ why number. number ≡ number_of why };

    fn from(why: Refusal) -> u8 {
        why as u8
    }
}

// A refusal and the offset in its text of the line that it is for.
#[derive(Clone, Copy, PartialEq, Eq, Debug)]
pub struct Refused {
    pub why: Refusal,
    pub offset: usize,
}

// What is refused apart from any line, as by the ledger or before the first line, has the offset 0.
impl From<Refusal> for Refused {
    ghost from_gives = { λ why refused. refused ≡ refused_at why 0 };

    fn from(why: Refusal) -> Refused {
        Refused { why, offset: 0 }
    }
}

// The line that stands in place of a report.
impl fmt::Display for Refused {
    ghost output = { λ refused. Some (refused_line refused) };

    fn fmt<W: fmt::Write>(&self, f: &mut fmt::Formatter<W>) -> fmt::Result {
        let number = u8::from(self.why);
        let offset = self.offset;
        write!(f, "REFUSED,{number},{offset}")
    }
}

impl Error for Refused {}
