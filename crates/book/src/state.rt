ghost use Rattle.std.specs.Prelude.{◌≡◌};
ghost use Rattle.book.specs.Judging.{begin as begun, opened_of, entered_of, closed_of, judged_of, step_of, is_done};
ghost use Rattle.book.specs.Sizes.{Sound};

use book_lines::line::{Closing, Line, Opening, Row};
use book_lines::reading::line_in;
use domain::amount::Amount;
use domain::balance::Balance;
use domain::currency::Currency;
use domain::day::Day;
use domain::limits::{MOST_ENTRIES, is_number};
use domain::refusal::Refusal;
use text::Reading;

// The opening line comes first, then the entries, then the closing line, and nothing after it.
#[derive(Clone, Copy, PartialEq, Eq)]
pub enum Stage {
    Start,
    Within,
    Done,
}

// What has been read of a cash book in this currency: what its opening and closing lines say, as far as they have come,
// how many entries there were, and the opening plus their amounts.
#[derive(Clone, Copy)]
pub struct State {
    pub(crate) currency: Currency,
    pub(crate) stage: Stage,
    pub(crate) number: u32,
    pub(crate) opening: Balance,
    pub(crate) sum: i64,
    pub(crate) count: usize,
    pub(crate) closing: Balance,
}

// Before the first line.
pub(crate) fn begin(currency: Currency) -> State
    ensures { result ≡ begun currency }
{
    let blank = Balance {
        day: Day::FIRST,
        amount: Amount::ZERO,
    };
    State {
        currency,
        stage: Stage::Start,
        number: 0,
        opening: blank,
        sum: 0,
        count: 0,
        closing: blank,
    }
}

impl State {
    // What an opening line leads to. Here and below the tests stand in the order of the refusals' numbers.
    fn opened(self, line: Opening) -> Result<State, Refusal>
        ensures { result ≡ opened_of self line }
    {
        if self.stage != Stage::Start {
            return Err(Refusal::Misplaced);
        }
        let opening = Balance {
            day: line.day.ok_or(Refusal::NoSuchDay)?,
            amount: line.amount.ok_or(Refusal::BadAmount)?,
        };
        if line.currency != Some(self.currency) {
            return Err(Refusal::BadCurrency);
        }
        if !is_number(line.number) {
            return Err(Refusal::BadNumber);
        }
        Ok(State {
            stage: Stage::Within,
            number: line.number,
            opening,
            sum: opening.amount.minor(),
            count: 0,
            ..self
        })
    }

    // What the line of an entry or a reversal leads to.
    fn entered(self, line: Row) -> Result<State, Refusal>
        requires { Sound self }
        ensures { result ≡ entered_of self line }
    {
        if self.stage != Stage::Within {
            return Err(Refusal::Misplaced);
        }
        line.value_day.ok_or(Refusal::NoSuchDay)?;
        line.entry_day.ok_or(Refusal::NoSuchDay)?;
        let amount = line.amount.ok_or(Refusal::BadAmount)?;
        if self.count >= MOST_ENTRIES {
            return Err(Refusal::TooMuch);
        }
        Ok(State {
            sum: self.sum + amount.minor(),
            count: self.count + 1,
            ..self
        })
    }

    // What a closing line leads to.
    fn closed(self, line: Closing) -> Result<State, Refusal>
        ensures { result ≡ closed_of self line }
    {
        if self.stage != Stage::Within {
            return Err(Refusal::Misplaced);
        }
        let closing = Balance {
            day: line.day.ok_or(Refusal::NoSuchDay)?,
            amount: line.amount.ok_or(Refusal::BadAmount)?,
        };
        if closing.amount.minor() != self.sum {
            return Err(Refusal::Unbalanced);
        }
        if line.count as usize != self.count {
            return Err(Refusal::WrongCount);
        }
        Ok(State {
            stage: Stage::Done,
            closing,
            ..self
        })
    }

    // What a line leads to.
    fn judged(self, line: Line) -> Result<State, Refusal>
        requires { Sound self }
        ensures { result ≡ judged_of self line }
    {
        match line {
            Line::Opens(opening) => self.opened(opening),
            Line::Enters(row) => self.entered(row),
            Line::Closes(closing) => self.closed(closing),
        }
    }
}

impl Reading for State {
    ghost stepped = { step_of };

    ghost complete = { is_done };

    ghost sound = { Sound };

    fn step(self, line: &[u8]) -> Result<State, Refusal> {
        self.judged(line_in(line).ok_or(Refusal::Form)?)
    }

    fn is_complete(&self) -> bool {
        self.stage == Stage::Done
    }
}
