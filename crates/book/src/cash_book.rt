ghost use Rattle.domain.specs.declared.entry.Side.{Side};
ghost use Rattle.book.specs.Laws.{starts, adds, closes};
ghost use Rattle.book.specs.Tallies.{Tallies};
ghost use Rattle.book.specs.Whole.{begin_for, head_of, stated_at};

use crate::state::{State, begin};
use book_lines::reading::entry_in;
use domain::account::Account;
use domain::entry::{Entry, Place, Side};
use readers::Reader;
use readers::format::Format;
use readers::passage::Passage;
use source::{Head, Sided};

// A reader of cash books: `CashBook::read` reads a text, which is then a source of its entries.
pub type CashBook<'a> = Reader<'a, BookFormat>;

// The cash book as a format of statements.
#[derive(Clone, Copy)]
pub struct BookFormat;

impl Sided for BookFormat {
    const SIDE: Side = Side::Book;

    ghost SIDE = { Side.Book };
}

impl Format for BookFormat {
    type Scan = State;

    ghost begun = { begin_for };

    ghost said = { head_of };

    ghost stated = { stated_at };

    ghost tallies = { λ account. Tallies };

    ghost starts = { starts };

    ghost adds = { adds };

    ghost closes = { closes };

    fn begin(account: Account) -> State {
        begin(account.currency)
    }

    // Stays beside MT940's: it names fields of this format's own state, and a trait to read both states by would say each field three times.
    fn head(end: State) -> Head {
        Head {
            number: end.number,
            opening_day: end.opening.day,
            closing_day: end.closing.day,
            reached: end.opening.amount.minor(),
            closing: end.closing.amount,
            count: end.count,
        }
    }

    fn entry(_account: Account, passage: Passage<'_>) -> Option<Entry> {
        let content = passage.line.content();
        let place = Place {
            offset: passage.line.at as u32,
            length: content.len() as u32,
        };
        entry_in(content, place)
    }
}
