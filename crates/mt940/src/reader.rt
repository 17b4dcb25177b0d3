ghost use Rattle.domain.specs.declared.entry.Side.{Side};
ghost use Rattle.mt940.specs.Entries.{stated_at};
ghost use Rattle.mt940.specs.Laws.{adds, closes, starts};
ghost use Rattle.mt940.specs.Tallies.{Tallies};
ghost use Rattle.mt940.specs.Whole.{begin_for, head_of};

use crate::place::place_of;
use domain::account::Account;
use domain::entry::{Entry, Side};
use mt940_fields::movement::stated;
use mt940_pages::state::{State, begin};
use readers::Reader;
use readers::format::Format;
use readers::passage::Passage;
use source::{Head, Sided};

// What a reader goes on by: an entry, and the lines behind its :61:.
pub use readers::Found;

// A reader of MT940: `Mt940::read` reads a text, which is then a source of its entries.
pub type Mt940<'a> = Reader<'a, Mt940Format>;

// MT940 as a format of statements.
#[derive(Clone, Copy)]
pub struct Mt940Format;

impl Sided for Mt940Format {
    const SIDE: Side = Side::Bank;

    ghost SIDE = { Side.Bank };
}

impl Format for Mt940Format {
    type Scan = State;

    ghost begun = { begin_for };

    ghost said = { head_of };

    ghost stated = { stated_at };

    ghost tallies = { Tallies };

    ghost starts = { starts };

    ghost adds = { adds };

    ghost closes = { closes };

    fn begin(account: Account) -> State {
        begin(account)
    }

    fn head(end: State) -> Head {
        Head {
            number: end.at.number,
            opening_day: end.opening.day,
            closing_day: end.closing.day,
            reached: end.opening.amount.minor(),
            closing: end.closing.amount,
            count: end.count,
        }
    }

    fn entry(account: Account, passage: Passage<'_>) -> Option<Entry> {
        let m = stated(passage.line.content(), account.digits)?;
        Some(Entry {
            value_day: m.value_day,
            entry_day: m.entry_day,
            amount: m.amount,
            kind: m.kind,
            key: m.key,
            place: place_of(passage),
        })
    }
}
