// Where entries come from: the interface that every statement format meets, and that all else is proved against.
#![tactic(auto)]

ghost use Rattle.std.specs.Prelude.{◌≡◌};
ghost use Rattle.domain.specs.declared.entry.Side.{Side};
ghost use Rattle.source.specs.Statement.{Statement, Lawful, HeadOf, first_of, moved};

use domain::amount::Amount;
use domain::day::Day;
use domain::entry::{Entry, Side};

// All that a source says but its entries, and how many of these remain.
#[derive(Clone, Copy, PartialEq, Eq, Debug)]
pub struct Head {
    pub number: u32,
    pub opening_day: Day,
    pub closing_day: Day,
    pub reached: i64,
    pub closing: Amount,
    pub count: usize,
}

// What has a side.
pub trait Sided {
    const SIDE: Side;

    // The same, as clauses name it.
    ghost SIDE: { Side };
}

// A statement that is fetched entry by entry.
pub trait Source {
    // Where it comes from, as its format, whose constant is its side. The constant stands at a type of its own, since of a constant at a type
    // with a lifetime, as a reader is, the check knows nothing.
    type Origin: Sided;

    // What the source means now.
    ghost meaning: { Self → Statement };

    // What each making promises, and each call asks and keeps.
    ghost ready: { Self → Type 0 };

    // Changes nothing, and never refuses.
    fn head(&self) -> Head
        requires { ready self.now }
        ensures { HeadOf (meaning self.now) result };

    // The first entry that remains, which is then gone, its amount added to the balance reached; or none, and then nothing moves.
    fn next(&mut self) -> Option<Entry>
        requires { ready self.old }
        ensures again { ready self.new }
        ensures first { result ≡ first_of (meaning self.old) }
        ensures moves { meaning self.new ≡ moved (meaning self.old) };

    // The law, which each source shows of itself.
    ghost lawful: { (s : Self) → ready s → Lawful (meaning s) };
}
