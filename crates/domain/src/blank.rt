ghost use Rattle.std.specs.Prelude.{◌≡◌};
ghost use Rattle.domain.specs.Blanks.{blank as blank_one, blank_key, day_zero, zero_amount};

use crate::amount::Amount;
use crate::day::Day;
use crate::entry::{Entry, Item, Kind, Place, Side};
use crate::key::Key;

fn no_key() -> Key
    ensures { result ≡ blank_key }
{
    Key { high: 0, low: 0 }
}

// The item that stands at a free position.
pub fn blank() -> Item
    ensures { result ≡ blank_one }
{
    let day = Day::FIRST;
    let entry = Entry {
        value_day: day,
        entry_day: day,
        amount: Amount::ZERO,
        kind: Kind::Ordinary,
        key: no_key(),
        place: Place {
            offset: 0,
            length: 0,
        },
    };
    Item {
        entry,
        side: Side::Bank,
        group: 0,
    }
}
