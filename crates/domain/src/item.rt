ghost use Rattle.std.specs.Prelude.{◌≡◌};
ghost use Rattle.domain.specs.Items.{open_on, outstanding, outstanding_item};

use crate::entry::{Entry, Item, Side};

impl Item {
    // An entry that no group has.
    pub fn new(entry: Entry, side: Side) -> Item
        ensures { result ≡ outstanding_item side entry }
    {
        Item {
            entry,
            side,
            group: 0,
        }
    }

    pub fn is_outstanding(&self) -> bool
        ensures { result ≡ outstanding self.now }
    {
        self.group == 0
    }

    // Whether it is outstanding, and of this side.
    pub fn is_open_on(&self, side: Side) -> bool
        ensures { result ≡ open_on side self.now }
    {
        self.side == side && self.is_outstanding()
    }
}
