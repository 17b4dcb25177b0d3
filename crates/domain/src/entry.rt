use crate::amount::Amount;
use crate::day::Day;
use crate::key::Key;

// Whose account of the cash an item stands in.
#[derive(Clone, Copy, PartialEq, Eq, Debug)]
pub enum Side {
    Bank,
    Book,
}

#[derive(Clone, Copy, PartialEq, Eq, Debug)]
pub enum Kind {
    Ordinary,
    Reversal,
}

// Where in its text an entry stands: the offset of its first byte, and how many bytes it has.
#[derive(Clone, Copy, PartialEq, Eq, Debug)]
pub struct Place {
    pub offset: u32,
    pub length: u32,
}

// One movement of cash, whatever the format that carried it. Plus is money in.
#[derive(Clone, Copy, PartialEq, Eq, Debug)]
pub struct Entry {
    pub value_day: Day,
    pub entry_day: Day,
    pub amount: Amount,
    pub kind: Kind,
    pub key: Key,
    pub place: Place,
}

// An entry with its side and its group, a number as the rules have it: 0 while it is outstanding, else the smallest item number of the group.
// An item's number is its position in the item table, counted from 1.
#[derive(Clone, Copy, PartialEq, Eq, Debug)]
pub struct Item {
    pub entry: Entry,
    pub side: Side,
    pub group: u16,
}
