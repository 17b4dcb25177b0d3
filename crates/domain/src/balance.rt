use crate::amount::Amount;
use crate::day::Day;

// An amount on a day, as a statement opens or closes with it.
#[derive(Clone, Copy, PartialEq, Eq, Debug)]
pub struct Balance {
    pub day: Day,
    pub amount: Amount,
}
