// The values that statements, ledgers and reports are made of.
#![tactic(auto)]

pub mod account;
pub mod amount;
pub mod balance;
pub mod blank;
pub mod currency;
pub mod day;
pub mod digits;
pub mod entry;
pub mod item;
pub mod key;
pub mod limits;
pub mod reference;
pub mod refusal;
