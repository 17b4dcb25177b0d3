// How the fields of MT940 are judged: signs, numbers, balances and entries.
#![tactic(auto)]

pub mod balance;
pub mod movement;
pub mod number;
pub mod sign;
