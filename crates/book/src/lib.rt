// The cash book as a format: what each of its lines leads to, and the entry that it states.
#![tactic(auto)]

pub mod cash_book;
mod state;
