// The lines of a cash book: what each states, as far as it has its form.
#![tactic(auto)]

pub mod line;
mod parts;
pub mod reading;
