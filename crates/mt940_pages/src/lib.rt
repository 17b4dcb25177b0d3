// The pages of an MT940 statement: the order of their lines, and what each line leads to.
#![tactic(auto)]

pub mod stage;
pub mod state;
