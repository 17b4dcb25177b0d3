// MT940 as a format: the entry that a line states, and the place of its lines.
#![tactic(auto)]

mod place;
pub mod reader;
