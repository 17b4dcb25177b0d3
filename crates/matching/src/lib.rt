// Which items may pair, and what forms groups among the items of a table.
#![tactic(auto)]

pub mod clearing;
pub mod grouping;
pub mod rule;
