// How the lines of MT940 are cut: tags, marks, and the parts of a :61:.
#![tactic(auto)]

pub mod cutting;
pub mod mark;
pub mod slices;
pub mod tag;
