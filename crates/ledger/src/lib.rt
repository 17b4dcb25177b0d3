// The ledger of open items: statements are taken in, and what is outstanding is folded and matched.
// The item table is the caller's, and lent at each call. A refused call changes nothing.
#![tactic(auto)]

pub mod denied;
pub mod grouping;
pub mod intake;
pub mod ledger;
pub mod opening;
mod posting;
pub mod record;
mod table;
pub mod taking;
