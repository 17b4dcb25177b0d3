ghost use Rattle.std.specs.Prelude.{◌≡◌, ◌≤◌, OnOk};
ghost use Rattle.ledger.specs.Denials.{answered, table_denied};

use crate::ledger::Ledger;
use domain::limits::MOST_ITEMS;
use domain::refusal::Refusal;

// Refuses a table of `n` positions that does not serve where `used` are in use.
pub(crate) fn check_table(n: usize, used: usize) -> Result<(), Refusal>
    ensures why { result ≡ answered (table_denied n used) tt }
    ensures room { OnOk result (used ≤ n) }
    ensures few { OnOk result (n ≤ 8192) }
{
    if !(used.max(1)..=MOST_ITEMS).contains(&n) {
        return Err(Refusal::BadTable);
    }
    Ok(())
}

impl Ledger {
    // Refuses a table of `n` positions that does not serve the ledger.
    pub fn check_table(&self, n: usize) -> Result<(), Refusal>
        ensures why { result ≡ answered (table_denied n self.now.used) tt }
        ensures room { OnOk result (self.now.used ≤ n) }
        ensures few { OnOk result (n ≤ 8192) }
    {
        check_table(n, self.used)
    }
}
