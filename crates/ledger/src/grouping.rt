ghost use Rattle.std.specs.Prelude.{◌≡◌, length};
ghost use Rattle.matching.specs.Folding.{folded, folds as fold_count};
ghost use Rattle.matching.specs.Matching.{matched, matches as match_count};
ghost use Rattle.ledger.specs.Denials.{table_denied, answered, unless};
ghost use Rattle.ledger.specs.Groupings.{live, on_live};

use crate::ledger::Ledger;
use domain::entry::Item;
use domain::refusal::Refusal;
use matching::grouping::{fold_all, match_all};
use matching::rule::MatchRule;

impl Ledger {
    // Folds the items in use: each outstanding reversal, by number, forms a group with the highest-numbered outstanding ordinary item
    // before it, of its side, with the same key (not blank) and the opposite amount. Answers how many groups it formed.
    pub fn fold(&self, table: &mut [Item]) -> Result<usize, Refusal>
        ensures answer { result ≡ answered (table_denied (length table.old) self.now.used) (fold_count (live self.now table.old)) }
        ensures table { table.new ≡ unless (table_denied (length table.old) self.now.used) (on_live folded self.now table.old) table.old }
    {
        self.check_table(table.len())?;
        Ok(fold_all(&mut table[..self.used]))
    }

    // Matches the items in use: each outstanding bank item, by number, is paired with the lowest-numbered outstanding book item that
    // the rule permits, if any. Answers how many pairs it made.
    pub fn match_items<R: MatchRule>(&self, table: &mut [Item], rule: &R) -> Result<usize, Refusal>
        ensures answer { result ≡ answered (table_denied (length table.old) self.now.used) (match_count (R.MatchRule.permits rule.now) (live self.now table.old)) }
        ensures table { table.new ≡ unless (table_denied (length table.old) self.now.used) (on_live (matched (R.MatchRule.permits rule.now)) self.now table.old) table.old }
    {
        self.check_table(table.len())?;
        Ok(match_all(&mut table[..self.used], rule))
    }
}
