ghost use Rattle.std.specs.Prelude.{◌≤◌, length};
ghost use Rattle.domain.specs.declared.limits.TheConstants.{MOST_ITEMS};

use domain::entry::Item;
use ledger::ledger::Ledger;

// A ledger and the items in use, which a report is made of.
#[derive(Clone, Copy)]
pub(crate) struct Report<'a> {
    pub(crate) ledger: &'a Ledger,
    pub(crate) items: &'a [Item],
    ghost few: { length items.now ≤ MOST_ITEMS },
}
