// The outstanding items of a side, counted and added.
ghost use Rattle.std.specs.Prelude.{◌≡◌};
ghost use Rattle.report.specs.Tallies.{open_count, open_sum};

use crate::subject::Report;
use domain::entry::Side;

impl<'a> Report<'a> {
    pub(crate) fn open_count(&self, side: Side) -> usize
        ensures { result ≡ open_count side self.now.items.now }
    {
        let open = self.items.iter().filter(|item| item.is_open_on(side));
        open.count()
    }

    // No `map(..).sum()`: the library gives no bound for a sum of signed numbers, so the loop's turns do.
    pub(crate) fn open_sum(&self, side: Side) -> i64
        ensures { result ≡ open_sum side self.now.items.now }
    {
        let mut sum = 0;
        for item in self.items {
            if item.is_open_on(side) {
                sum += item.entry.amount.minor();
            }
        }
        sum
    }
}
