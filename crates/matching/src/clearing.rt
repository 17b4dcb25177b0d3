ghost use Rattle.std.specs.Prelude.{◌≡◌, length, replicate};
ghost use Rattle.domain.specs.Blanks.{blank as blank_item};

use domain::blank::blank;
use domain::entry::Item;

// Makes every item blank.
pub fn clear(items: &mut [Item])
    ensures { items.new ≡ replicate (length items.old) blank_item }
{
    items.fill(blank());
}
