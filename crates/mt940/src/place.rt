ghost use Rattle.std.specs.Prelude.{◌≡◌};
ghost use Rattle.text.specs.Left.{lines_left, shown};
ghost use Rattle.mt940.specs.Entries.{place_of};

use domain::entry::Place;
use mt940_cuts::tag::continues;
use readers::passage::Passage;

// The place of an entry: its line and those behind it that go on with it, the last line end not counted.
pub(crate) fn place_of(passage: Passage<'_>) -> Place
    ensures { result ≡ place_of (shown passage.entry.line) (lines_left passage.entry.behind) }
{
    let line = passage.line;
    let mut end = line.end();
    for next in passage.behind {
        if !continues(next.content()) {
            break;
        }
        end = next.end();
    }
    Place {
        offset: line.at as u32,
        length: (end - line.at) as u32,
    }
}
