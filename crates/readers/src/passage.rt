ghost use Rattle.std.specs.Prelude.{◌∷◌};
ghost use Rattle.text.specs.Left.{lines_left, shown};
ghost use Rattle.readers.specs.declared.passage.TheConstants.{LONGEST};
ghost use Rattle.readers.specs.Within.{Within, Within-prop};

use text::Lines;
use text::line::Line;

// How many bytes a text may have, by the rules of the formats. The whole job has a smaller limit of its own, `reconcile::LONGEST`.
pub const LONGEST: usize = 1_048_576;

// A line of a text that is not too long, and the lines behind it.
#[derive(Clone, Copy)]
pub struct Passage<'a> {
    pub line: Line<'a>,
    pub behind: Lines<'a>,
    ghost within: { Within LONGEST (shown line ∷ lines_left behind) } by { Within-prop LONGEST (shown line ∷ lines_left behind) },
}
