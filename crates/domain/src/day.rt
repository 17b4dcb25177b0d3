ghost use Rattle.std.specs.Prelude.{◌≡◌, ◌≤◌};

// A day, counted from 1 January 1980, which is 0, to 31 December 2079, which is 36,524.
#[derive(Clone, Copy, PartialEq, Eq, PartialOrd, Ord, Debug)]
pub struct Day {
    pub(crate) number: u16,
    ghost within: { number ≤ 36524 },
}

impl Day {
    pub const FIRST: Day = Day { number: 0 };

    pub fn number(self) -> u16
        ensures { result ≡ self.number }
    {
        self.number
    }
}
