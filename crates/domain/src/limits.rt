ghost use Rattle.std.specs.Prelude.{◌≡◌};
ghost use Rattle.domain.specs.Limits.{is_number};

// How many entries a statement may have.
pub const MOST_ENTRIES: usize = 4096;

// How many positions an item table may have.
pub const MOST_ITEMS: usize = 8192;

// Whether a statement may have this number: 1 to 99,999.
pub fn is_number(number: u32) -> bool
    ensures { result ≡ is_number number }
{
    (1..=99_999).contains(&number)
}
