// Parts of a run of bytes, which may be shorter than asked for.
ghost use Rattle.std.specs.Prelude.{◌≡◌, take, drop};
ghost use Rattle.mt940_cuts.specs.Slices.{digits_at, is_sized};

use fields::is_digits;

// The first n bytes, or all where there are fewer.
pub fn front(bytes: &[u8], n: usize) -> &[u8]
    ensures { result.now ≡ take n bytes.now }
{
    bytes.get(..n).unwrap_or(bytes)
}

// What stands behind the first n bytes.
pub fn behind(bytes: &[u8], n: usize) -> &[u8]
    ensures { result.now ≡ drop n bytes.now }
{
    bytes.get(n..).unwrap_or_default()
}

// Whether there are 1 to `most` bytes.
#[tactic(auto, unfolding(crate::specs::Slices::is_sized))]
pub fn is_sized(bytes: &[u8], most: usize) -> bool
    ensures { result ≡ is_sized most bytes.now }
{
    (1..=most).contains(&bytes.len())
}

// The first N bytes where they are digits, as a date has them.
#[tactic(auto, unfolding(crate::specs::Slices::digits_at, crate::specs::Slices::is_date))]
pub fn digits<const N: usize>(bytes: &[u8]) -> Option<[u8; N]>
    ensures { result ≡ digits_at N bytes.now }
{
    let date = *bytes.first_chunk::<N>()?;
    is_digits(&date).then_some(date)
}
