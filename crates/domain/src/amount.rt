ghost use Rattle.std.specs.Prelude.{◌≡◌, neg_ℤ};
ghost use Rattle.domain.specs.Limits.{InAmount};

use std::ops::Neg;

// A whole number of minor units, from -99,999,999,999,999 to 99,999,999,999,999.
#[derive(Clone, Copy, PartialEq, Eq, PartialOrd, Ord, Debug)]
pub struct Amount {
    pub(crate) minor: i64,
    ghost within: { InAmount minor },
}

impl Amount {
    pub const ZERO: Amount = Amount { minor: 0 };

    pub fn minor(self) -> i64
        ensures { result ≡ self.minor }
    {
        self.minor
    }
}

// As much money the other way.
impl Neg for Amount {
    type Output = Amount;

    ghost neg_gives = { λ amount other. other.minor ≡ neg_ℤ amount.minor };

    fn neg(self) -> Amount {
        Amount { minor: -self.minor }
    }
}
