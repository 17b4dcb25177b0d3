ghost use Rattle.std.specs.Prelude.{◌≡◌, Bool, true};
ghost use Rattle.std.specs.Option.{ok_or};
ghost use Rattle.domain.specs.declared.entry.Entry.{Entry};
ghost use Rattle.domain.specs.declared.refusal.Refusal.TheVariants.{BadAmount};
ghost use Rattle.matching.specs.Rules.{by_reference, by_days as within_days, as_by_days};
ghost use Rattle.std.proofs.Common.{rules};

use domain::entry::Entry;
use domain::refusal::Refusal;

// Says of two entries whether they may pair, the bank's first, by its settings and the entries alone.
pub trait MatchRule {
    // Whether the rule permits the pair.
    ghost permits: { Self → Entry → Entry → Bool };

    // Changes nothing, and never refuses.
    fn may_pair(&self, bank: &Entry, book: &Entry) -> bool
        ensures { result ≡ permits self.now bank.now book.now };

    // Entries that may pair have equal amounts.
    ghost equal: { (s : Self) (a b : Entry) → permits s a b ≡ true → a.amount.minor ≡ b.amount.minor };
}

// Permits entries with the same key, not blank, and the same amount.
#[derive(Clone, Copy)]
pub struct ByReference;

impl MatchRule for ByReference {
    ghost permits = { λ _ a b. by_reference a b };

    ghost equal = { Prim.search rules };

    fn may_pair(&self, bank: &Entry, book: &Entry) -> bool {
        !bank.key.is_blank() && bank.key == book.key && bank.amount == book.amount
    }
}

// Permits entries with the same amount whose value days are at most `width` apart.
#[derive(Clone, Copy)]
pub struct ByDays {
    width: u8,
}

// The rule for a width from 0 to 31.
impl TryFrom<u8> for ByDays {
    type Error = Refusal;

    ghost try_from_gives = { λ width made. made ≡ ok_or (as_by_days width) BadAmount };

    fn try_from(width: u8) -> Result<ByDays, Refusal> {
        if width > 31 {
            return Err(Refusal::BadAmount);
        }
        Ok(ByDays { width })
    }
}

impl MatchRule for ByDays {
    ghost permits = { λ s a b. within_days s.width a b };

    ghost equal = { Prim.search rules };

    fn may_pair(&self, bank: &Entry, book: &Entry) -> bool {
        let apart = bank.value_day.number().abs_diff(book.value_day.number());
        apart <= u16::from(self.width) && bank.amount == book.amount
    }
}
