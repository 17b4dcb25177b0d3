// The marks of balances and entries.
ghost use Rattle.std.specs.Prelude.{◌≡◌, ◌≤◌, IfSome};
ghost use Rattle.mt940_cuts.specs.Marks.{kind_of, mark_of};

use domain::entry::Kind;

// C, D, RC and RD.
#[derive(Clone, Copy, PartialEq, Eq, Debug)]
pub enum Mark {
    Credit,
    Debit,
    CreditReversed,
    DebitReversed,
}

// Whether an entry of this mark reverses another.
impl From<Mark> for Kind {
    ghost from_gives = { λ mark kind. kind ≡ kind_of mark };

    fn from(mark: Mark) -> Kind {
        match mark {
            Mark::Credit | Mark::Debit => Kind::Ordinary,
            Mark::CreditReversed | Mark::DebitReversed => Kind::Reversal,
        }
    }
}

// The mark at the front, and how many bytes it has.
#[tactic(auto, unfolding(crate::specs::Marks::mark_of, crate::specs::Slices::starts_with))]
pub fn mark_of(bytes: &[u8]) -> Option<(Mark, usize)>
    ensures is { result ≡ mark_of bytes.now }
    ensures small { IfSome result (λ p. p.1 ≤ 2) }
{
    match bytes {
        [b'C', ..] => Some((Mark::Credit, 1)),
        [b'D', ..] => Some((Mark::Debit, 1)),
        [b'R', b'C', ..] => Some((Mark::CreditReversed, 2)),
        [b'R', b'D', ..] => Some((Mark::DebitReversed, 2)),
        _ => None,
    }
}
