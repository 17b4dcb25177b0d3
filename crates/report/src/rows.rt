// The lines of a report.
ghost use Rattle.std.specs.Prelude.{◌≡◌};
ghost use Rattle.report.specs.Outputs.{text_of};
ghost use Rattle.report.specs.Rows.{currency_row, difference_row, item_row, side_row, side_tag};
ghost use Rattle.report.specs.Tallies.{total_row};

use crate::line::{Line, until_zero};
use crate::subject::Report;
use domain::account::Account;
use domain::amount::Amount;
use domain::entry::{Item, Side};
use itoa::Buffer;
use ledger::record::SideRecord;

// R: currency and digits.
pub(crate) fn currency_row(account: Account) -> Line
    ensures { text_of result ≡ currency_row account }
{
    let mut count = Buffer::new();
    Line::row(
        b'R',
        &[
            &account.currency.code(),
            count.format(account.digits.count()).as_bytes(),
        ],
    )
}

// D: first bank opening less first book opening.
pub(crate) fn difference_row(bank: Amount, book: Amount) -> Line
    ensures { text_of result ≡ difference_row bank book }
{
    let mut difference = Buffer::new();
    Line::row(
        b'D',
        &[difference.format(bank.minor() - book.minor()).as_bytes()],
    )
}

// No `From<Side> for u8`: the tag is the report's, and an `impl` for it could stand only in `domain`.
fn side_tag(side: Side) -> u8
    ensures { result ≡ side_tag side }
{
    match side {
        Side::Bank => b'B',
        Side::Book => b'H',
    }
}

// B or H: last number, last closing day, closing.
pub(crate) fn side_row(side: Side, kept: SideRecord) -> Line
    ensures { text_of result ≡ side_row (side_tag side) kept }
{
    let mut number = Buffer::new();
    let mut closing = Buffer::new();
    Line::row(
        side_tag(side),
        &[
            number.format(kept.number()).as_bytes(),
            &calendar::written(kept.last_day()),
            closing.format(kept.closing().minor()).as_bytes(),
        ],
    )
}

// O: B or H, item number, value day, amount, reference.
#[tactic(auto, unfolding(domain::specs::Keys::printed_key))]
pub(crate) fn item_row(number: usize, item: &Item) -> Line
    ensures { text_of result ≡ item_row number item.now }
{
    let mut numbers = Buffer::new();
    let mut amount = Buffer::new();
    Line::row(
        b'O',
        &[
            &[side_tag(item.side)],
            numbers.format(number).as_bytes(),
            &calendar::written(item.entry.value_day),
            amount.format(item.entry.amount.minor()).as_bytes(),
            until_zero(&item.entry.key.bytes()),
        ],
    )
}

impl<'a> Report<'a> {
    // T: open items and their sum, bank then book.
    pub(crate) fn total_row(&self) -> Line
        ensures { text_of result ≡ total_row self.now.items.now }
    {
        let mut bank_count = Buffer::new();
        let mut bank_sum = Buffer::new();
        let mut book_count = Buffer::new();
        let mut book_sum = Buffer::new();
        Line::row(
            b'T',
            &[
                bank_count.format(self.open_count(Side::Bank)).as_bytes(),
                bank_sum.format(self.open_sum(Side::Bank)).as_bytes(),
                book_count.format(self.open_count(Side::Book)).as_bytes(),
                book_sum.format(self.open_sum(Side::Book)).as_bytes(),
            ],
        )
    }
}
