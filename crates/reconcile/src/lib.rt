// From two texts to a report.
#![tactic(auto)]

ghost use Rattle.std.specs.Prelude.{◌≡◌, ◌≤◌, length, IfOk, Ok, Err, cond, nat_lt};
ghost use Rattle.domain.specs.declared.refusal.Refusal.TheVariants.{TooMuch};
ghost use Rattle.reconcile.specs.Texts.{recon_of, length_in, output_in};

use book::cash_book::CashBook;
use domain::entry::Item;
use domain::refusal::{Refusal, Refused};
use mt940::reader::Mt940;
use steps::run;

mod steps;

// How many bytes each text may have.
pub const LONGEST: usize = 32_768;

fn check_length(text: &[u8]) -> Result<(), Refusal>
    ensures { result ≡ cond (nat_lt LONGEST (length text.now)) (Err TooMuch) (Ok tt) }
{
    if text.len() > LONGEST {
        return Err(Refusal::TooMuch);
    }
    Ok(())
}

// Reads an MT940 statement and a cash book, both in EUR with 2 digits, opens a ledger for them over the table, takes both, folds,
// matches by reference, and writes the report at the front of the output. Answers the report's length, or the first refusal with its
// offset: that of a reader's line, or 0 where a text is longer than 32,768 bytes or the ledger refuses.
#[tactic(auto, unfolding(crate::specs::Texts::recon_of, crate::specs::Texts::bank_of, crate::specs::Texts::book_of))]
pub fn reconcile(
    bank: &[u8],
    book: &[u8],
    table: &mut [Item],
    out: &mut [u8],
) -> Result<usize, Refused>
    ensures answer { result ≡ length_in (recon_of bank.now book.now (length table.old) (length out.old)) }
    ensures output { out.new ≡ output_in (recon_of bank.now book.now (length table.old) (length out.old)) out.old }
    ensures within { IfOk result (λ n. n ≤ length out.old) }
{
    check_length(bank)?;
    let mut bank_source = Mt940::read(bank, b"EUR", 2)?;
    check_length(book)?;
    let mut book_source = CashBook::read(book, b"EUR", 2)?;
    Ok(run(&mut bank_source, &mut book_source, table, out)?)
}
