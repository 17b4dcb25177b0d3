// The steps from two statements to a report.
// Ledger and table travel side by side: in a struct with the table lent, no proof is made of the calls that answer it (tried).
ghost use Rattle.std.specs.Prelude.{◌≡◌, ◌≤◌, length, IfOk};
ghost use Rattle.reconcile.specs.Steps.{opened_at, taken_by, folded_by, matched_by, finished_by, reconciled_of, paired, length_of, output_of};

use domain::amount::Amount;
use domain::entry::Item;
use domain::refusal::Refusal;
use ledger::ledger::Ledger;
use matching::rule::ByReference;
use report::write_report;
use source::{Head, Source};

// A ledger for both statements, opened at the bank's opening day.
#[tactic(auto, unfolding(crate::specs::Steps::opened_at))]
fn open_for(bank: &Head, book: &Head, table: &mut [Item]) -> Result<Ledger, Refusal>
    ensures { paired result table.new ≡ opened_at bank.now.opening_day bank.now.reached book.now.reached (length table.old) }
{
    let bank_opening = Amount::try_from(bank.reached)?;
    let book_opening = Amount::try_from(book.reached)?;
    Ledger::open(
        b"EUR",
        2,
        bank.opening_day,
        bank_opening,
        book_opening,
        table,
    )
}

fn take<S: Source>(ledger: Ledger, source: &mut S, table: &mut [Item]) -> Result<Ledger, Refusal>
    requires { S.Source.ready source.old }
    ensures { paired result table.new ≡ taken_by S.Origin.SIDE (S.Source.meaning source.old) (record { ledger = ledger; table = table.old }) }
{
    Ok(ledger.take(source, table)?)
}

#[tactic(auto, unfolding(crate::specs::Steps::folded_by))]
fn fold(ledger: Ledger, table: &mut [Item]) -> Result<Ledger, Refusal>
    ensures { paired result table.new ≡ folded_by (record { ledger = ledger; table = table.old }) }
{
    ledger.fold(table)?;
    Ok(ledger)
}

#[tactic(auto, unfolding(crate::specs::Steps::matched_by))]
fn match_references(ledger: Ledger, table: &mut [Item]) -> Result<Ledger, Refusal>
    ensures { paired result table.new ≡ matched_by (record { ledger = ledger; table = table.old }) }
{
    ledger.match_items(table, &ByReference)?;
    Ok(ledger)
}

// What both statements come to once they are taken: folded, matched and reported.
#[tactic(auto, unfolding(crate::specs::Steps::finished_by, crate::specs::Steps::reported_by))]
fn finish(ledger: Ledger, table: &mut [Item], out: &mut [u8]) -> Result<usize, Refusal>
    ensures answer { result ≡ length_of (finished_by (length out.old) (record { ledger = ledger; table = table.old })) }
    ensures output { out.new ≡ output_of (finished_by (length out.old) (record { ledger = ledger; table = table.old })) out.old }
    ensures within { IfOk result (λ n. n ≤ length out.old) }
{
    let ledger = fold(ledger, table)?;
    let ledger = match_references(ledger, table)?;
    write_report(&ledger, table, out)
}

// Both statements, from their heads to the report at the front of the output; answers the report's length.
#[tactic(auto, unfolding(crate::specs::Steps::reconciled_of))]
pub(crate) fn run<A: Source, B: Source>(
    bank: &mut A,
    book: &mut B,
    table: &mut [Item],
    out: &mut [u8],
) -> Result<usize, Refusal>
    requires one { A.Source.ready bank.old }
    requires two { B.Source.ready book.old }
    ensures answer { result ≡ length_of (reconciled_of A.Origin.SIDE B.Origin.SIDE (A.Source.meaning bank.old) (B.Source.meaning book.old) (length table.old) (length out.old)) }
    ensures output { out.new ≡ output_of (reconciled_of A.Origin.SIDE B.Origin.SIDE (A.Source.meaning bank.old) (B.Source.meaning book.old) (length table.old) (length out.old)) out.old }
    ensures within { IfOk result (λ n. n ≤ length out.old) }
{
    let ledger = open_for(&bank.head(), &book.head(), table)?;
    let ledger = take(ledger, bank, table)?;
    let ledger = take(ledger, book, table)?;
    finish(ledger, table, out)
}
