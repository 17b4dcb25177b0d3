// The report on a ledger: what stands on both sides, and every outstanding item.
#![tactic(auto)]

ghost use Rattle.std.specs.Prelude.{◌≡◌, ◌≤◌, length, IfOk};
ghost use Rattle.ledger.specs.Denials.{answered, unless};
ghost use Rattle.report.specs.Outputs.{put};
ghost use Rattle.report.specs.Reports.{report_denied, report_of};

use domain::entry::Item;
use domain::refusal::Refusal;
use ledger::ledger::Ledger;
use subject::Report;

mod line;
mod lines;
mod rows;
mod subject;
mod tally;

// The report at the front of the output, which stays as it was behind it; answers its length.
pub fn write_report(ledger: &Ledger, table: &[Item], out: &mut [u8]) -> Result<usize, Refusal>
    ensures answer { result ≡ answered (report_denied ledger.now table.now (length out.old)) (length (report_of ledger.now table.now)) }
    ensures output { out.new ≡ unless (report_denied ledger.now table.now (length out.old)) (put (report_of ledger.now table.now) out.old) out.old }
    ensures within { IfOk result (λ n. n ≤ length out.old) }
{
    ledger.check_table(table.len())?;
    let report = Report {
        ledger,
        items: &table[..ledger.used()],
    };
    if out.len() < report.length() {
        return Err(Refusal::OutputShort);
    }
    Ok(report.put(out))
}
