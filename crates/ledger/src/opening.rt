ghost use Rattle.std.specs.Prelude.{◌≡◌, length, replicate};
ghost use Rattle.domain.specs.Blanks.{blank};
ghost use Rattle.ledger.specs.Records.{opened, if_ok};

use crate::ledger::Ledger;
use crate::record::SideRecord;
use crate::table::check_table;
use domain::account::Account;
use domain::amount::Amount;
use domain::day::Day;
use domain::entry::Item;
use domain::refusal::Refusal;
use matching::clearing::clear;

impl Ledger {
    // A ledger with nothing posted, and every position of the table blank.
    pub fn open(
        currency: &[u8],
        digits: u8,
        first_day: Day,
        bank: Amount,
        book: Amount,
        table: &mut [Item],
    ) -> Result<Ledger, Refusal>
        ensures answer { result ≡ opened currency.now digits first_day bank book (length table.old) }
        ensures table { table.new ≡ if_ok result (replicate (length table.old) blank) table.old }
    {
        let account = Account::new(currency, digits)?;
        check_table(table.len(), 0)?;
        clear(table);
        Ok(Ledger {
            account,
            first_day,
            used: 0,
            bank: SideRecord::new(bank, first_day),
            book: SideRecord::new(book, first_day),
        })
    }
}
