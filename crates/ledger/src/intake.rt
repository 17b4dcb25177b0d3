ghost use Rattle.std.specs.Prelude.{◌≡◌, ◌<◌, ◌≤◌, length, OnOk};
ghost use Rattle.ledger.specs.Denials.{answered, handed, unless};
ghost use Rattle.ledger.specs.Intakes.{begin_denied, begun, enter_denied, entered, entered_table, post_denied, posted_ledger, withdraw_denied, withdrawn_table};

use crate::denied::Denied;
use crate::ledger::Ledger;
use crate::record::Heading;
use crate::table::check_table;
use domain::amount::Amount;
use domain::day::Day;
use domain::entry::{Entry, Item, Side};
use domain::limits::{MOST_ENTRIES, is_number};
use domain::refusal::Refusal;
use matching::clearing::clear;

// A ledger with an open intake, which takes only entries, a posting or a withdrawal.
// It has no `Drop`: an intake that was begun is posted or withdrawn, and the check refuses to let one go.
pub struct Intake {
    // The ledger as it was before.
    pub(crate) ledger: Ledger,
    pub(crate) heading: Heading,
    // The opening plus the amounts entered.
    pub(crate) reached: i64,
    // How many positions of the table are in use, with those entered.
    pub(crate) filled: usize,
}

impl Ledger {
    fn check_begin(&self, n: usize, heading: &Heading) -> Result<(), Refusal>
        ensures { result ≡ answered (begin_denied self.now n heading.now.side heading.now.number heading.now.closing_day heading.now.opening) tt }
    {
        if !is_number(heading.number) {
            return Err(Refusal::BadNumber);
        }
        self.check_table(n)?;
        self.record_of(heading.side).check_follows(heading)
    }

    fn start(self, heading: Heading) -> Intake
        ensures { result ≡ begun self heading.side heading.number heading.closing_day heading.opening }
    {
        Intake {
            filled: self.used,
            ledger: self,
            heading,
            reached: heading.opening,
        }
    }

    // Begins an intake of a statement, which must follow the side's last one. What is given is listed here, as the rules list it.
    #[tactic(auto, using(crate::proofs::Answering::handed_by))]
    pub fn begin(
        self,
        table: &[Item],
        side: Side,
        number: u32,
        closing_day: Day,
        opening: Amount,
    ) -> Result<Intake, Denied<Ledger>>
        ensures { result ≡ handed (begin_denied self (length table.now) side number closing_day opening.minor) (begun self side number closing_day opening.minor) self }
    {
        let heading = Heading {
            side,
            number,
            closing_day,
            opening: opening.minor(),
        };
        if let Err(why) = self.check_begin(table.len(), &heading) {
            return Err(Denied { given: self, why });
        }
        Ok(self.start(heading))
    }
}

impl Intake {
    // Refuses a table of `n` positions that lacks some that are filled, and (as no begin makes it) an intake with fewer filled than
    // its ledger uses.
    fn check_table(&self, n: usize) -> Result<(), Refusal>
        ensures why { result ≡ answered (withdraw_denied self.now n) tt }
        ensures filled { OnOk result (self.now.filled ≤ n) }
        ensures used { OnOk result (self.now.ledger.used ≤ self.now.filled) }
    {
        check_table(n, self.filled)?;
        if self.filled < self.ledger.used {
            return Err(Refusal::BadTable);
        }
        Ok(())
    }

    fn check_enter(&self, n: usize) -> Result<(), Refusal>
        ensures why { result ≡ answered (enter_denied self.now n) tt }
        ensures free { OnOk result (self.now.filled < n) }
    {
        if self.filled.saturating_sub(self.ledger.used) >= MOST_ENTRIES {
            return Err(Refusal::TooMuch);
        }
        self.check_table(n)?;
        if n <= self.filled {
            return Err(Refusal::NoRoom);
        }
        Ok(())
    }

    // Adds one entry, outstanding, at the next position.
    #[tactic(auto, using(crate::proofs::Answering::unless_by))]
    pub fn enter(&mut self, table: &mut [Item], entry: Entry) -> Result<(), Refusal>
        ensures answer { result ≡ answered (enter_denied self.old (length table.old)) tt }
        ensures intake { self.new ≡ unless (enter_denied self.old (length table.old)) (entered self.old entry) self.old }
        ensures table { table.new ≡ unless (enter_denied self.old (length table.old)) (entered_table self.old entry table.old) table.old }
    {
        self.check_enter(table.len())?;
        table[self.filled] = Item::new(entry, self.heading.side);
        self.filled += 1;
        // From an amount, 4,096 amounts never lead to the end of the range.
        self.reached = self.reached.saturating_add(entry.amount.minor());
        Ok(())
    }

    fn check_post(&self, n: usize, closing: Amount) -> Result<(), Refusal>
        ensures { result ≡ answered (post_denied self.now n closing) tt }
    {
        self.check_table(n)?;
        if closing.minor() != self.reached {
            return Err(Refusal::PostingUnbalanced);
        }
        Ok(())
    }

    // Posts the statement, whose closing must be the opening plus the amounts entered.
    pub fn post(self, table: &[Item], closing: Amount) -> Result<Ledger, Denied<Intake>>
        ensures { result ≡ handed (post_denied self (length table.now) closing) (posted_ledger self closing) self }
    {
        if let Err(why) = self.check_post(table.len(), closing) {
            return Err(Denied { given: self, why });
        }
        let Intake {
            ledger,
            heading,
            reached: _,
            filled,
        } = self;
        Ok(ledger.settle(heading, closing, filled))
    }

    // Makes the positions filled since begin blank, and gives back the ledger as it was before.
    pub fn withdraw(self, table: &mut [Item]) -> Result<Ledger, Denied<Intake>>
        ensures answer { result ≡ handed (withdraw_denied self (length table.old)) self.ledger self }
        ensures table { table.new ≡ unless (withdraw_denied self (length table.old)) (withdrawn_table self table.old) table.old }
    {
        if let Err(why) = self.check_table(table.len()) {
            return Err(Denied { given: self, why });
        }
        let Intake {
            ledger,
            heading: _,
            reached: _,
            filled,
        } = self;
        clear(&mut table[ledger.used..filled]);
        Ok(ledger)
    }
}
