ghost use Rattle.std.specs.Prelude.{◌≡◌};
ghost use Rattle.ledger.specs.Denials.{answered};
ghost use Rattle.ledger.specs.Records.{follow_denied, posted, side_of, settled};

use crate::ledger::Ledger;
use crate::record::{Heading, SideRecord};
use domain::amount::Amount;
use domain::entry::Side;
use domain::refusal::Refusal;

impl SideRecord {
    // Refuses a statement that does not follow the side's last one.
    pub(crate) fn check_follows(self, heading: &Heading) -> Result<(), Refusal>
        ensures { result ≡ answered (follow_denied self heading.now.number heading.now.opening heading.now.closing_day.number) tt }
    {
        if heading.number == self.number {
            return Err(Refusal::NumberRepeated);
        }
        if heading.opening != self.closing.minor() {
            return Err(Refusal::WrongOpening);
        }
        if heading.closing_day < self.last_day {
            return Err(Refusal::DayBefore);
        }
        Ok(())
    }

    // The record after a statement.
    fn after(self, heading: Heading, closing: Amount) -> SideRecord
        ensures { result ≡ posted self heading.number heading.closing_day closing }
    {
        SideRecord {
            closing,
            number: heading.number,
            last_day: heading.closing_day,
            ..self
        }
    }
}

impl Ledger {
    // The record of one side.
    pub(crate) fn record_of(&self, side: Side) -> SideRecord
        ensures { result ≡ side_of self.now side }
    {
        match side {
            Side::Bank => self.bank,
            Side::Book => self.book,
        }
    }

    // The ledger after a statement: the record of its own side changes, and the other does not.
    pub(crate) fn settle(mut self, heading: Heading, closing: Amount, used: usize) -> Ledger
        ensures { result ≡ settled self heading.side heading.number heading.closing_day closing used }
    {
        let record = self.record_of(heading.side).after(heading, closing);
        self.used = used;
        match heading.side {
            Side::Bank => self.bank = record,
            Side::Book => self.book = record,
        }
        self
    }
}
