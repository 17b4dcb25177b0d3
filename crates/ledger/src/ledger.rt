ghost use Rattle.std.specs.Prelude.{◌≡◌};

use crate::record::SideRecord;
use domain::account::Account;
use domain::currency::Currency;
use domain::day::Day;
use domain::digits::Digits;

// A ledger with no open intake.
#[derive(Drop)]
pub struct Ledger {
    pub(crate) account: Account,
    pub(crate) first_day: Day,
    // How many positions of the table are in use, from the front.
    pub(crate) used: usize,
    pub(crate) bank: SideRecord,
    pub(crate) book: SideRecord,
}

impl Ledger {
    pub fn account(&self) -> Account
        ensures { result ≡ self.now.account }
    {
        self.account
    }

    pub fn currency(&self) -> Currency
        ensures { result ≡ self.now.account.currency }
    {
        self.account.currency
    }

    pub fn digits(&self) -> Digits
        ensures { result ≡ self.now.account.digits }
    {
        self.account.digits
    }

    pub fn first_day(&self) -> Day
        ensures { result ≡ self.now.first_day }
    {
        self.first_day
    }

    pub fn used(&self) -> usize
        ensures { result ≡ self.now.used }
    {
        self.used
    }

    pub fn bank(&self) -> SideRecord
        ensures { result ≡ self.now.bank }
    {
        self.bank
    }

    pub fn book(&self) -> SideRecord
        ensures { result ≡ self.now.book }
    {
        self.book
    }
}
