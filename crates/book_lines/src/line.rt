use domain::amount::Amount;
use domain::currency::Currency;
use domain::day::Day;
use domain::entry::Kind;
use domain::key::Key;

// `B,currency,number,opening day,opening`. None stands for a currency, a day or an amount that is written as none.
#[derive(Clone, Copy)]
pub struct Opening {
    pub currency: Option<Currency>,
    pub number: u32,
    pub day: Option<Day>,
    pub amount: Option<Amount>,
}

// `E,value day,entry day,amount,reference,text`, or R in front where it is a reversal.
#[derive(Clone, Copy)]
pub struct Row {
    pub kind: Kind,
    pub value_day: Option<Day>,
    pub entry_day: Option<Day>,
    pub amount: Option<Amount>,
    pub key: Key,
}

// `Z,count of entries,closing day,closing`.
#[derive(Clone, Copy)]
pub struct Closing {
    pub count: u32,
    pub day: Option<Day>,
    pub amount: Option<Amount>,
}

// A line that has its form.
#[derive(Clone, Copy)]
pub enum Line {
    Opens(Opening),
    Enters(Row),
    Closes(Closing),
}
