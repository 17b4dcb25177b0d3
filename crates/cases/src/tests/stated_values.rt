// Statements in which every field occurs, read back field by field.
use book::cash_book::CashBook;
use domain::amount::Amount;
use domain::day::Day;
use domain::entry::{Entry, Kind, Place};
use domain::key::Key;
use domain::refusal::Refusal;
use mt940::reader::Mt940;
use source::{Head, Source};
use std::process::Abort;
use std::test::Fail;

// A head in plain numbers. 29 February 2024 is day 16,130.
struct Heading {
    number: u32,
    opening_day: u16,
    closing_day: u16,
    reached: i64,
    closing: i64,
    count: usize,
}

// An entry in plain numbers; the offset and the length are those of its place.
struct Stated {
    value_day: u16,
    entry_day: u16,
    amount: i64,
    kind: Kind,
    reference: &'static [u8],
    offset: u32,
    length: u32,
}

fn check_head(rt: &impl Abort, head: Head, wanted: &Heading, when: &str) -> Result<(), Fail> {
    assert_eq!(rt; head.number, wanted.number, "{when}");
    assert_eq!(rt; head.opening_day.number(), wanted.opening_day, "{when}");
    assert_eq!(rt; head.closing_day.number(), wanted.closing_day, "{when}");
    assert_eq!(rt; head.reached, wanted.reached, "{when}");
    assert_eq!(rt; head.closing.minor(), wanted.closing, "{when}");
    assert_eq!(rt; head.count, wanted.count, "{when}");
    Ok(())
}

// The entry that this says.
fn entry_of(stated: &Stated) -> Result<Entry, Refusal> {
    Ok(Entry {
        value_day: Day::try_from(stated.value_day)?,
        entry_day: Day::try_from(stated.entry_day)?,
        amount: Amount::try_from(stated.amount)?,
        kind: stated.kind,
        key: Key::try_from(stated.reference)?,
        place: Place {
            offset: stated.offset,
            length: stated.length,
        },
    })
}

fn check_next<S: Source>(rt: &impl Abort, source: &mut S, wanted: &Stated) -> Result<(), Fail>
    requires { S.Source.ready source.old }
    ensures { S.Source.ready source.new }
{
    let at = wanted.offset;
    assert_eq!(rt; source.next(), Some(entry_of(wanted)?), "the entry at {at}");
    Ok(())
}

// Two pages, the second with lines that end in CR LF.
static STATEMENT: &[u8] = b":20:S7\n\
:21:REL\n\
:25:12345678\n\
:28C:7/1\n\
:60F:C240301EUR1000,\n\
:61:2403040304C1250,50NTRFINV0042//BANK42\n\
the one further line\n\
:86:sale\n\
of goods\n\
:61:240305D300,NTRFCHQ17\n\
:61:2403060305RCR50,5NTRFINV0041\n\
:86:returned\n\
:62M:C240306EUR1900,\n\
:86:carried forward\n\
-\n\
:20:S7\r\n\
:25:12345678\r\n\
:28C:7/2\r\n\
:60M:C240306EUR1900,\r\n\
:61:2403070308RD300,S103NONREF\r\n\
:86:\r\n\
:61:240308DE2300,F1A2X/Y//Z\r\n\
further\r\n\
:62F:D240308EUR100,\r\n\
:86:end\r\n\
of the statement\r\n\
-\r\n";

static STARTED: Heading = Heading {
    number: 7,
    opening_day: 16131,
    closing_day: 16138,
    reached: 100000,
    closing: -10000,
    count: 5,
};

static BEHIND_PAGE_ONE: Heading = Heading {
    number: 7,
    opening_day: 16131,
    closing_day: 16138,
    reached: 190000,
    closing: -10000,
    count: 2,
};

static MOVEMENTS: [Stated; 5] = [
    Stated {
        value_day: 16134,
        entry_day: 16134,
        amount: 125050,
        kind: Kind::Ordinary,
        reference: b"INV0042",
        offset: 58,
        length: 80,
    },
    Stated {
        value_day: 16135,
        entry_day: 16135,
        amount: -30000,
        kind: Kind::Ordinary,
        reference: b"CHQ17",
        offset: 139,
        length: 24,
    },
    Stated {
        value_day: 16136,
        entry_day: 16135,
        amount: -5050,
        kind: Kind::Reversal,
        reference: b"INV0041",
        offset: 164,
        length: 45,
    },
    Stated {
        value_day: 16137,
        entry_day: 16138,
        amount: 30000,
        kind: Kind::Reversal,
        reference: b"",
        offset: 307,
        length: 36,
    },
    Stated {
        value_day: 16138,
        entry_day: 16138,
        amount: -230000,
        kind: Kind::Ordinary,
        reference: b"X/Y",
        offset: 345,
        length: 36,
    },
];

#[test]
fn statement_fields(rt: HostRuntime) -> Result<(), Fail> {
    let mut source = Mt940::read(STATEMENT, b"EUR", 2)?;
    check_head(&rt, source.head(), &STARTED, "as made")?;
    check_next(&rt, &mut source, &MOVEMENTS[0])?;
    check_next(&rt, &mut source, &MOVEMENTS[1])?;
    check_next(&rt, &mut source, &MOVEMENTS[2])?;
    check_head(&rt, source.head(), &BEHIND_PAGE_ONE, "behind page 1")?;
    check_next(&rt, &mut source, &MOVEMENTS[3])?;
    check_next(&rt, &mut source, &MOVEMENTS[4])?;
    assert!(rt; source.next().is_none());
    Ok(())
}

static BOOK: &[u8] = b"B,EUR,7,240301,-90000\n\
E,240304,240229,125050,INV0042,Sale of goods\r\n\
R,240305,240306,-5050,,\n\
Z,2,240305,30000\n";

static BOOK_HEADING: Heading = Heading {
    number: 7,
    opening_day: 16131,
    closing_day: 16135,
    reached: -90000,
    closing: 30000,
    count: 2,
};

static LINES: [Stated; 2] = [
    Stated {
        value_day: 16134,
        entry_day: 16130,
        amount: 125050,
        kind: Kind::Ordinary,
        reference: b"INV0042",
        offset: 22,
        length: 44,
    },
    Stated {
        value_day: 16135,
        entry_day: 16136,
        amount: -5050,
        kind: Kind::Reversal,
        reference: b"NONREF",
        offset: 68,
        length: 23,
    },
];

#[test]
fn book_fields(rt: HostRuntime) -> Result<(), Fail> {
    let mut source = CashBook::read(BOOK, b"EUR", 2)?;
    check_head(&rt, source.head(), &BOOK_HEADING, "as made")?;
    check_next(&rt, &mut source, &LINES[0])?;
    check_next(&rt, &mut source, &LINES[1])?;
    assert!(rt; source.next().is_none());
    Ok(())
}
