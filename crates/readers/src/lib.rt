// The reader of any format: a text is refused as a whole, or is a source of its entries.
#![tactic(auto)]

ghost use Rattle.std.specs.Prelude.{◌≡◌, Some, None, IfSome};
ghost use Rattle.std.specs.Option.{IfNone};
ghost use Rattle.text.specs.Left.{lines_left};
ghost use Rattle.readers.specs.Entries.{Sought};
ghost use Rattle.readers.specs.Within.{Within};
ghost use Rattle.readers.specs.Whole.{Made, Ready, meaning_of, read_of};

pub mod format;
pub mod passage;

use domain::account::Account;
use domain::entry::Entry;
use domain::refusal::{Refusal, Refused};
use format::Format;
use passage::{LONGEST, Passage};
use source::{Head, Source};
use std::marker::PhantomData;
use text::{Lines, lines_from, scan};

// A statement whose text has been read to its end and not refused; its entries are read again, one by one, from the lines that
// it has left.
#[derive(Drop)]
pub struct Reader<'a, F> {
    lines: Lines<'a>,
    account: Account,
    head: Head,
    format: PhantomData<F>,
}

// An entry, and the lines behind its own.
#[derive(Clone, Copy)]
pub struct Found<'a> {
    entry: Entry,
    behind: Lines<'a>,
}

// The first entry in lines, and the lines behind its own.
fn seek<'a, F: Format>(lines: Lines<'a>, account: Account) -> Option<Found<'a>>
    requires { Within LONGEST (lines_left lines) }
    ensures is { IfSome result (λ f. Sought (F.stated account) (lines_left lines.entry) (Some f.entry) (lines_left f.behind)) }
    ensures none { IfNone result (Sought (F.stated account) (lines_left lines.entry) None (lines_left lines.entry)) }
    ensures again { IfSome result (λ f. Within LONGEST (lines_left f.behind)) }
{
    // A `for` would hold the lines, and `entry` looks ahead over those behind.
    let mut behind = lines;
    while let Some(line) = behind.next() {
        if let Some(entry) = F::entry(account, Passage { line, behind }) {
            return Some(Found { entry, behind });
        }
    }
    None
}

impl<'a, F: Format> Reader<'a, F> {
    // Reads a text as a statement of an account; or answers the refusal and the offset of its line.
    #[tactic(auto, unfolding(crate::specs::Whole::read_of))]
    pub fn read(text: &'a [u8], currency: &[u8], digits: u8) -> Result<Reader<'a, F>, Refused>
        ensures { Made (read_of F.begun F.Scan.stepped F.Scan.complete F.said F.stated text.now currency.now digits) F.stated result }
    {
        let account = Account::new(currency, digits)?;
        if text.len() > LONGEST {
            return Err(Refused::from(Refusal::TooMuch));
        }
        let end = scan(F::begin(account), text)?;
        Ok(Reader {
            lines: lines_from(text, 0),
            account,
            head: F::head(end),
            format: PhantomData,
        })
    }
}

impl<'a, F: Format> Source for Reader<'a, F> {
    type Origin = F;

    ghost meaning = { meaning_of F.stated };

    ghost ready = { Ready F.stated };

    ghost lawful = { λ r ready. ready.lawful };

    #[tactic(auto, unfolding(crate::specs::Whole::meaning_of))]
    fn head(&self) -> Head {
        self.head
    }

    fn next(&mut self) -> Option<Entry> {
        let Found { entry, behind } = seek::<F>(self.lines, self.account)?;
        self.lines = behind;
        self.head.reached += entry.amount.minor();
        self.head.count -= 1;
        Some(entry)
    }
}
