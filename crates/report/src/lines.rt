// The lines of a report, one behind the other.
ghost use Rattle.std.specs.Prelude.{◌≡◌, ◌+◌, ◌≤◌, length};
ghost use Rattle.std.specs.Iterator.{item_count, YieldsFirstBy};
ghost use Rattle.std.specs.Iterator.Adapters.{enumerate_count, enumerate_source};
ghost use Rattle.std.specs.Slice.Iter.{iter_rest};
ghost use Rattle.domain.specs.declared.limits.TheConstants.{MOST_ITEMS};
ghost use Rattle.report.specs.Outputs.{put, text_of};
ghost use Rattle.report.specs.Reports.{open_row, report_on, report_rows};

use crate::line::Line;
use crate::rows::{currency_row, difference_row, item_row, side_row};
use crate::subject::Report;
use domain::entry::{Item, Side};
use std::iter::Enumerate;
use std::{array, slice};

// The line of an item: nothing where the item is not outstanding, as the report is defined.
fn open_row(number: usize, item: &Item) -> Line
    ensures { text_of result ≡ open_row number item.now }
{
    if !item.is_outstanding() {
        return Line::default();
    }
    item_row(number, item)
}

// The lines of a report that are still to be given: those above the items, one for each item, and the totals.
#[derive(Drop)]
pub(crate) struct Rows<'a> {
    above: array::IntoIter<Line, 4>,
    items: Enumerate<slice::Iter<'a, Item>>,
    total: Option<Line>,
    ghost few: { enumerate_count items + length (iter_rest (enumerate_source items)) ≤ MOST_ITEMS },
}

impl<'a> Iterator for Rows<'a> {
    ghost use Rattle.report.specs.Lines.{rows_left};

    type Item = Line;

    ghost next_gives = { YieldsFirstBy text_of rows_left };

    ghost remaining = { item_count rows_left };

    // No `chain` and `map` in its place: a struct's field or a result cannot name the type of the closure. No `filter`: the report is
    // defined with a line for each item, which is empty where the item is not outstanding.
    // No `or_else`: where closures take from the three in turn, no proof knows what they left (tried).
    fn next(&mut self) -> Option<Line> {
        if let Some(line) = self.above.next() {
            return Some(line);
        }
        if let Some((i, item)) = self.items.next() {
            return Some(open_row(i + 1, item));
        }
        self.total.take()
    }
}

impl<'a> Report<'a> {
    ghost use Rattle.report.specs.Lines.{rows_left};

    #[tactic(auto, unfolding(crate::specs::Reports::report_rows))]
    fn rows(&self) -> Rows<'a>
        ensures { rows_left result ≡ report_rows self.now.ledger.now self.now.items.now }
    {
        let ledger = self.ledger;
        let above = [
            currency_row(ledger.account()),
            side_row(Side::Bank, ledger.bank()),
            side_row(Side::Book, ledger.book()),
            difference_row(ledger.bank().opening(), ledger.book().opening()),
        ];
        Rows {
            above: above.into_iter(),
            items: self.items.iter().enumerate(),
            total: Some(self.total_row()),
        }
    }

    // How long the report is.
    #[tactic(auto, using(crate::proofs::Counting::rows_count))]
    pub(crate) fn length(&self) -> usize
        ensures { result ≡ length (report_on self.now.ledger.now self.now.items.now) }
    {
        let mut length = 0;
        for line in self.rows() {
            length += line.length();
        }
        length
    }

    // Writes the report: each line into what remains of the output behind the lines before.
    pub(crate) fn put(&self, out: &mut [u8]) -> usize
        requires { length (report_on self.now.ledger.now self.now.items.now) ≤ length out.old }
        ensures is { out.new ≡ put (report_on self.now.ledger.now self.now.items.now) out.old }
        ensures len { result ≡ length (report_on self.now.ledger.now self.now.items.now) }
    {
        let mut at = 0;
        for line in self.rows() {
            at += line.put(&mut out[at..]);
        }
        at
    }
}
