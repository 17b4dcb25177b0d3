ghost use Rattle.std.specs.Prelude.{◌≡◌, ℕ, ◌∷◌, true, List, ℤ, pos, Ok, Option};
ghost use Rattle.domain.specs.declared.entry.Entry.{Entry};
ghost use Rattle.source.specs.declared.Head.{Head};
ghost use Rattle.text.specs.Left.{lines_left, shown};
ghost use Rattle.text.specs.Lines.{content_of};
ghost use Rattle.domain.specs.declared.account.Account.{Account};
ghost use Rattle.readers.specs.Tallies.{Closes, count_with, sum_with};

use crate::passage::Passage;
use domain::account::Account;
use domain::entry::Entry;
use source::{Head, Sided};
use text::Reading;

// A format of statements: what its lines lead to, and the entries that they state.
pub trait Format: Sided {
    // What has been read of a text.
    type Scan: Reading + Copy;

    // Before the first line.
    ghost begun: { Account → Self.Scan };

    // What has been read, once the text has ended.
    ghost said: { Self.Scan → Head };

    // The entry that a line states, if it states one, and which lines behind it belong to it.
    ghost stated: { Account → ℕ × List ℕ → List (ℕ × List ℕ) → Option Entry };

    // In this account entries of this sum and number have come.
    ghost tallies: { Account → ℤ → ℕ → Self.Scan → Type 0 };

    fn begin(account: Account) -> Self::Scan
        ensures is { result ≡ begun account }
        ensures again { Self.Scan.sound result };

    fn head(end: Self::Scan) -> Head
        ensures { result ≡ said end };

    fn entry(account: Account, passage: Passage<'_>) -> Option<Entry>
        ensures { result ≡ stated account (shown passage.entry.line) (lines_left passage.entry.behind) };

    // Before the first line no entry has come.
    ghost starts: { (account : Account) → tallies account (pos 0) 0 (begun account) };

    // A line that is not refused adds just the entry that it states.
    ghost adds: { (account : Account) (z : ℤ) (n : ℕ) (s u : Self.Scan) (line : ℕ × List ℕ) (behind : List (ℕ × List ℕ)) → tallies account z n s → Self.Scan.stepped s (content_of line.1) ≡ Ok u → tallies account (sum_with z (stated account line behind)) (count_with n (stated account line behind)) u };

    // Where the text may end, the entries lead from the opening to the closing.
    ghost closes: { (account : Account) (z : ℤ) (n : ℕ) (s : Self.Scan) → tallies account z n s → Self.Scan.complete s ≡ true → Closes z n (said s) };
}
