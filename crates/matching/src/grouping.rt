ghost use Rattle.std.specs.Prelude.{◌≡◌, ℕ, ◌+◌, ◌^◌, ◌<◌, ◌≤◌, min, length, Some, position, IfSome};
ghost use Rattle.matching.specs.Grouping.{Finder, FindsBy, joined_at, highest_below, if_few, Grouped};
ghost use Rattle.domain.specs.Items.{open_on};
ghost use Rattle.matching.specs.Matching.{partners, partner_of, matched, matches as match_count, NoneToPair};
ghost use Rattle.matching.specs.Folding.{open_reversal, undoes as reverses, original_of, folded, folds as fold_count, NoneToFold};

use crate::rule::MatchRule;
use domain::entry::{Entry, Item, Kind, Side};
use domain::limits::MOST_ITEMS;

// Puts two items into a group of their own, which takes the smaller of their numbers.
fn join(items: &mut [Item], i: usize, j: usize)
    requires first { i < length items.old }
    requires second { j < length items.old }
    requires fits { min i j + 1 < 2 ^ 16 }
    ensures { items.new ≡ joined_at items.old i j }
{
    let group = (i.min(j) + 1) as u16;
    items[i].group = group;
    items[j].group = group;
}

// Lets each position, in order, form a group with the one that `choose` finds for it, if any. Answers how many groups it formed.
// A slice that is longer than a table may be is left alone.
fn join_each<F: Fn(&[Item], usize) -> Option<usize>>(items: &mut [Item], choose: F) -> usize
    requires callable { (xs : _) (i : ℕ) → i < length xs.now → F.pre choose xs i }
    requires within { (xs : _) (i j : ℕ) → i < length xs.now → F.post choose xs i (Some j) → j < length xs.now }
    ensures { (find : Finder) → FindsBy find (F.post choose) → Grouped find items.old items.new result }
{
    if items.len() > MOST_ITEMS {
        return 0;
    }
    let mut groups = 0;
    // By position, and not over the items: each group changes two of them, and the next choice reads them all.
    for i in 0..items.len() {
        if let Some(j) = choose(items, i) {
            join(items, i, j);
            groups += 1;
        }
    }
    groups
}

// Whether this is an outstanding book item that the rule lets pair with a bank entry.
fn is_partner<R: MatchRule>(x: &Item, bank: &Entry, rule: &R) -> bool
    ensures { result ≡ partners (R.MatchRule.permits rule.now bank.now) x.now }
{
    x.is_open_on(Side::Book) && rule.may_pair(bank, &x.entry)
}

// The lowest position of a partner for a bank entry.
fn lowest_partner<R: MatchRule>(items: &[Item], bank: &Entry, rule: &R) -> Option<usize>
    ensures { result ≡ position (partners (R.MatchRule.permits rule.now bank.now)) items.now }
{
    items.iter().position(|x| is_partner(x, bank, rule))
}

// What position `i` of the pass is paired with, if it has an outstanding bank item and there is a partner.
fn partner_of<R: MatchRule>(items: &[Item], i: usize, rule: &R) -> Option<usize>
    requires { i < length items.now }
    ensures { result ≡ partner_of (R.MatchRule.permits rule.now) items.now i }
{
    // A copy: beside a reference into the items its fields would be read again for each of them.
    let x = items[i];
    if !x.is_open_on(Side::Bank) {
        return None;
    }
    lowest_partner(items, &x.entry, rule)
}

// Pairs each outstanding bank item, by number, with the lowest-numbered outstanding book item that the rule permits, if any.
// Answers how many pairs it made. A slice that is longer than a table may be is left alone.
pub fn match_all<R: MatchRule>(items: &mut [Item], rule: &R) -> usize
    ensures table { items.new ≡ if_few items.old (matched (R.MatchRule.permits rule.now) items.old) items.old }
    ensures answer { result ≡ if_few items.old (match_count (R.MatchRule.permits rule.now) items.old) 0 }
    ensures settled { length items.old ≤ 8192 → NoneToPair (R.MatchRule.permits rule.now) items.new }
{
    join_each(items, |items, i| partner_of(items, i, rule))
}

fn is_open_reversal(x: &Item) -> bool
    ensures { result ≡ open_reversal x.now }
{
    x.is_outstanding() && x.entry.kind == Kind::Reversal
}

// Whether this is an outstanding ordinary item that the reversal undoes.
fn undoes(reversal: &Item, x: &Item) -> bool
    ensures { result ≡ reverses reversal.now x.now }
{
    let key = reversal.entry.key;
    // The kind first: among reversals that undo nothing here it is the one test that is made.
    x.entry.kind == Kind::Ordinary
        && x.is_open_on(reversal.side)
        && !key.is_blank()
        && key == x.entry.key
        && reversal.entry.amount == -x.entry.amount
}

// The highest position of an item that the reversal undoes.
fn highest_undone(items: &[Item], reversal: &Item) -> Option<usize>
    ensures { result ≡ highest_below (reverses reversal.now) (length items.now) items.now }
{
    items.iter().rposition(|x| undoes(reversal, x))
}

// What position `i` of the pass forms a group with, if it has an outstanding reversal and there is an item that this undoes.
fn original_of(items: &[Item], i: usize) -> Option<usize>
    requires { i < length items.now }
    ensures answer { result ≡ original_of items.now i }
    ensures within { IfSome result (λ j. j < length items.now) }
{
    // A copy, as above.
    let x = items[i];
    if !is_open_reversal(&x) {
        return None;
    }
    highest_undone(&items[..i], &x)
}

// Folds: each outstanding reversal, by number, forms a group with the item that it undoes, if any: the highest-numbered outstanding
// ordinary item before it, of its side, with the same key (not blank) and the opposite amount.
// Answers how many groups it formed. A slice that is longer than a table may be is left alone.
pub fn fold_all(items: &mut [Item]) -> usize
    ensures table { items.new ≡ if_few items.old (folded items.old) items.old }
    ensures answer { result ≡ if_few items.old (fold_count items.old) 0 }
    ensures settled { length items.old ≤ 8192 → NoneToFold items.new }
{
    join_each(items, |items, i| original_of(items, i))
}
