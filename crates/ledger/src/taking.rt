ghost use Rattle.std.specs.Prelude.{◌≡◌, ◌+◌, ◌≤◌, length, map, Some, OnOk};
ghost use Rattle.domain.specs.declared.refusal.Refusal.{Refusal as Reason};
ghost use Rattle.ledger.specs.Denials.{answered, handed, unless};
ghost use Rattle.domain.specs.Items.{outstanding_item};
ghost use Rattle.ledger.specs.Takings.{room_denied, take_denied, taken_ledger, laid, spent};

use crate::denied::Denied;
use crate::ledger::Ledger;
use crate::record::Heading;
use domain::entry::Item;
use domain::refusal::Refusal;
use source::{Sided, Source};

// Lays all that remains in a source over as many positions, as outstanding items.
fn lay<S: Source>(source: &mut S, positions: &mut [Item])
    requires ready { S.Source.ready source.old }
    requires room { length positions.old ≡ length (S.Source.meaning source.old).remaining }
    ensures items { positions.new ≡ map (outstanding_item S.Origin.SIDE) (S.Source.meaning source.old).remaining }
    ensures ready { S.Source.ready source.new }
    ensures source { S.Source.meaning source.new ≡ spent (S.Source.meaning source.old) }
{
    let side = <S::Origin as Sided>::SIDE;
    // A source is no iterator, so each position fetches its entry; as many remain as there are positions.
    for position in positions.iter_mut() {
        if let Some(entry) = source.next() {
            *position = Item::new(entry, side);
        }
    }
}

impl Ledger {
    fn check_take(&self, n: usize, heading: &Heading, count: usize) -> Result<(), Refusal>
        ensures why { result ≡ answered (room_denied self.now n heading.now.side heading.now.number heading.now.opening heading.now.closing_day.number count) tt }
        ensures room { OnOk result (self.now.used + count ≤ n) }
    {
        self.check_table(n)?;
        self.record_of(heading.side).check_follows(heading)?;
        if n - self.used < count {
            return Err(Refusal::NoRoom);
        }
        Ok(())
    }

    // Takes what remains of a source's statement: begins from its head, with the balance reached as opening, enters all that remains
    // and posts. It refuses before the first entry, and then the source is as before, or never.
    #[tactic(auto, using(crate::proofs::Answering::handed_by, crate::proofs::Answering::unless_by, crate::proofs::Answering::head_denied))]
    pub fn take<S: Source>(
        self,
        source: &mut S,
        table: &mut [Item],
    ) -> Result<Ledger, Denied<Ledger>>
        requires { S.Source.ready source.old }
        ensures answer { result ≡ handed (take_denied self (length table.old) S.Origin.SIDE (S.Source.meaning source.old)) (taken_ledger self S.Origin.SIDE (S.Source.meaning source.old)) self }
        ensures table { table.new ≡ unless (take_denied self (length table.old) S.Origin.SIDE (S.Source.meaning source.old)) (laid S.Origin.SIDE table.old self.used (S.Source.meaning source.old).remaining) table.old }
        ensures ready { S.Source.ready source.new }
        ensures source { S.Source.meaning source.new ≡ unless (take_denied self (length table.old) S.Origin.SIDE (S.Source.meaning source.old)) (spent (S.Source.meaning source.old)) (S.Source.meaning source.old) }
        ensures same { (why : Reason) → take_denied self (length table.old) S.Origin.SIDE (S.Source.meaning source.old) ≡ Some why → source.new ≡ source.old }
    {
        let head = source.head();
        let heading = Heading::of_head(<S::Origin as Sided>::SIDE, &head);
        if let Err(why) = self.check_take(table.len(), &heading, head.count) {
            return Err(Denied { given: self, why });
        }
        let used = self.used + head.count;
        lay(source, &mut table[self.used..used]);
        Ok(self.settle(heading, head.closing, used))
    }
}
