// What has been read of a statement, and what one line more leads to.
ghost use Rattle.std.specs.Prelude.{◌≡◌};
ghost use Rattle.mt940_pages.specs.Judging.{arrived_of, begin as begun, closed_of, entered_of, field_of, is_done, named_of, numbered_of, next_page, opened_first, opened_later, passed_of, repeats, sum_of, step_of};
ghost use Rattle.mt940_pages.specs.Sizes.{Sound};

use crate::stage::{Stage, place};
use domain::account::Account;
use domain::amount::Amount;
use domain::balance::Balance;
use domain::day::Day;
use domain::limits::{MOST_ENTRIES, is_number};
use domain::refusal::Refusal;
use mt940_cuts::cutting::cut;
use mt940_cuts::slices::is_sized;
use mt940_cuts::tag::{Field, Page, Tag, tagged};
use mt940_fields::balance::{balance_in, cut_balance};
use mt940_fields::movement::movement_in;
use mt940_fields::number::{PageNumber, numbers};
use text::{Reading, is_formed};

// The most bytes of a :20: or a :21:, and of a :25:.
const LONGEST_REFERENCE: usize = 16;

const LONGEST_ACCOUNT: usize = 35;

// What has been read: the account that it is read for, where in its page the reader stands, which page that is, the
// statement's opening, the last closing, how many entries have come, and their amounts added.
#[derive(Clone, Copy)]
pub struct State {
    pub account: Account,
    pub stage: Stage,
    pub at: PageNumber,
    pub opening: Balance,
    pub closing: Balance,
    pub moved: i64,
    pub count: usize,
}

// Before the first line. Number 1 and the balances are no answers yet, and no `Option`s: a statement that has ended
// has brought them all, and each reader would have to ask again.
pub fn begin(account: Account) -> State
    ensures is { result ≡ begun account }
    ensures again { Sound result }
{
    let none = Balance {
        day: Day::FIRST,
        amount: Amount::ZERO,
    };
    State {
        account,
        stage: Stage::Start { page: Page::First },
        at: PageNumber { number: 1, page: 0 },
        opening: none,
        closing: none,
        moved: 0,
        count: 0,
    }
}

// A balance that is permitted where it stands, and the stage that it leads to.
#[derive(Clone, Copy)]
pub struct Arrival {
    stage: Stage,
    balance: Balance,
}

impl State {
    // A line that changes the stage alone.
    #[tactic(auto, unfolding(crate::specs::Judging::passed_of))]
    fn passed(self, tag: Tag) -> Result<State, Refusal>
        ensures { result ≡ passed_of self tag }
    {
        let stage = place(self.stage, tag)?;
        Ok(State { stage, ..self })
    }

    // :20:, :21: and :25:, of which nothing is kept.
    #[tactic(auto, unfolding(crate::specs::Judging::named_of))]
    fn named(self, field: Field<'_>, most: usize) -> Result<State, Refusal>
        ensures { result ≡ named_of self field.entry.tag most field.entry.body.now }
    {
        if !is_sized(field.body, most) {
            return Err(Refusal::Form);
        }
        self.passed(field.tag)
    }

    // Whether a page follows the pages before: page 1 of a number from 1 to 99,999, or the next page of the same number.
    #[tactic(auto, unfolding(crate::specs::Judging::next_page))]
    fn follows_on(self, next: PageNumber) -> bool
        ensures { result ≡ next_page self next }
    {
        is_number(next.number)
            && self.at.page.checked_add(1) == Some(next.page)
            && (next.page == 1 || next.number == self.at.number)
    }

    // :28C:.
    #[tactic(auto, unfolding(crate::specs::Judging::numbered_of))]
    fn numbered(self, body: &[u8]) -> Result<State, Refusal>
        ensures { result ≡ numbered_of self body.now }
    {
        let next = numbers(body).ok_or(Refusal::Form)?;
        let stage = place(self.stage, Tag::Number)?;
        if !self.follows_on(next) {
            return Err(Refusal::BadNumber);
        }
        Ok(State {
            stage,
            at: next,
            ..self
        })
    }

    #[tactic(auto, unfolding(crate::specs::Judging::arrived_of))]
    fn arrived(self, field: Field<'_>) -> Result<Arrival, Refusal>
        ensures { result ≡ arrived_of self field.entry.tag field.entry.body.now }
    {
        let parts = cut_balance(field.body).ok_or(Refusal::Form)?;
        let stage = place(self.stage, field.tag)?;
        let balance = balance_in(parts, self.account)?;
        Ok(Arrival { stage, balance })
    }

    // :60F: opens the statement.
    #[tactic(auto, unfolding(crate::specs::Judging::opened_first))]
    fn opened_first(self, body: &[u8]) -> Result<State, Refusal>
        ensures { result ≡ opened_first self body.now }
    {
        let tag = Tag::Opening(Page::First);
        let Arrival { stage, balance } = self.arrived(Field { tag, body })?;
        Ok(State {
            stage,
            opening: balance,
            ..self
        })
    }

    // Whether a balance has the day and the amount of the last closing.
    fn is_repeat(self, balance: Balance) -> bool
        ensures { result ≡ repeats self balance }
    {
        balance == self.closing
    }

    // :60M: repeats the :62M: before.
    #[tactic(auto, unfolding(crate::specs::Judging::opened_later))]
    fn opened_later(self, body: &[u8]) -> Result<State, Refusal>
        ensures { result ≡ opened_later self body.now }
    {
        let tag = Tag::Opening(Page::Later);
        let Arrival { stage, balance } = self.arrived(Field { tag, body })?;
        if !self.is_repeat(balance) {
            return Err(Refusal::Unbalanced);
        }
        Ok(State { stage, ..self })
    }

    // The opening plus the entries so far.
    fn total(self) -> i64
        requires { Sound self }
        ensures { result ≡ sum_of self }
    {
        self.opening.amount.minor() + self.moved
    }

    // :62F: and :62M: close a page.
    #[tactic(auto, unfolding(crate::specs::Judging::closed_of))]
    fn closed(self, field: Field<'_>) -> Result<State, Refusal>
        requires { Sound self }
        ensures { result ≡ closed_of self field.entry.tag field.entry.body.now }
    {
        let Arrival { stage, balance } = self.arrived(field)?;
        if balance.amount.minor() != self.total() {
            return Err(Refusal::Unbalanced);
        }
        Ok(State {
            stage,
            closing: balance,
            ..self
        })
    }

    // :61: adds its entry.
    #[tactic(auto, unfolding(crate::specs::Judging::entered_of))]
    fn entered(self, body: &[u8]) -> Result<State, Refusal>
        requires { Sound self }
        ensures { result ≡ entered_of self body.now }
    {
        let parts = cut(body).ok_or(Refusal::Form)?;
        let stage = place(self.stage, Tag::Entry)?;
        let movement = movement_in(parts, self.account.digits)?;
        if self.count >= MOST_ENTRIES {
            return Err(Refusal::TooMuch);
        }
        Ok(State {
            stage,
            moved: self.moved + movement.amount.minor(),
            count: self.count + 1,
            ..self
        })
    }

    // What stands behind a tag.
    fn field(self, field: Field<'_>) -> Result<State, Refusal>
        requires { Sound self }
        ensures { result ≡ field_of self field.entry.tag field.entry.body.now }
    {
        let Field { tag, body } = field;
        match tag {
            Tag::Reference | Tag::Related => self.named(field, LONGEST_REFERENCE),
            Tag::Account => self.named(field, LONGEST_ACCOUNT),
            Tag::Number => self.numbered(body),
            Tag::Opening(Page::First) => self.opened_first(body),
            Tag::Opening(Page::Later) => self.opened_later(body),
            Tag::Entry => self.entered(body),
            Tag::Closing(_) => self.closed(field),
            Tag::Note | Tag::Hyphen | Tag::Further => self.passed(tag),
        }
    }
}

impl Reading for State {
    ghost stepped = { step_of };

    ghost complete = { is_done };

    // No ghost field of the state, since then each state that the rules in specs/ make would need a proof beside it.
    ghost sound = { Sound };

    #[tactic(auto, unfolding(crate::specs::Judging::step_of))]
    fn step(self, line: &[u8]) -> Result<State, Refusal> {
        if !is_formed(line) {
            return Err(Refusal::Form);
        }
        let field = tagged(line).ok_or(Refusal::Form)?;
        self.field(field)
    }

    fn is_complete(&self) -> bool {
        self.stage == Stage::Done
    }
}
