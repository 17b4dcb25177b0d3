ghost use Rattle.std.specs.Prelude.{◌≡◌};
ghost use Rattle.mt940_pages.specs.Stages.{ended, next_stage, placed};

use domain::refusal::Refusal;
use mt940_cuts::tag::{End, Page, Tag};

// What a page has brought so far: its reference, related reference, account, number, opening, entries and closing.
// `page` is which page of the statement it is, `end` which one it has closed as, `more` how many further lines have come.
#[derive(Clone, Copy, PartialEq, Eq, Debug)]
pub enum Stage {
    Start { page: Page },
    Named { page: Page },
    Tied { page: Page },
    Held { page: Page },
    Numbered { page: Page },
    Body,
    Item { more: u8 },
    Noted { more: u8 },
    Closed { end: End },
    Remark { end: End, more: u8 },
    Done,
}

// What follows a page: nothing behind the last one, another page behind the others.
fn after_hyphen(end: End) -> Stage
    ensures { result ≡ ended end }
{
    match end {
        End::Last => Stage::Done,
        End::Middle => Stage::Start { page: Page::Later },
    }
}

// The stage that a line leads to, or none where its tag is not permitted here.
// One match over both: stage and tag decide the next stage together, which is a rule of the project.
pub fn follow(stage: Stage, tag: Tag) -> Option<Stage>
    ensures { result ≡ next_stage stage tag }
{
    Some(match (stage, tag) {
        (Stage::Start { page }, Tag::Reference) => Stage::Named { page },
        (Stage::Named { page }, Tag::Related) => Stage::Tied { page },
        (Stage::Named { page } | Stage::Tied { page }, Tag::Account) => Stage::Held { page },
        (Stage::Held { page }, Tag::Number) => Stage::Numbered { page },
        (Stage::Numbered { page }, Tag::Opening(opens)) if page == opens => Stage::Body,
        (Stage::Item { more }, Tag::Further) if more < 1 => Stage::Item { more: more + 1 },
        (Stage::Item { .. }, Tag::Note) => Stage::Noted { more: 0 },
        (Stage::Noted { more }, Tag::Further) if more < 5 => Stage::Noted { more: more + 1 },
        (Stage::Body | Stage::Item { .. } | Stage::Noted { .. }, Tag::Entry) => Stage::Item {
            more: 0,
        },
        (Stage::Body | Stage::Item { .. } | Stage::Noted { .. }, Tag::Closing(end)) =>
            Stage::Closed { end },
        (Stage::Closed { end }, Tag::Note) => Stage::Remark { end, more: 0 },
        (Stage::Remark { end, more }, Tag::Further) if more < 5 => Stage::Remark {
            end,
            more: more + 1,
        },
        (Stage::Closed { end } | Stage::Remark { end, .. }, Tag::Hyphen) => after_hyphen(end),
        _ => return None,
    })
}

// The stage that a line leads to, refused where its tag is not permitted here.
#[tactic(auto, unfolding(crate::specs::Stages::placed))]
pub fn place(stage: Stage, tag: Tag) -> Result<Stage, Refusal>
    ensures { result ≡ placed stage tag }
{
    follow(stage, tag).ok_or(Refusal::Misplaced)
}
