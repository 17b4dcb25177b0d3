// Lines, and texts that are read line by line.
#![tactic(auto)]

ghost use Rattle.std.specs.Prelude.{◌≡◌, ℕ, ◌<◌, ◌≤◌, Bool, List, length, take, drop, IfSome, IfOk, Result};
ghost use Rattle.domain.specs.declared.refusal.Refusal.{Refusal};
ghost use Rattle.std.specs.Iterator.{YieldsFirstBy, item_count};
ghost use Rattle.text.specs.Lines.{content_of, from, is_formed, is_whole, lines_from};
ghost use Rattle.text.specs.Left.{shown, lines_left};
ghost use Rattle.text.specs.Scanning.{scan_from};

pub mod line;

use crate::line::Line;
use domain::reference;
use domain::refusal::{Refusal, Refused};

// The offset of the first byte `b` from `at` on; none also where `at` lies past the end.
pub fn find(text: &[u8], b: u8, at: usize) -> Option<usize>
    ensures is { result ≡ from b at (drop at text.now) }
    ensures within { IfSome result (λ i. (at ≤ i) × (i < length text.now)) }
{
    let left = text.get(at..)?;
    left.iter().position(|x| *x == b).map(|i| at + i)
}

// How many bytes of a line stand before its CR.
#[tactic(auto, unfolding(crate::specs::Lines::content_of))]
pub fn content(raw: &[u8]) -> usize
    ensures is { take result raw.now ≡ content_of raw.now }
    ensures within { result ≤ length raw.now }
{
    Line { at: 0, raw }.content().len()
}

// The lines of a text from an offset on; what stands behind the last LF is no line.
#[derive(Clone, Copy)]
pub struct Lines<'a> {
    text: &'a [u8],
    at: usize,
}

pub fn lines_from(text: &[u8], at: usize) -> Lines<'_>
    ensures { lines_left result ≡ lines_from at (drop at text.now) }
{
    Lines { text, at }
}

impl<'a> Iterator for Lines<'a> {
    type Item = Line<'a>;

    ghost next_gives = { YieldsFirstBy shown lines_left };

    ghost remaining = { item_count lines_left };

    #[tactic(auto, using(crate::proofs::Lining::lines_at, crate::proofs::Lining::lines_end))]
    fn next(&mut self) -> Option<Line<'a>> {
        let end = find(self.text, b'\n', self.at)?;
        let line = Line {
            at: self.at,
            raw: &self.text[self.at..end],
        };
        self.at = end + 1;
        Some(line)
    }
}

// Whether a line has 1 to 80 bytes from 32 to 126.
#[tactic(auto, unfolding(crate::specs::Lines::is_formed))]
pub fn is_formed(line: &[u8]) -> bool
    ensures { result ≡ is_formed line.now }
{
    (1..=80).contains(&line.len()) && reference::is_plain(line)
}

// What has been read of a text, line by line.
pub trait Reading: Sized {
    // What one line more leads to.
    ghost stepped: { Self → List ℕ → Result Self Refusal };

    // Whether the text may end here.
    ghost complete: { Self → Bool };

    // What keeps the sums inside their types.
    ghost sound: { Self → Type 0 };

    // The line is without its LF or CR LF.
    fn step(self, line: &[u8]) -> Result<Self, Refusal>
        requires { sound self }
        ensures is { result ≡ stepped self line.now }
        ensures again { IfOk result sound };

    fn is_complete(&self) -> bool
        ensures { result ≡ complete self.now };
}

// Whether a text ends with an LF, or is empty, so that no line of it is cut off.
#[tactic(auto, unfolding(crate::specs::Lines::is_whole))]
fn is_whole(text: &[u8]) -> bool
    ensures { result ≡ is_whole text.now }
{
    matches!(text, [] | [.., b'\n'])
}

// The whole text: what has been read at its end, or a refusal and the offset of its line.
#[tactic(auto, using(crate::proofs::Scanned::scanned))]
pub fn scan<S: Reading + Copy>(start: S, text: &[u8]) -> Result<S, Refused>
    requires { S.Reading.sound start }
    ensures is { result ≡ scan_from S.Reading.stepped S.Reading.complete text.now 0 start }
    ensures again { IfOk result S.Reading.sound }
{
    // A loop and no `try_fold`, which was tried: its clause tells of the closure's runs, and the check finds neither the answer nor `sound` from them.
    let mut state = start;
    for line in lines_from(text, 0) {
        state = state.step(line.content()).map_err(|why| Refused {
            why,
            offset: line.at,
        })?;
    }
    if state.is_complete() && is_whole(text) {
        Ok(state)
    } else {
        Err(Refused {
            why: Refusal::EndsEarly,
            offset: text.len(),
        })
    }
}
