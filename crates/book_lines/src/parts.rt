ghost use Rattle.std.specs.Prelude.{◌≡◌};
ghost use Rattle.std.specs.Iterator.{YieldsFirstRef, item_count};
ghost use Rattle.book_lines.specs.Fields.{fields_of};
ghost use Rattle.book_lines.specs.Left.{fields_left};

use fields::split_once;

// The fields of a line, one by one: what stands between its commas.
// They are no `slice::split`: the type of its closure has no name to pass the fields behind a tag on by, and its clauses tell of the closure's runs, not of the fields left.
// They come in no array `[&[u8]; N]`, which was tried: code over an array of references whose length is a const parameter gets no proof.
#[derive(Clone, Copy)]
pub(crate) struct Fields<'a> {
    // From the next field on; none behind the last.
    rest: Option<&'a [u8]>,
}

pub(crate) fn fields_of(line: &[u8]) -> Fields<'_>
    ensures { fields_left result ≡ fields_of line.now }
{
    Fields { rest: Some(line) }
}

impl<'a> Iterator for Fields<'a> {
    type Item = &'a [u8];

    ghost next_gives = { YieldsFirstRef fields_left };

    ghost remaining = { item_count fields_left };

    #[tactic(auto, using(crate::proofs::Cutting::first_field, crate::proofs::Cutting::fewer_fields, crate::proofs::Cutting::last_field))]
    fn next(&mut self) -> Option<&'a [u8]> {
        let rest = self.rest?;
        let Some((field, behind)) = split_once(rest, b',') else {
            self.rest = None;
            return Some(rest);
        };
        self.rest = Some(behind);
        Some(field)
    }
}
