ghost use Rattle.std.specs.Prelude.{◌≡◌, drop, IfSome};
ghost use Rattle.std.specs.Option.{option_map};
ghost use Rattle.mt940_cuts.specs.Tags.{coded, tag_of, width_of, is_continuing};

// Which page of its statement a :60: opens.
#[derive(Clone, Copy, PartialEq, Eq, Debug)]
pub enum Page {
    First,
    Later,
}

// Which page of its statement a :62: closes.
#[derive(Clone, Copy, PartialEq, Eq, Debug)]
pub enum End {
    Last,
    Middle,
}

// What a line is, by how it begins.
#[derive(Clone, Copy, PartialEq, Eq, Debug)]
pub enum Tag {
    Reference,
    Related,
    Account,
    Number,
    Opening(Page),
    Entry,
    Closing(End),
    Note,
    Hyphen,
    Further,
}

// A line, taken apart: its tag, and what stands behind it.
#[derive(Clone, Copy, PartialEq, Eq, Debug)]
pub struct Field<'a> {
    pub tag: Tag,
    pub body: &'a [u8],
}

// The tag of a code that stands between colons.
#[tactic(auto, unfolding(crate::specs::Tags::coded))]
fn coded(code: &[u8]) -> Option<Tag>
    ensures { result ≡ coded code.now }
{
    match code {
        b"20" => Some(Tag::Reference),
        b"21" => Some(Tag::Related),
        b"25" => Some(Tag::Account),
        b"28C" => Some(Tag::Number),
        b"60F" => Some(Tag::Opening(Page::First)),
        b"60M" => Some(Tag::Opening(Page::Later)),
        b"61" => Some(Tag::Entry),
        b"62F" => Some(Tag::Closing(End::Last)),
        b"62M" => Some(Tag::Closing(End::Middle)),
        b"86" => Some(Tag::Note),
        _ => None,
    }
}

// What a line is and what stands behind its tag, or none where its tag is unknown. A line with no tag of its own is the
// hyphen that ends a page, or a further line; a colon or a hyphen begins none.
#[tactic(auto, unfolding(crate::specs::Tags::tag_of, crate::specs::Tags::coded, crate::specs::Tags::plain_tag, crate::specs::Slices::starts_with))]
pub fn tagged(line: &[u8]) -> Option<Field<'_>>
    ensures is { option_map (λ f. f.tag) result ≡ tag_of line.now }
    ensures behind { IfSome result (λ f. f.body.now ≡ drop (width_of f.tag) line.now) }
{
    let (tag, body) = match line {
        [b':', a, b, b':', body @ ..] => (coded(&[*a, *b])?, body),
        [b':', a, b, c, b':', body @ ..] => (coded(&[*a, *b, *c])?, body),
        [b':', ..] => return None,
        [b'-'] => (Tag::Hyphen, &line[1..]),
        [b'-', ..] => return None,
        _ => (Tag::Further, line),
    };
    Some(Field { tag, body })
}

// Whether a line goes on with the entry before it: a further line, or a note.
pub fn continues(line: &[u8]) -> bool
    ensures { result ≡ is_continuing line.now }
{
    tagged(line).is_some_and(|field| matches!(field.tag, Tag::Note | Tag::Further))
}
