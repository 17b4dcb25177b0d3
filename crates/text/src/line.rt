ghost use Rattle.std.specs.Prelude.{◌≡◌, ◌+◌, ◌<◌, ◌≤◌, ◌^◌, length};
ghost use Rattle.text.specs.Lines.{content_of};

// A line of a text.
#[derive(Clone, Copy)]
pub struct Line<'a> {
    // The offset of its first byte.
    pub at: usize,
    // Its bytes without its LF, and with its CR, if it has one.
    pub(crate) raw: &'a [u8],
    ghost inside: { at + length raw.now < 2 ^ 64 },
}

impl<'a> Line<'a> {
    // The line without its CR.
    #[tactic(auto, unfolding(crate::specs::Lines::content_of))]
    pub fn content(&self) -> &'a [u8]
        ensures is { result.now ≡ content_of self.now.raw.now }
        ensures within { length result.now ≤ length self.now.raw.now }
    {
        match self.raw {
            [line @ .., b'\r'] => line,
            _ => self.raw,
        }
    }

    // The offset behind the line's last byte, its LF or CR LF not counted.
    pub fn end(&self) -> usize
        ensures { result ≡ self.now.at + length (content_of self.now.raw.now) }
    {
        self.at + self.content().len()
    }
}
