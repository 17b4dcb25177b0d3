// A line of output.
ghost use Rattle.std.specs.Prelude.{◌≡◌, ◌≤◌, [], ◌∷◌, map, length, not, ◌==◌};
ghost use Rattle.std.specs.List.{prefix_len};
ghost use Rattle.domain.specs.Keys.{until_zero};
ghost use Rattle.report.specs.Outputs.{text_of, put as put_text};
ghost use Rattle.report.specs.Rows.{row};

use arrayvec::ArrayVec;

// At most 128 bytes: no line of a report is longer.
#[derive(Default, Drop)]
pub(crate) struct Line {
    bytes: ArrayVec<u8, 128>,
}

impl Line {
    // A tag and the fields behind it, parted by commas and ended by LF. No `impl Display` (tried): std says what a `write!` wrote
    // only where it answers Ok, and never that it does, but a line is always made.
    #[tactic(auto, using(crate::proofs::Joining::row_longer))]
    pub(crate) fn row(tag: u8, fields: &[&[u8]]) -> Line
        requires { length (row (tag ∷ []) (map (λ f. f.now) fields.now)) ≤ 128 }
        ensures { text_of result ≡ row (tag ∷ []) (map (λ f. f.now) fields.now) }
    {
        let mut bytes = ArrayVec::new();
        bytes.push(tag);
        for field in fields {
            bytes.push(b',');
            // The line has room for it: `requires` asks for that.
            let _ = bytes.try_extend_from_slice(field);
        }
        bytes.push(b'\n');
        Line { bytes }
    }

    pub(crate) fn length(&self) -> usize
        ensures is { result ≡ length (text_of self.now) }
        ensures short { result ≤ 128 }
    {
        self.bytes.len()
    }

    // Writes the line at the front of an output.
    pub(crate) fn put(&self, out: &mut [u8]) -> usize
        requires { length (text_of self.now) ≤ length out.old }
        ensures is { out.new ≡ put_text (text_of self.now) out.old }
        ensures len { result ≡ length (text_of self.now) }
    {
        let n = self.bytes.len();
        out[..n].copy_from_slice(&self.bytes);
        n
    }
}

// How many bytes stand before the first zero byte.
fn zero_at(bytes: &[u8]) -> usize
    ensures { result ≡ prefix_len (λ b. not (b == 0)) bytes.now }
{
    bytes.iter().take_while(|b| **b != 0).count()
}

// The bytes before the first zero byte.
#[tactic(auto, using(crate::proofs::Zeros::before_zero))]
pub(crate) fn until_zero(bytes: &[u8]) -> &[u8]
    ensures is { result.now ≡ until_zero bytes.now }
    ensures few { length result.now ≤ length bytes.now }
{
    let end = zero_at(bytes);
    &bytes[..end]
}
