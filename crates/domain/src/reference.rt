ghost use Rattle.std.specs.Prelude.{◌≡◌, length};
ghost use Rattle.domain.specs.References.{is_reference, is_blank, plain, packed, high_of, low_of};
ghost use Rattle.std.specs.Option.{ok_or};
ghost use Rattle.domain.specs.Makers.{as_key};
ghost use Rattle.domain.specs.Keys.{is_blank_key, bytes_of};
ghost use Rattle.domain.specs.declared.refusal.Refusal.TheVariants.{Form};

use crate::key::Key;
use crate::refusal::Refusal;

// Whether each byte is one from 32 to 126.
pub fn is_plain(bytes: &[u8]) -> bool
    ensures { result ≡ plain bytes.now }
{
    bytes.iter().all(|b| matches!(*b, 32..=126))
}

// The first eight bytes as a number, high byte first, with zero bytes where there are fewer.
fn pack(bytes: &[u8]) -> u64
    ensures { result ≡ packed 8 0 bytes.now }
{
    let mut block = [0; 8];
    let n = bytes.len().min(8);
    block[..n].copy_from_slice(&bytes[..n]);
    u64::from_be_bytes(block)
}

fn is_blank(reference: &[u8]) -> bool
    ensures { result ≡ is_blank reference.now }
{
    reference == b"".as_slice() || reference == b"NONREF".as_slice()
}

fn is_reference(bytes: &[u8]) -> bool
    ensures { result ≡ is_reference bytes.now }
{
    bytes.len() <= 16 && is_plain(bytes)
}

// The two numbers of a reference's key.
fn words(reference: &[u8]) -> (u64, u64)
    ensures high { result.0 ≡ high_of reference.now }
    ensures low { result.1 ≡ low_of reference.now }
{
    if is_blank(reference) {
        return (0, 0);
    }
    let (front, back) = reference.split_at(reference.len().min(8));
    (pack(front), pack(back))
}

impl<'a> TryFrom<&'a [u8]> for Key {
    type Error = Refusal;

    // The key of a reference; refused where these bytes are none.
    ghost try_from_gives = { λ reference made. made ≡ ok_or (as_key reference.now) Form };

    fn try_from(reference: &'a [u8]) -> Result<Key, Refusal> {
        if !is_reference(reference) {
            return Err(Refusal::Form);
        }
        let (high, low) = words(reference);
        Ok(Key { high, low })
    }
}

impl Key {
    pub fn is_blank(self) -> bool
        ensures { result ≡ is_blank_key self }
    {
        self.high == 0 && self.low == 0
    }

    // The sixteen bytes that the key packs.
    pub fn bytes(self) -> [u8; 16]
        ensures { result ≡ bytes_of self }
    {
        let [a, b, c, d, e, f, g, h] = self.high.to_be_bytes();
        let [i, j, k, l, m, n, o, p] = self.low.to_be_bytes();
        [a, b, c, d, e, f, g, h, i, j, k, l, m, n, o, p]
    }
}
