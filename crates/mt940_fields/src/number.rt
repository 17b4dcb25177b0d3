ghost use Rattle.std.specs.Prelude.{◌≡◌, ◌≤◌, IfSome};
ghost use Rattle.mt940_fields.specs.Numbers.{numbers_of};

use fields::small_number;
use text::find;

// The number of a statement, and a page of it.
#[derive(Clone, Copy, PartialEq, Eq, Debug)]
pub struct PageNumber {
    pub number: u32,
    pub page: u32,
}

// The statement number and the page of a :28C:; a missing page is 1.
#[tactic(auto, unfolding(crate::specs::Numbers::numbers_of))]
pub fn numbers(body: &[u8]) -> Option<PageNumber>
    ensures is { result ≡ numbers_of body.now }
    ensures small { IfSome result (λ n. (n.number ≤ 99999) × (n.page ≤ 99999)) }
{
    let Some(slash) = find(body, b'/', 0) else {
        let number = small_number(body)?;
        return Some(PageNumber { number, page: 1 });
    };
    let number = small_number(&body[..slash])?;
    let page = small_number(&body[slash + 1..])?;
    Some(PageNumber { number, page })
}
