// What the readers answer to a text.
use book::cash_book::CashBook;
use domain::entry::Side;
use domain::refusal::Refused;
use mt940::reader::Mt940;

// The number and the offset that a text in EUR with 2 digits is refused with; none where it is taken.
pub(crate) fn refused_with(side: Side, text: &[u8]) -> Option<(u8, usize)> {
    refused_as(side, text, b"EUR", 2)
}

// The same, of an account in another currency or with other digits.
pub(crate) fn refused_as(
    side: Side,
    text: &[u8],
    currency: &[u8],
    digits: u8,
) -> Option<(u8, usize)> {
    let refused = match side {
        Side::Bank => Mt940::read(text, currency, digits).err(),
        Side::Book => CashBook::read(text, currency, digits).err(),
    };
    refused.map(number_and_offset)
}

// A refusal as it is printed.
pub(crate) fn number_and_offset(refused: Refused) -> (u8, usize) {
    (u8::from(refused.why), refused.offset)
}
