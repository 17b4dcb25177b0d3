// What a reader looks at before the lines, and the longest texts.
use super::asked::{refused_as, refused_with};
use domain::entry::Side;
use std::alloc::{AllocError, Global};
use std::process::Abort;
use std::test::Fail;

// A text for an account, and what it is refused with; none where it is taken.
struct Account {
    currency: &'static str,
    digits: u8,
    text: &'static [u8],
    refused: Option<(u8, usize)>,
}

fn check_accounts(rt: &impl Abort, side: Side, table: &[Account]) {
    for case in table {
        let answer = refused_as(side, case.text, case.currency.as_bytes(), case.digits);
        assert_eq!(rt; answer, case.refused, "{}", case.currency);
    }
}

static BANK_ACCOUNTS: [Account; 11] = [
    Account {
        currency: "JPY",
        digits: 0,
        text: b":20:S\n:25:1\n:28C:7\n:60F:C240301JPY1000,\n:62F:C240301JPY1000,\n-\n",
        refused: None,
    },
    Account {
        currency: "JPY",
        digits: 0,
        text: b":20:S\n:25:1\n:28C:7\n:60F:C240301JPY1000,0\n:62F:C240301JPY1000,\n-\n",
        refused: Some((4, 19)),
    },
    Account {
        currency: "KWD",
        digits: 3,
        text: b":20:S\n:25:1\n:28C:7\n:60F:C240301KWD1,505\n:62F:C240301KWD1,505\n-\n",
        refused: None,
    },
    Account {
        currency: "KWD",
        digits: 3,
        text: b":20:S\n:25:1\n:28C:7\n:60F:C240301KWD1,505\n:62F:C240301KWD1,5050\n-\n",
        refused: Some((4, 40)),
    },
    Account {
        currency: "USD",
        digits: 2,
        text: b":20:S\n:25:1\n:28C:7\n:60F:C240301EUR1,50\n:62F:C240301EUR1,50\n-\n",
        refused: Some((5, 19)),
    },
    Account {
        currency: "EUR",
        digits: 1,
        text: b"",
        refused: Some((4, 0)),
    },
    Account {
        currency: "EUR",
        digits: 4,
        text: b"-\n",
        refused: Some((4, 0)),
    },
    Account {
        currency: "eur",
        digits: 1,
        text: b"-\n",
        refused: Some((4, 0)),
    },
    Account {
        currency: "eur",
        digits: 2,
        text: b"-\n",
        refused: Some((5, 0)),
    },
    Account {
        currency: "EU",
        digits: 2,
        text: b"",
        refused: Some((5, 0)),
    },
    Account {
        currency: "EURO",
        digits: 2,
        text: b"",
        refused: Some((5, 0)),
    },
];

static BOOK_ACCOUNTS: [Account; 6] = [
    Account {
        currency: "KWD",
        digits: 3,
        text: b"B,KWD,7,240301,1505\nZ,0,240301,1505\n",
        refused: None,
    },
    Account {
        currency: "KWD",
        digits: 3,
        text: b"B,EUR,7,240301,1505\nZ,0,240301,1505\n",
        refused: Some((5, 0)),
    },
    Account {
        currency: "EUR",
        digits: 1,
        text: b"X\n",
        refused: Some((4, 0)),
    },
    Account {
        currency: "E1R",
        digits: 255,
        text: b"X\n",
        refused: Some((4, 0)),
    },
    Account {
        currency: "E1R",
        digits: 0,
        text: b"X\n",
        refused: Some((5, 0)),
    },
    Account {
        currency: "",
        digits: 2,
        text: b"",
        refused: Some((5, 0)),
    },
];

#[test]
fn accounts(rt: HostRuntime) {
    check_accounts(&rt, Side::Bank, &BANK_ACCOUNTS);
    check_accounts(&rt, Side::Book, &BOOK_ACCOUNTS);
}

#[test]
fn longest_texts(rt: HostRuntime) -> Result<(), Fail> {
    let most: Vec<u8> = vec![in rt.alloc(); 65; 1_048_576]?;
    assert_eq!(rt; refused_with(Side::Bank, &most), Some((12, 1_048_576)));
    assert_eq!(rt; refused_with(Side::Book, &most), Some((12, 1_048_576)));
    let over: Vec<u8> = vec![in rt.alloc(); 65; 1_048_577]?;
    assert_eq!(rt; refused_with(Side::Bank, &over), Some((11, 0)));
    assert_eq!(rt; refused_with(Side::Book, &over), Some((11, 0)));
    assert_eq!(rt; refused_as(Side::Bank, &over, b"eur", 2), Some((5, 0)));
    assert_eq!(rt; refused_as(Side::Book, &over, b"EUR", 1), Some((4, 0)));
    Ok(())
}

// A text with 4,096 entries, and what follows them.
struct Many {
    side: Side,
    front: &'static [u8],
    entry: &'static [u8],
    back: &'static str,
    refused: Option<(u8, usize)>,
}

fn repeated(heap: Global, case: &Many) -> Result<Vec<u8>, AllocError> {
    let mut text = Vec::new(heap);
    text.extend_from_slice(case.front)?;
    for _ in 0..4096 {
        text.extend_from_slice(case.entry)?;
    }
    text.extend_from_slice(case.back.as_bytes())?;
    Ok(text)
}

// The front has 41 bytes and each entry 19, so behind 4,096 of them stands offset 77,865; in the book 20 and 20, and 81,940.
static MANY: [Many; 6] = [
    Many {
        side: Side::Bank,
        front: b":20:S7\n:25:1\n:28C:7/1\n:60F:C240301EUR10,\n",
        entry: b":61:240301C0,NTRFA\n",
        back: ":62F:C240301EUR10,\n-\n",
        refused: None,
    },
    Many {
        side: Side::Bank,
        front: b":20:S7\n:25:1\n:28C:7/1\n:60F:C240301EUR10,\n",
        entry: b":61:240301C0,NTRFA\n",
        back: ":61:240301C0,NTRFA\n:62F:C240301EUR10,\n-\n",
        refused: Some((11, 77_865)),
    },
    Many {
        side: Side::Bank,
        front: b":20:S7\n:25:1\n:28C:7/1\n:60F:C240301EUR10,\n",
        entry: b":61:240301C0,NTRFA\n",
        back: ":61:240301C0NTRFA\n:62F:C240301EUR10,\n-\n",
        refused: Some((4, 77_865)),
    },
    Many {
        side: Side::Book,
        front: b"B,EUR,7,240301,1000\n",
        entry: b"E,240302,240302,0,,\n",
        back: "Z,4096,240302,1000\n",
        refused: None,
    },
    Many {
        side: Side::Book,
        front: b"B,EUR,7,240301,1000\n",
        entry: b"E,240302,240302,0,,\n",
        back: "R,240302,240302,0,,\nZ,4097,240302,1000\n",
        refused: Some((11, 81_940)),
    },
    Many {
        side: Side::Book,
        front: b"B,EUR,7,240301,1000\n",
        entry: b"E,240302,240302,0,,\n",
        back: "R,240230,240302,0,,\nZ,4097,240302,1000\n",
        refused: Some((3, 81_940)),
    },
];

#[test]
fn most_entries(rt: HostRuntime) -> Result<(), Fail> {
    for case in &MANY {
        let text = repeated(rt.alloc(), case)?;
        assert_eq!(rt;
            refused_with(case.side, &text),
            case.refused,
            "{}",
            case.back
        );
    }
    Ok(())
}
