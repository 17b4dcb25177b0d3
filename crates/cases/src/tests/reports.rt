// Two texts, and what reconciling them prints or is refused with.
use super::asked::number_and_offset;
use domain::blank::blank;
use domain::entry::Item;
use reconcile::reconcile;
use std::alloc::{AllocError, Global};
use std::process::Abort;
use std::test::Fail;

// The byte that the output is filled with before a call.
const UNWRITTEN: u8 = 170;

// Two texts, a table that is just large enough, and the report.
struct Example {
    name: &'static str,
    bank: &'static [u8],
    book: &'static [u8],
    positions: usize,
    report: &'static [u8],
}

fn is_unwritten(out: &[u8]) -> bool {
    out.iter().all(|b| *b == UNWRITTEN)
}

// Runs a case in an output of some bytes more than its report has.
fn check_report(rt: &impl Abort, heap: Global, case: &Example, more: &[u8]) -> Result<(), Fail> {
    let mut table: Vec<Item> = vec![in heap; blank(); case.positions]?;
    let mut out: Vec<u8> = vec![in heap; UNWRITTEN; case.report.len()]?;
    out.extend_from_slice(more)?;
    match reconcile(case.bank, case.book, &mut table, &mut out) {
        Ok(n) => {
            assert_eq!(rt; &out[0..n], case.report, "{}", case.name);
            assert!(rt; is_unwritten(&out[n..]), "{}", case.name);
            Ok(())
        }
        Err(refused) => {
            assert_eq!(rt; number_and_offset(refused), (0, 0), "{}", case.name);
            Ok(())
        },
    }
}

static EXAMPLES: [Example; 4] = [
    Example {
        name: "the worked example",
        bank: b":20:S7\n\
:25:12345678\n\
:28C:7/1\n\
:60F:C240301EUR1000,\n\
:61:2403040304C1250,50NTRFINV0042\n\
:61:2403050305D300,NTRFCHQ17\n\
:62F:C240305EUR1950,50\n\
-\n",
        book: b"B,EUR,7,240301,90000\n\
E,240304,240304,125050,INV0042,Sale\n\
E,240305,240305,-45000,CHQ18,Rent\n\
Z,2,240305,170050\n",
        positions: 4,
        report: b"R,EUR,2\n\
B,7,240305,195050\n\
H,7,240305,170050\n\
D,10000\n\
O,B,2,240305,-30000,CHQ17\n\
O,H,4,240305,-45000,CHQ18\n\
T,1,-30000,1,-45000\n",
    },
    Example {
        name: "a receipt behind the page break",
        bank: b":20:S12\n\
:25:12345678\n\
:28C:12/1\n\
:60F:C240301EUR1000,\n\
:61:240304D15,NCHGNONREF\n\
:62M:C240304EUR985,\n\
-\n\
:20:S12\n\
:25:12345678\n\
:28C:12/2\n\
:60M:C240304EUR985,\n\
:61:240305C1250,50NTRFINV0042\n\
:62F:C240305EUR2235,50\n\
-\n",
        book: b"B,EUR,3,240301,95000\n\
E,240304,240304,125050,INV0042,Sale\n\
Z,1,240304,220050\n",
        positions: 3,
        report: b"R,EUR,2\n\
B,12,240305,223550\n\
H,3,240304,220050\n\
D,5000\n\
O,B,1,240304,-1500,\n\
T,1,-1500,0,0\n",
    },
    Example {
        name: "RC undoes a receipt, and blank keys are not equal",
        bank: b":20:S1\n\
:25:1\n\
:28C:1\n\
:60F:D240301EUR10,\n\
:61:240304C20,NTRFINV1\n\
:61:240305C7,NTRFNONREF\n\
:61:240305RC20,NTRFINV1\n\
:62F:D240305EUR3,\n\
-\n",
        book: b"B,EUR,1,240301,0\n\
E,240304,240304,2000,INV1,Sale\n\
E,240305,240305,700,NONREF,Cash\n\
Z,2,240305,2700\n",
        positions: 5,
        report: b"R,EUR,2\n\
B,1,240305,-300\n\
H,1,240305,2700\n\
D,-1000\n\
O,B,2,240305,700,\n\
O,H,4,240304,2000,INV1\n\
O,H,5,240305,700,\n\
T,1,700,2,2700\n",
    },
    Example {
        name: "nothing moved",
        bank: b":20:S1\n:25:1\n:28C:1\n:60F:C240229EUR0,\n:62F:D240229EUR0,\n-\n",
        book: b"B,EUR,99999,240101,0\nZ,0,240229,0\n",
        positions: 1,
        report: b"R,EUR,2\nB,1,240229,0\nH,99999,240229,0\nD,0\nT,0,0,0,0\n",
    },
];

#[test]
fn worked_examples(rt: HostRuntime) -> Result<(), Fail> {
    for case in &EXAMPLES {
        check_report(&rt, rt.alloc(), case, b"")?;
        check_report(&rt, rt.alloc(), case, &[UNWRITTEN; 3])?;
    }
    Ok(())
}

// Two texts, the positions of the table, the bytes of the output, and the refusal.
struct Denial {
    name: &'static str,
    bank: &'static [u8],
    book: &'static [u8],
    positions: usize,
    room: usize,
    number: u8,
    offset: usize,
}

// What is refused writes nothing.
fn check_denial(rt: &impl Abort, heap: Global, case: &Denial) -> Result<(), Fail> {
    let mut table: Vec<Item> = vec![in heap; blank(); case.positions]?;
    let mut out: Vec<u8> = vec![in heap; UNWRITTEN; case.room]?;
    let answer = reconcile(case.bank, case.book, &mut table, &mut out).err();
    let answer = answer.map(number_and_offset);
    assert_eq!(rt; answer, Some((case.number, case.offset)), "{}", case.name);
    assert!(rt; is_unwritten(&out), "{}", case.name);
    Ok(())
}

// Where nothing else is said, three positions and 75 bytes are just enough.
static DENIALS: [Denial; 15] = [
    Denial {
        name: "an output one byte too short",
        bank: b":20:S7\n:25:1\n:28C:7\n:60F:C240301EUR10,\n:61:240302C5,NTRFA\n:61:240302C5,NTRFB\n:62F:C240303EUR20,\n-\n",
        book: b"B,EUR,7,240301,1000\nE,240302,240302,500,A,x\nZ,1,240303,1500\n",
        positions: 3,
        room: 74,
        number: 32,
        offset: 0,
    },
    Denial {
        name: "no output",
        bank: b":20:S7\n:25:1\n:28C:7\n:60F:C240301EUR10,\n:61:240302C5,NTRFA\n:61:240302C5,NTRFB\n:62F:C240303EUR20,\n-\n",
        book: b"B,EUR,7,240301,1000\nE,240302,240302,500,A,x\nZ,1,240303,1500\n",
        positions: 3,
        room: 0,
        number: 32,
        offset: 0,
    },
    Denial {
        name: "a table too small for the bank",
        bank: b":20:S7\n:25:1\n:28C:7\n:60F:C240301EUR10,\n:61:240302C5,NTRFA\n:61:240302C5,NTRFB\n:62F:C240303EUR20,\n-\n",
        book: b"B,EUR,7,240301,1000\nE,240302,240302,500,A,x\nZ,1,240303,1500\n",
        positions: 1,
        room: 75,
        number: 24,
        offset: 0,
    },
    Denial {
        name: "a table too small for the book",
        bank: b":20:S7\n:25:1\n:28C:7\n:60F:C240301EUR10,\n:61:240302C5,NTRFA\n:61:240302C5,NTRFB\n:62F:C240303EUR20,\n-\n",
        book: b"B,EUR,7,240301,1000\nE,240302,240302,500,A,x\nZ,1,240303,1500\n",
        positions: 2,
        room: 75,
        number: 24,
        offset: 0,
    },
    Denial {
        name: "a table too small and no output",
        bank: b":20:S7\n:25:1\n:28C:7\n:60F:C240301EUR10,\n:61:240302C5,NTRFA\n:61:240302C5,NTRFB\n:62F:C240303EUR20,\n-\n",
        book: b"B,EUR,7,240301,1000\nE,240302,240302,500,A,x\nZ,1,240303,1500\n",
        positions: 2,
        room: 0,
        number: 24,
        offset: 0,
    },
    Denial {
        name: "an empty table",
        bank: b":20:S7\n:25:1\n:28C:7\n:60F:C240301EUR10,\n:61:240302C5,NTRFA\n:61:240302C5,NTRFB\n:62F:C240303EUR20,\n-\n",
        book: b"B,EUR,7,240301,1000\nE,240302,240302,500,A,x\nZ,1,240303,1500\n",
        positions: 0,
        room: 0,
        number: 20,
        offset: 0,
    },
    Denial {
        name: "a table of 8,193 positions",
        bank: b":20:S7\n:25:1\n:28C:7\n:60F:C240301EUR10,\n:61:240302C5,NTRFA\n:61:240302C5,NTRFB\n:62F:C240303EUR20,\n-\n",
        book: b"B,EUR,7,240301,1000\nE,240302,240302,500,A,x\nZ,1,240303,1500\n",
        positions: 8193,
        room: 75,
        number: 20,
        offset: 0,
    },
    Denial {
        name: "the bank closes before it opens",
        bank: b":20:S7\n:25:1\n:28C:7\n:60F:C240301EUR10,\n:61:240302C5,NTRFA\n:61:240302C5,NTRFB\n:62F:C240229EUR20,\n-\n",
        book: b"B,EUR,7,240301,1000\nE,240302,240302,500,A,x\nZ,1,240303,1500\n",
        positions: 3,
        room: 75,
        number: 23,
        offset: 0,
    },
    Denial {
        name: "the book closes before the bank opens",
        bank: b":20:S7\n:25:1\n:28C:7\n:60F:C240301EUR10,\n:61:240302C5,NTRFA\n:61:240302C5,NTRFB\n:62F:C240303EUR20,\n-\n",
        book: b"B,EUR,7,240301,1000\nE,240302,240302,500,A,x\nZ,1,240229,1500\n",
        positions: 3,
        room: 75,
        number: 23,
        offset: 0,
    },
    Denial {
        name: "the bank closes before it opens, and the table is too small",
        bank: b":20:S7\n:25:1\n:28C:7\n:60F:C240301EUR10,\n:61:240302C5,NTRFA\n:61:240302C5,NTRFB\n:62F:C240229EUR20,\n-\n",
        book: b"B,EUR,7,240301,1000\nE,240302,240302,500,A,x\nZ,1,240303,1500\n",
        positions: 1,
        room: 75,
        number: 23,
        offset: 0,
    },
    Denial {
        name: "the bank's text is refused",
        bank: b":20:S7\n:25:1\n:28C:7\n:60F:C240301EUR10,\n:61:240302C5,NTRFA\n:61:240302C5,NTRFB\n:62F:C240303EUR21,\n-\n",
        book: b"B,EUR,7,240301,1000\nE,240302,240302,500,A,x\nZ,1,240303,1500\n",
        positions: 3,
        room: 75,
        number: 7,
        offset: 77,
    },
    Denial {
        name: "the bank's text is refused before the book's",
        bank: b":20:S7\n:25:1\n:28C:7\n:60F:C240301EUR10,\n:61:240302C5,NTRFA\n:61:240302C5,NTRFB\n:62F:C240303EUR21,\n-\n",
        book: b"",
        positions: 3,
        room: 75,
        number: 7,
        offset: 77,
    },
    Denial {
        name: "the book's text is refused",
        bank: b":20:S7\n:25:1\n:28C:7\n:60F:C240301EUR10,\n:61:240302C5,NTRFA\n:61:240302C5,NTRFB\n:62F:C240303EUR20,\n-\n",
        book: b"B,EUR,7,240301,1000\nE,240302,240302,500,A,x\nZ,2,240303,1500\n",
        positions: 3,
        room: 75,
        number: 9,
        offset: 44,
    },
    Denial {
        name: "the book's text ends early, and the table is empty",
        bank: b":20:S7\n:25:1\n:28C:7\n:60F:C240301EUR10,\n:61:240302C5,NTRFA\n:61:240302C5,NTRFB\n:62F:C240303EUR20,\n-\n",
        book: b"B,EUR,7,240301,1000\nE,240302,240302,500,A,x\nZ,1,240303,1500",
        positions: 0,
        room: 75,
        number: 12,
        offset: 59,
    },
    Denial {
        name: "both texts are empty",
        bank: b"",
        book: b"",
        positions: 3,
        room: 75,
        number: 12,
        offset: 0,
    },
];

#[test]
fn denials(rt: HostRuntime) -> Result<(), Fail> {
    for case in &DENIALS {
        check_denial(&rt, rt.alloc(), case)?;
    }
    Ok(())
}

// What texts are refused with that no table of cases can hold; none where they are taken. Table and output are those of recon.
fn refused_with(heap: Global, bank: &[u8], book: &[u8]) -> Result<Option<(u8, usize)>, AllocError> {
    let mut table: Vec<Item> = vec![in heap; blank(); 512]?;
    let mut out: Vec<u8> = vec![in heap; UNWRITTEN; 32_768]?;
    let answer = reconcile(bank, book, &mut table, &mut out).err();
    Ok(answer.map(number_and_offset))
}

#[test]
fn longest_files(rt: HostRuntime) -> Result<(), Fail> {
    let bank = EXAMPLES[0].bank;
    let most: Vec<u8> = vec![in rt.alloc(); 65; 32_768]?;
    let over: Vec<u8> = vec![in rt.alloc(); 65; 32_769]?;
    assert_eq!(rt; refused_with(rt.alloc(), &most, b"")?, Some((12, 32_768)));
    assert_eq!(rt; refused_with(rt.alloc(), &over, b"")?, Some((11, 0)));
    assert_eq!(rt; refused_with(rt.alloc(), bank, &most)?, Some((12, 32_768)));
    assert_eq!(rt; refused_with(rt.alloc(), bank, &over)?, Some((11, 0)));
    assert_eq!(rt; refused_with(rt.alloc(), b":99:\n", &over)?, Some((1, 0)));
    Ok(())
}

// A statement of so many entries.
fn statement_of(heap: Global, count: usize) -> Result<Vec<u8>, AllocError> {
    let mut text = Vec::new(heap);
    text.extend_from_slice(b":20:S7\n:25:1\n:28C:7\n:60F:C240301EUR10,\n")?;
    for _ in 0..count {
        text.extend_from_slice(b":61:240301C0,NTRFA\n")?;
    }
    text.extend_from_slice(b":62F:C240301EUR10,\n-\n")?;
    Ok(text)
}

#[test]
fn most_items(rt: HostRuntime) -> Result<(), Fail> {
    let book = b"B,EUR,7,240301,1000\nZ,0,240301,1000\n";
    let most = statement_of(rt.alloc(), 512)?;
    assert_eq!(rt; refused_with(rt.alloc(), &most, book)?, None);
    let over = statement_of(rt.alloc(), 513)?;
    assert_eq!(rt; refused_with(rt.alloc(), &over, book)?, Some((24, 0)));
    Ok(())
}
