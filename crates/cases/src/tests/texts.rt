// Whole texts that are damaged, or unusual and right.
use super::asked::refused_with;
use domain::entry::Side;
use std::process::Abort;

// A text, and the number and the offset that it is refused with; none where it is taken.
struct Case {
    name: &'static str,
    text: &'static [u8],
    refused: Option<(u8, usize)>,
}

fn check_texts(rt: &impl Abort, side: Side, table: &[Case]) {
    for case in table {
        assert_eq!(rt;
            refused_with(side, case.text),
            case.refused,
            "{}",
            case.name
        );
    }
}

// One page opens and closes at 10 EUR; of two, the first adds 5 and the second takes 1.
static STATEMENTS: [Case; 62] = [
    Case {
        name: "nothing",
        text: b"",
        refused: Some((12, 0)),
    },
    Case {
        name: "ends behind its first line",
        text: b":20:S7\n",
        refused: Some((12, 7)),
    },
    Case {
        name: "ends before its last line",
        text: b":20:S7\n:25:1\n:28C:7/1\n:60F:C240301EUR10,\n:62F:C240301EUR10,\n",
        refused: Some((12, 60)),
    },
    Case {
        name: "ends within its first line",
        text: b":20:S7",
        refused: Some((12, 6)),
    },
    Case {
        name: "ends within a line with no known tag",
        text: b":20:S7\n:25:1\n:99:",
        refused: Some((12, 17)),
    },
    Case {
        name: "ends within its last line",
        text: b":20:S7\n:25:1\n:28C:7/1\n:60F:C240301EUR10,\n:62F:C240301EUR10,\n-",
        refused: Some((12, 61)),
    },
    Case {
        name: "ends behind its first page",
        text: b":20:S7\n:25:1\n:28C:7/1\n:60F:C240301EUR10,\n:61:240302C5,NTRFA\n:62M:C240302EUR15,\n-\n",
        refused: Some((12, 81)),
    },
    Case {
        name: "goes on within a line behind its last",
        text: b":20:S7\n:25:1\n:28C:7/1\n:60F:C240301EUR10,\n:62F:C240301EUR10,\n-\nX",
        refused: Some((12, 63)),
    },
    Case {
        name: "a fault before it ends early",
        text: b":20:S7\n:99:\n:25:1\n",
        refused: Some((1, 7)),
    },
    Case {
        name: "one page",
        text: b":20:S7\n:25:1\n:28C:7/1\n:60F:C240301EUR10,\n:62F:C240301EUR10,\n-\n",
        refused: None,
    },
    Case {
        name: "two pages",
        text: b":20:S7\n:25:1\n:28C:7/1\n:60F:C240301EUR10,\n:61:240302C5,NTRFA\n:62M:C240302EUR15,\n-\n:20:S7\n:25:1\n:28C:7/2\n:60M:C240302EUR15,\n:61:240303D1,NTRFB\n:62F:C240303EUR14,\n-\n",
        refused: None,
    },
    Case {
        name: "lines that end in CR LF",
        text: b":20:S7\r\n:25:1\r\n:28C:7/1\r\n:60F:C240301EUR10,\r\n:61:240302C5,NTRFA\r\n:62M:C240302EUR15,\r\n-\r\n:20:S7\r\n:25:1\r\n:28C:7/2\r\n:60M:C240302EUR15,\r\n:61:240303D1,NTRFB\r\n:62F:C240303EUR14,\r\n-\r\n",
        refused: None,
    },
    Case {
        name: "a fault behind lines that end in CR LF",
        text: b":20:S7\r\n:25:1\r\n:28C:7/1\r\n:60F:C240301EUR10,\r\n:61:240302C5,NTRFA\r\n:62M:C240302EUR15,\r\n-\r\n:20:S7\r\n:25:1\r\n:28C:7/2\r\n:60M:C240302EUR15,1\r\n:61:240303D1,NTRFB\r\n:62F:C240303EUR14,\r\n-\r\n",
        refused: Some((7, 113)),
    },
    Case {
        name: "a CR within a line",
        text: b":20:S\r7\n:25:1\n:28C:7/1\n:60F:C240301EUR10,\n:62F:C240301EUR10,\n-\n",
        refused: Some((1, 0)),
    },
    Case {
        name: "two CRs before the LF",
        text: b":20:S7\r\r\n:25:1\n:28C:7/1\n:60F:C240301EUR10,\n:62F:C240301EUR10,\n-\n",
        refused: Some((1, 0)),
    },
    Case {
        name: ":21: first",
        text: b":21:R\n:20:S7\n:25:1\n:28C:7/1\n:60F:C240301EUR10,\n:62F:C240301EUR10,\n-\n",
        refused: Some((2, 0)),
    },
    Case {
        name: ":25: first",
        text: b":25:1\n:28C:7/1\n:60F:C240301EUR10,\n:62F:C240301EUR10,\n-\n",
        refused: Some((2, 0)),
    },
    Case {
        name: "a hyphen first",
        text: b"-\n:20:S7\n:25:1\n:28C:7/1\n:60F:C240301EUR10,\n:62F:C240301EUR10,\n-\n",
        refused: Some((2, 0)),
    },
    Case {
        name: ":28C: without :25:",
        text: b":20:S7\n:28C:7/1\n:60F:C240301EUR10,\n:62F:C240301EUR10,\n-\n",
        refused: Some((2, 7)),
    },
    Case {
        name: ":21: twice",
        text: b":20:S7\n:21:R\n:21:R\n:25:1\n:28C:7/1\n:60F:C240301EUR10,\n:62F:C240301EUR10,\n-\n",
        refused: Some((2, 13)),
    },
    Case {
        name: ":20: of 16 bytes, :21: of 16, :25: of 35",
        text: b":20:1234567890123456\n:21:1234567890123456\n:25:12345678901234567890123456789012345\n:28C:7/1\n:60F:C240301EUR10,\n:62F:C240301EUR10,\n-\n",
        refused: None,
    },
    Case {
        name: ":20: of 17 bytes",
        text: b":20:12345678901234567\n:25:1\n:28C:7/1\n:60F:C240301EUR10,\n:62F:C240301EUR10,\n-\n",
        refused: Some((1, 0)),
    },
    Case {
        name: ":21: of 17 bytes",
        text: b":20:S7\n:21:12345678901234567\n:25:1\n:28C:7/1\n:60F:C240301EUR10,\n:62F:C240301EUR10,\n-\n",
        refused: Some((1, 7)),
    },
    Case {
        name: ":21: empty",
        text: b":20:S7\n:21:\n:25:1\n:28C:7/1\n:60F:C240301EUR10,\n:62F:C240301EUR10,\n-\n",
        refused: Some((1, 7)),
    },
    Case {
        name: ":25: of 36 bytes",
        text: b":20:S7\n:25:123456789012345678901234567890123456\n:28C:7/1\n:60F:C240301EUR10,\n:62F:C240301EUR10,\n-\n",
        refused: Some((1, 7)),
    },
    Case {
        name: ":25: empty",
        text: b":20:S7\n:25:\n:28C:7/1\n:60F:C240301EUR10,\n:62F:C240301EUR10,\n-\n",
        refused: Some((1, 7)),
    },
    Case {
        name: "a further line of :61:",
        text: b":20:S7\n:25:1\n:28C:7/1\n:60F:C240301EUR10,\n:61:240301C0,NTRFA\none\n:62F:C240301EUR10,\n-\n",
        refused: None,
    },
    Case {
        name: "a second further line of :61:",
        text: b":20:S7\n:25:1\n:28C:7/1\n:60F:C240301EUR10,\n:61:240301C0,NTRFA\none\ntwo\n:62F:C240301EUR10,\n-\n",
        refused: Some((2, 64)),
    },
    Case {
        name: "five further lines of :86:",
        text: b":20:S7\n:25:1\n:28C:7/1\n:60F:C240301EUR10,\n:61:240301C0,NTRFA\none\n:86:X\n1\n2\n3\n4\n5\n:62F:C240301EUR10,\n-\n",
        refused: None,
    },
    Case {
        name: "a sixth further line of :86:",
        text: b":20:S7\n:25:1\n:28C:7/1\n:60F:C240301EUR10,\n:61:240301C0,NTRFA\n:86:\n1\n2\n3\n4\n5\n6\n:62F:C240301EUR10,\n-\n",
        refused: Some((2, 75)),
    },
    Case {
        name: "five further lines of :86: behind the closing",
        text: b":20:S7\n:25:1\n:28C:7/1\n:60F:C240301EUR10,\n:62F:C240301EUR10,\n:86:\n1\n2\n3\n4\n5\n-\n",
        refused: None,
    },
    Case {
        name: "a sixth further line of :86: behind the closing",
        text: b":20:S7\n:25:1\n:28C:7/1\n:60F:C240301EUR10,\n:62F:C240301EUR10,\n:86:X\n1\n2\n3\n4\n5\n6\n-\n",
        refused: Some((2, 76)),
    },
    Case {
        name: "a further line behind the closing",
        text: b":20:S7\n:25:1\n:28C:7/1\n:60F:C240301EUR10,\n:62F:C240301EUR10,\none\n-\n",
        refused: Some((2, 60)),
    },
    Case {
        name: ":86: twice",
        text: b":20:S7\n:25:1\n:28C:7/1\n:60F:C240301EUR10,\n:61:240301C0,NTRFA\n:86:X\n:86:X\n:62F:C240301EUR10,\n-\n",
        refused: Some((2, 66)),
    },
    Case {
        name: ":86: twice behind the closing",
        text: b":20:S7\n:25:1\n:28C:7/1\n:60F:C240301EUR10,\n:62F:C240301EUR10,\n:86:X\n:86:X\n-\n",
        refused: Some((2, 66)),
    },
    Case {
        name: ":61: behind the closing",
        text: b":20:S7\n:25:1\n:28C:7/1\n:60F:C240301EUR10,\n:62F:C240301EUR10,\n:61:240301C0,NTRFA\n-\n",
        refused: Some((2, 60)),
    },
    Case {
        name: ":62F: twice",
        text: b":20:S7\n:25:1\n:28C:7/1\n:60F:C240301EUR10,\n:62F:C240301EUR10,\n:62F:C240301EUR10,\n-\n",
        refused: Some((2, 60)),
    },
    Case {
        name: "a line of 80 bytes",
        text: b":20:S7\n:25:1\n:28C:7/1\n:60F:C240301EUR10,\n:61:240301C0,NTRFA\n:86:xxxxxxxxxxxxxxxxxxxxxxxxxxxxxxxxxxxxxxxxxxxxxxxxxxxxxxxxxxxxxxxxxxxxxxxxxxxx\n:62F:C240301EUR10,\n-\n",
        refused: None,
    },
    Case {
        name: "a line of 81 bytes",
        text: b":20:S7\n:25:1\n:28C:7/1\n:60F:C240301EUR10,\n:61:240301C0,NTRFA\n:86:xxxxxxxxxxxxxxxxxxxxxxxxxxxxxxxxxxxxxxxxxxxxxxxxxxxxxxxxxxxxxxxxxxxxxxxxxxxxx\n:62F:C240301EUR10,\n-\n",
        refused: Some((1, 60)),
    },
    Case {
        name: "a further line of 81 bytes",
        text: b":20:S7\n:25:1\n:28C:7/1\n:60F:C240301EUR10,\n:61:240301C0,NTRFA\nxxxxxxxxxxxxxxxxxxxxxxxxxxxxxxxxxxxxxxxxxxxxxxxxxxxxxxxxxxxxxxxxxxxxxxxxxxxxxxxxx\n:62F:C240301EUR10,\n-\n",
        refused: Some((1, 60)),
    },
    Case {
        name: "a further line of 80 bytes",
        text: b":20:S7\n:25:1\n:28C:7/1\n:60F:C240301EUR10,\n:61:240301C0,NTRFA\nxxxxxxxxxxxxxxxxxxxxxxxxxxxxxxxxxxxxxxxxxxxxxxxxxxxxxxxxxxxxxxxxxxxxxxxxxxxxxxxx\n:62F:C240301EUR10,\n-\n",
        refused: None,
    },
    Case {
        name: "the largest amount",
        text: b":20:S7\n:25:1\n:28C:7/1\n:60F:C240301EUR999999999999,99\n:62F:C240301EUR999999999999,99\n-\n",
        refused: None,
    },
    Case {
        name: "the largest amount, negative",
        text: b":20:S7\n:25:1\n:28C:7/1\n:60F:D240301EUR999999999999,99\n:62F:D240301EUR999999999999,99\n-\n",
        refused: None,
    },
    Case {
        name: "a running total outside the amounts",
        text: b":20:S7\n:25:1\n:28C:7/1\n:60F:C240301EUR999999999999,99\n:61:240301C1,NTRFA\n:61:240301D1,NTRFA\n:62F:C240301EUR999999999999,99\n-\n",
        refused: None,
    },
    Case {
        name: "zero as D and as C",
        text: b":20:S7\n:25:1\n:28C:7/1\n:60F:D240301EUR0,\n:62F:C240301EUR0,\n-\n",
        refused: None,
    },
    Case {
        name: "page 2 closes on another amount",
        text: b":20:S7\n:25:1\n:28C:7/1\n:60F:C240301EUR10,\n:61:240302C5,NTRFA\n:62M:C240302EUR15,\n-\n:20:S7\n:25:1\n:28C:7/2\n:60M:C240302EUR15,\n:61:240303D1,NTRFB\n:62F:C240303EUR15,\n-\n",
        refused: Some((7, 141)),
    },
    Case {
        name: "page 1 does not balance, and page 2 makes up for it",
        text: b":20:S7\n:25:1\n:28C:7/1\n:60F:C240301EUR10,\n:61:240302C5,NTRFA\n:62M:C240302EUR14,\n-\n:20:S7\n:25:1\n:28C:7/2\n:60M:C240302EUR14,\n:61:240303C0,NTRFB\n:62F:C240303EUR14,\n-\n",
        refused: Some((7, 60)),
    },
    Case {
        name: "page 2 opens on another amount",
        text: b":20:S7\n:25:1\n:28C:7/1\n:60F:C240301EUR10,\n:61:240302C5,NTRFA\n:62M:C240302EUR15,\n-\n:20:S7\n:25:1\n:28C:7/2\n:60M:C240302EUR15,01\n:61:240303D1,NTRFB\n:62F:C240303EUR14,\n-\n",
        refused: Some((7, 103)),
    },
    Case {
        name: "page 2 opens on another sign",
        text: b":20:S7\n:25:1\n:28C:7/1\n:60F:C240301EUR10,\n:61:240302C5,NTRFA\n:62M:C240302EUR15,\n-\n:20:S7\n:25:1\n:28C:7/2\n:60M:D240302EUR15,\n:61:240303D1,NTRFB\n:62F:C240303EUR14,\n-\n",
        refused: Some((7, 103)),
    },
    Case {
        name: "page 2 opens on another day",
        text: b":20:S7\n:25:1\n:28C:7/1\n:60F:C240301EUR10,\n:61:240302C5,NTRFA\n:62M:C240302EUR15,\n-\n:20:S7\n:25:1\n:28C:7/2\n:60M:C240303EUR15,\n:61:240303D1,NTRFB\n:62F:C240303EUR14,\n-\n",
        refused: Some((7, 103)),
    },
    Case {
        name: "page 2 opens in another currency on another day",
        text: b":20:S7\n:25:1\n:28C:7/1\n:60F:C240301EUR10,\n:61:240302C5,NTRFA\n:62M:C240302EUR15,\n-\n:20:S7\n:25:1\n:28C:7/2\n:60M:C240303USD15,\n:61:240303D1,NTRFB\n:62F:C240303EUR14,\n-\n",
        refused: Some((5, 103)),
    },
    Case {
        name: "page 2 opens with :60F:",
        text: b":20:S7\n:25:1\n:28C:7/1\n:60F:C240301EUR10,\n:61:240302C5,NTRFA\n:62M:C240302EUR15,\n-\n:20:S7\n:25:1\n:28C:7/2\n:60F:C240302EUR15,\n:61:240303D1,NTRFB\n:62F:C240303EUR14,\n-\n",
        refused: Some((2, 103)),
    },
    Case {
        name: "page 2 of another number",
        text: b":20:S7\n:25:1\n:28C:7/1\n:60F:C240301EUR10,\n:61:240302C5,NTRFA\n:62M:C240302EUR15,\n-\n:20:S7\n:25:1\n:28C:8/2\n:60M:C240302EUR15,\n:61:240303D1,NTRFB\n:62F:C240303EUR14,\n-\n",
        refused: Some((6, 94)),
    },
    Case {
        name: "page 3 behind page 1",
        text: b":20:S7\n:25:1\n:28C:7/1\n:60F:C240301EUR10,\n:61:240302C5,NTRFA\n:62M:C240302EUR15,\n-\n:20:S7\n:25:1\n:28C:7/3\n:60M:C240302EUR15,\n:61:240303D1,NTRFB\n:62F:C240303EUR14,\n-\n",
        refused: Some((6, 94)),
    },
    Case {
        name: "page 1 twice",
        text: b":20:S7\n:25:1\n:28C:7/1\n:60F:C240301EUR10,\n:61:240302C5,NTRFA\n:62M:C240302EUR15,\n-\n:20:S7\n:25:1\n:28C:7/1\n:60M:C240302EUR15,\n:61:240303D1,NTRFB\n:62F:C240303EUR14,\n-\n",
        refused: Some((6, 94)),
    },
    Case {
        name: "page 2 with no page stated",
        text: b":20:S7\n:25:1\n:28C:7/1\n:60F:C240301EUR10,\n:61:240302C5,NTRFA\n:62M:C240302EUR15,\n-\n:20:S7\n:25:1\n:28C:7\n:60M:C240302EUR15,\n:61:240303D1,NTRFB\n:62F:C240303EUR14,\n-\n",
        refused: Some((6, 94)),
    },
    Case {
        name: "number 0 on page 2",
        text: b":20:S7\n:25:1\n:28C:7/1\n:60F:C240301EUR10,\n:61:240302C5,NTRFA\n:62M:C240302EUR15,\n-\n:20:S7\n:25:1\n:28C:0/2\n:60M:C240302EUR15,\n:61:240303D1,NTRFB\n:62F:C240303EUR14,\n-\n",
        refused: Some((6, 94)),
    },
    Case {
        name: "a page behind the last",
        text: b":20:S7\n:25:1\n:28C:7/1\n:60F:C240301EUR10,\n:62F:C240301EUR10,\n-\n:20:S7\n:25:1\n:28C:7/1\n:60F:C240301EUR10,\n:62F:C240301EUR10,\n-\n",
        refused: Some((2, 62)),
    },
    Case {
        name: "a hyphen behind the last page",
        text: b":20:S7\n:25:1\n:28C:7/1\n:60F:C240301EUR10,\n:62F:C240301EUR10,\n-\n-\n",
        refused: Some((2, 62)),
    },
    Case {
        name: "an empty line behind the last page",
        text: b":20:S7\n:25:1\n:28C:7/1\n:60F:C240301EUR10,\n:62F:C240301EUR10,\n-\n\n",
        refused: Some((1, 62)),
    },
    Case {
        name: ":25: first on page 2",
        text: b":20:S7\n:25:1\n:28C:7/1\n:60F:C240301EUR10,\n:61:240302C5,NTRFA\n:62M:C240302EUR15,\n-\n:25:1\n:28C:7/2\n:60M:C240302EUR15,\n:61:240303D1,NTRFB\n:62F:C240303EUR14,\n-\n",
        refused: Some((2, 81)),
    },
    Case {
        name: ":86: first on page 2",
        text: b":20:S7\n:25:1\n:28C:7/1\n:60F:C240301EUR10,\n:61:240302C5,NTRFA\n:62M:C240302EUR15,\n-\n:86:X\n:20:S7\n:25:1\n:28C:7/2\n:60M:C240302EUR15,\n:61:240303D1,NTRFB\n:62F:C240303EUR14,\n-\n",
        refused: Some((2, 81)),
    },
];

#[test]
fn statements(rt: HostRuntime) {
    check_texts(&rt, Side::Bank, &STATEMENTS);
}

// A book of 1000, plus 500, less 100.
static BOOKS: [Case; 19] = [
    Case {
        name: "nothing",
        text: b"",
        refused: Some((12, 0)),
    },
    Case {
        name: "ends behind its first line",
        text: b"B,EUR,7,240301,1000\n",
        refused: Some((12, 20)),
    },
    Case {
        name: "ends before its last line",
        text: b"B,EUR,7,240301,1000\nE,240302,240302,500,A,x\nR,240303,240303,-100,B,y\n",
        refused: Some((12, 69)),
    },
    Case {
        name: "ends within its first line",
        text: b"B,EUR",
        refused: Some((12, 5)),
    },
    Case {
        name: "ends within a line with no known tag",
        text: b"B,EUR,7,240301,1000\nX",
        refused: Some((12, 21)),
    },
    Case {
        name: "ends within its last line",
        text: b"B,EUR,7,240301,1000\nE,240302,240302,500,A,x\nR,240303,240303,-100,B,y\nZ,2,240303,1400",
        refused: Some((12, 84)),
    },
    Case {
        name: "goes on within a line behind its last",
        text: b"B,EUR,7,240301,1000\nE,240302,240302,500,A,x\nR,240303,240303,-100,B,y\nZ,2,240303,1400\nX",
        refused: Some((12, 86)),
    },
    Case {
        name: "a fault before it ends early",
        text: b"B,EUR,7,240301,1000\nX\n",
        refused: Some((1, 20)),
    },
    Case {
        name: "a whole book",
        text: b"B,EUR,7,240301,1000\nE,240302,240302,500,A,x\nR,240303,240303,-100,B,y\nZ,2,240303,1400\n",
        refused: None,
    },
    Case {
        name: "no entries",
        text: b"B,EUR,7,240301,1000\nZ,0,240301,1000\n",
        refused: None,
    },
    Case {
        name: "lines that end in CR LF",
        text: b"B,EUR,7,240301,1000\r\nE,240302,240302,500,A,x\r\nR,240303,240303,-100,B,y\r\nZ,2,240303,1400\r\n",
        refused: None,
    },
    Case {
        name: "a fault behind lines that end in CR LF",
        text: b"B,EUR,7,240301,1000\r\nE,240302,240302,500,A,x\r\nR,240303,240303,-100,B,y\r\nZ,3,240303,1400\r\n",
        refused: Some((9, 72)),
    },
    Case {
        name: "a CR within a line",
        text: b"B,EUR,7,240301,1000\nE,240302,240302,500,A,\rx\nR,240303,240303,-100,B,y\nZ,2,240303,1400\n",
        refused: Some((1, 20)),
    },
    Case {
        name: "a second first line",
        text: b"B,EUR,7,240301,1000\nB,EUR,7,240301,1000\nE,240302,240302,500,A,x\nR,240303,240303,-100,B,y\nZ,2,240303,1400\n",
        refused: Some((2, 20)),
    },
    Case {
        name: "a second last line",
        text: b"B,EUR,7,240301,1000\nE,240302,240302,500,A,x\nR,240303,240303,-100,B,y\nZ,2,240303,1400\nZ,2,240303,1400\n",
        refused: Some((2, 85)),
    },
    Case {
        name: "an entry behind the last line",
        text: b"B,EUR,7,240301,1000\nE,240302,240302,500,A,x\nR,240303,240303,-100,B,y\nZ,2,240303,1400\nE,240302,240302,500,A,x\n",
        refused: Some((2, 85)),
    },
    Case {
        name: "an empty line behind the last line",
        text: b"B,EUR,7,240301,1000\nE,240302,240302,500,A,x\nR,240303,240303,-100,B,y\nZ,2,240303,1400\n\n",
        refused: Some((1, 85)),
    },
    Case {
        name: "the largest amounts",
        text: b"B,EUR,7,240301,99999999999999\nE,240302,240302,-99999999999999,,\nE,240302,240302,-99999999999999,,\nZ,2,240303,-99999999999999\n",
        refused: None,
    },
    Case {
        name: "a running total outside the amounts",
        text: b"B,EUR,7,240301,99999999999999\nE,240302,240302,1,,\nE,240302,240302,-1,,\nZ,2,240303,99999999999999\n",
        refused: None,
    },
];

#[test]
fn books(rt: HostRuntime) {
    check_texts(&rt, Side::Book, &BOOKS);
}
