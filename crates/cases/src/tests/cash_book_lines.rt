// The lines of a cash book, each judged where it stands. Where a line has several faults, the smallest number is answered.
use super::frame::{Frame, Judged, check_all};
use domain::entry::Side;
use std::test::Fail;

static FIRST: Frame = Frame {
    side: Side::Book,
    front: "",
    offset: 0,
    back: "E,240304,240304,125050,INV0042,Sale\nZ,1,240305,215050\n",
};

static FIRSTS: [Judged; 7] = [
    Judged {
        number: None,
        lines: &["B,EUR,7,240301,90000", "B,EUR,99999,791231,00000000090000"],
    },
    Judged {
        number: Some(1),
        lines: &[
            "",
            "B",
            "BEUR,7,240301,90000",
            "B,EUR,7,240301",
            "B,EUR,7,240301,90000,",
            "B,EUR,,240301,90000",
            "B,EUR,x,240301,90000",
            "B,EUR,-7,240301,90000",
            "B,EUR,000007,240301,90000",
            "B,EUR,7,24030,90000",
            "B,EUR,7,2403011,90000",
            "B,EUR,7,24O301,90000",
            "B,USD,0,24030,-0",
            "b,EUR,7,240301,90000",
            "X,EUR,7,240301,90000",
            ":20:S7",
            "-",
            "B,EUR,7,240301,90000\x7f",
        ],
    },
    Judged {
        number: Some(2),
        lines: &[
            "E,240304,240304,125050,INV0042,Sale",
            "R,240304,240304,125050,INV0042,Sale",
            "E,240230,240304,-0,INV0042,Sale",
            "Z,0,240301,0",
        ],
    },
    Judged {
        number: Some(3),
        lines: &["B,EUR,7,240230,90000", "B,USD,0,240230,-0"],
    },
    Judged {
        number: Some(4),
        lines: &[
            "B,EUR,7,240301,",
            "B,EUR,7,240301,-",
            "B,EUR,7,240301,-0",
            "B,EUR,7,240301,-00",
            "B,EUR,7,240301,+90000",
            "B,EUR,7,240301,--90000",
            "B,EUR,7,240301,900.00",
            "B,EUR,7,240301,000000000090000",
            "B,USD,0,240301,-0",
        ],
    },
    Judged {
        number: Some(5),
        lines: &[
            "B,USD,7,240301,90000",
            "B,EU,7,240301,90000",
            "B,eur,7,240301,90000",
            "B,,7,240301,90000",
            "B,USD,0,240301,90000",
        ],
    },
    Judged {
        number: Some(6),
        lines: &["B,EUR,0,240301,90000", "B,EUR,00000,240301,90000"],
    },
];

#[test]
fn first_lines(rt: HostRuntime) -> Result<(), Fail> {
    check_all(&rt, rt.alloc(), &FIRST, &FIRSTS)
}

static ENTRY: Frame = Frame {
    side: Side::Book,
    front: "B,EUR,7,240301,90000\n",
    offset: 21,
    back: "Z,1,240305,215050\n",
};

// The last two taken lines have 80 bytes; the last line refused with 1 has 81.
static ENTRIES: [Judged; 5] = [
    Judged {
        number: None,
        lines: &[
            "E,240304,240304,125050,INV0042,Sale",
            "R,240304,240229,00000000125050,INV0042,Sale",
            "E,240304,240304,125050,,",
            "E,240304,240304,125050,1234567890123456,",
            "E,240304,240304,125050,INV0042,7890123456789012345678901234567890123456789012345",
            "R,240304,240304,125050,,90123456789012345678901234567890123456789012345678901234",
        ],
    },
    Judged {
        number: Some(1),
        lines: &[
            "E",
            "E,240304,240304,125050,INV0042",
            "E,240304,240304,125050,INV0042,Sale,",
            "E,240304,240304,1250,50,INV0042,Sale",
            "E,24030,240304,125050,INV0042,Sale",
            "E,240304,2403O4,125050,INV0042,Sale",
            "E,240304,,125050,INV0042,Sale",
            "E,240304,240304,125050,12345678901234567,Sale",
            "E,240230,240304,-0,12345678901234567,Sale",
            "F,240304,240304,125050,INV0042,Sale",
            "E,240304,240304,125050,INV0042,Sa\tle",
            "E,240304,240304,125050,INV0042,78901234567890123456789012345678901234567890123456",
        ],
    },
    Judged {
        number: Some(2),
        lines: &["B,EUR,7,240301,90000", "B,USD,0,240230,-0"],
    },
    Judged {
        number: Some(3),
        lines: &[
            "E,240230,240304,125050,INV0042,Sale",
            "E,240304,240431,125050,INV0042,Sale",
            "R,240304,240431,-0,INV0042,Sale",
        ],
    },
    Judged {
        number: Some(4),
        lines: &[
            "E,240304,240304,,INV0042,Sale",
            "E,240304,240304,-0,INV0042,Sale",
            "E,240304,240304,1250.50,INV0042,Sale",
            "R,240304,240304,000000000125050,INV0042,Sale",
        ],
    },
];

#[test]
fn entry_lines(rt: HostRuntime) -> Result<(), Fail> {
    check_all(&rt, rt.alloc(), &ENTRY, &ENTRIES)
}

static LAST: Frame = Frame {
    side: Side::Book,
    front: "B,EUR,7,240301,90000\nE,240304,240304,125050,INV0042,Sale\n",
    offset: 57,
    back: "",
};

static LASTS: [Judged; 7] = [
    Judged {
        number: None,
        lines: &["Z,1,240305,215050", "Z,00001,240201,00000000215050"],
    },
    Judged {
        number: Some(1),
        lines: &[
            "Z",
            "Z,1,240305",
            "Z,1,240305,215050,",
            "Z,,240305,215050",
            "Z,000001,240305,215050",
            "Z,1,24035,215050",
            "Z,2,24035,-0",
        ],
    },
    Judged {
        number: Some(2),
        lines: &["B,EUR,7,240301,90000"],
    },
    Judged {
        number: Some(3),
        lines: &["Z,1,241305,215050", "Z,2,240230,-0"],
    },
    Judged {
        number: Some(4),
        lines: &["Z,1,240305,", "Z,2,240305,-0"],
    },
    Judged {
        number: Some(7),
        lines: &[
            "Z,1,240305,215051",
            "Z,1,240305,-215050",
            "Z,2,240305,125050",
        ],
    },
    Judged {
        number: Some(9),
        lines: &["Z,0,240305,215050", "Z,2,240305,215050"],
    },
];

#[test]
fn last_lines(rt: HostRuntime) -> Result<(), Fail> {
    check_all(&rt, rt.alloc(), &LAST, &LASTS)
}
