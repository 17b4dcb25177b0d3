// The lines of an MT940 statement, each judged where it stands. Where a line has several faults, the smallest number is answered.
use super::frame::{Frame, Judged, check_all};
use domain::entry::Side;
use std::test::Fail;

static NUMBER: Frame = Frame {
    side: Side::Bank,
    front: ":20:S7\n:25:1\n",
    offset: 13,
    back: ":60F:C240301EUR1000,\n:62F:C240301EUR1000,\n-\n",
};

static NUMBERS: [Judged; 3] = [
    Judged {
        number: None,
        lines: &[":28C:7", ":28C:7/1", ":28C:00007/00001", ":28C:99999"],
    },
    Judged {
        number: Some(1),
        lines: &[
            ":28C:",
            ":28C:/1",
            ":28C:7/",
            ":28C:7x",
            ":28C:7/1/1",
            ":28C:123456",
            ":28C:7/000001",
            ":28:7/1",
        ],
    },
    Judged {
        number: Some(6),
        lines: &[":28C:0", ":28C:00000/1", ":28C:7/0", ":28C:7/2", ":28C:0/2"],
    },
];

#[test]
fn number_lines(rt: HostRuntime) -> Result<(), Fail> {
    check_all(&rt, rt.alloc(), &NUMBER, &NUMBERS)
}

static OPENING: Frame = Frame {
    side: Side::Bank,
    front: ":20:S7\n:25:1\n:28C:7/1\n",
    offset: 22,
    back: ":61:2403040304C1250,50NTRFINV0042\n:62F:C240305EUR2250,50\n-\n",
};

static OPENINGS: [Judged; 6] = [
    Judged {
        number: None,
        lines: &[
            ":60F:C240301EUR1000,",
            ":60F:C240229EUR1000,0",
            ":60F:C791231EUR1000,00",
            ":60F:C800101EUR0001000,00",
        ],
    },
    Judged {
        number: Some(1),
        lines: &[
            "",
            "-X",
            "- ",
            ":60F:",
            ":60F:C",
            ":60F:C24030",
            ":60F:C2403X1EUR1000,",
            ":60F:X240301EUR1000,",
            ":60F:RC240301EUR1000,",
            ":60F:240301EUR1000,",
            ":60F:C240301EURX1000,",
            ":60F:C240301EUR1000,X",
            ":60F:X240230USD1000",
            ":60M:X240301EUR1000,",
            ":60:C240301EUR1000,",
            ":60f:C240301EUR1000,",
            ":64:C240301EUR1000,",
            ":65:C240301EUR1000,",
            ":",
            ":20:",
            ":86:\x7f",
            ":86:\x1f",
        ],
    },
    Judged {
        number: Some(2),
        lines: &[":28C:0/2", ":60M:C240230USD1000", ":86:"],
    },
    Judged {
        number: Some(3),
        lines: &[
            ":60F:C240230EUR1000,",
            ":60F:C230229EUR1000,",
            ":60F:C241301EUR1000,",
            ":60F:C240001EUR1000,",
            ":60F:C240300EUR1000,",
            ":60F:C240230USD1000",
        ],
    },
    Judged {
        number: Some(4),
        lines: &[
            ":60F:C240301",
            ":60F:C240301EUR",
            ":60F:C240301EUR1000",
            ":60F:C240301EUR,",
            ":60F:C240301EUR,50",
            ":60F:C240301EUR1000,505",
            ":60F:C240301EUR1,000,",
            ":60F:C240301EUR1000000000000,",
            ":60F:C240301EUR0000000001000,00",
            ":60F:C240301USD1000",
        ],
    },
    Judged {
        number: Some(5),
        lines: &[
            ":60F:C240301EU1000,",
            ":60F:C240301USD1000,",
            ":60F:C240301eur1000,",
            ":60F:C240301EU 1000,",
        ],
    },
];

#[test]
fn opening_lines(rt: HostRuntime) -> Result<(), Fail> {
    check_all(&rt, rt.alloc(), &OPENING, &OPENINGS)
}

static ENTRY: Frame = Frame {
    side: Side::Bank,
    front: ":20:S7\n:25:1\n:28C:7/1\n:60F:C240301EUR1000,\n",
    offset: 43,
    back: ":62F:C240305EUR2250,50\n-\n",
};

static ENTRIES: [Judged; 5] = [
    Judged {
        number: None,
        lines: &[
            ":61:2403040304C1250,50NTRFINV0042",
            ":61:240304C1250,50NTRFINV0042",
            ":61:2402280229C1250,50NTRFINV0042",
            ":61:2403040304CR1250,50NTRFINV0042",
            ":61:2403040304CD1250,50NTRFINV0042",
            ":61:240304RDX1250,5S103NONREF",
            ":61:2403040304C1250,50FABCA/B",
            ":61:2403040304C1250,50NTRFA/B//C",
            ":61:2403040304C1250,50NTRFA///",
            ":61:2403040304C1250,50NTRF1234567890123456//1234567890123456",
        ],
    },
    Judged {
        number: Some(1),
        lines: &[
            ":61:",
            ":61:240304",
            ":61:2403040304",
            ":61:2403040304C",
            ":61:2403040304C1250,50",
            ":61:2403040304C1250,50NTR",
            ":61:2403040304C1250,50NTRF",
            ":61:2403040304C1250,50NTRF//B",
            ":61:2403040304C1250,50NTRFA//",
            ":61:2403040304C1250,50NTRF12345678901234567",
            ":61:2403040304C1250,50NTRFA//12345678901234567",
            ":61:2403040304C1250,50XTRFREF",
            ":61:2403040304C1250,50NTrFREF",
            ":61:24030403C1250,50NTRFREF",
            ":61:24030X0304C1250,50NTRFREF",
            ":61:2403040304X1250,50NTRFREF",
            ":61:2403040304R1250,50NTRFREF",
            ":61:24030403041250,50NTRFREF",
            ":61:2403040304CRR1250,50NTRFREF",
            ":61:2402300304X1250NTRFREF",
            ":61:2402300304C1250,50NTRF",
        ],
    },
    Judged {
        number: Some(2),
        lines: &[":60F:C240230USD1000", ":28C:0/2"],
    },
    Judged {
        number: Some(3),
        lines: &[
            ":61:2402300304C1250,50NTRFREF",
            ":61:2402280230C1250,50NTRFREF",
            ":61:2302280229C1250,50NTRFREF",
            ":61:2403041304C1250,50NTRFREF",
            ":61:2402300304C1250NTRFREF",
        ],
    },
    Judged {
        number: Some(4),
        lines: &[
            ":61:2403040304CNTRFREF",
            ":61:2403040304C1250NTRFREF",
            ":61:2403040304C,50NTRFREF",
            ":61:2403040304C1250,505NTRFREF",
            ":61:2403040304C12,50,NTRFREF",
            ":61:2403040304C1000000000000,NTRFREF",
        ],
    },
];

#[test]
fn entry_lines(rt: HostRuntime) -> Result<(), Fail> {
    check_all(&rt, rt.alloc(), &ENTRY, &ENTRIES)
}

static CLOSING: Frame = Frame {
    side: Side::Bank,
    front: ":20:S7\n:25:1\n:28C:7/1\n:60F:C240301EUR1000,\n:61:2403040304C1250,50NTRFINV0042\n",
    offset: 77,
    back: "-\n",
};

static CLOSINGS: [Judged; 7] = [
    Judged {
        number: None,
        lines: &[":62F:C240305EUR2250,50", ":62F:C240201EUR2250,5"],
    },
    Judged {
        number: Some(1),
        lines: &[
            ":62F:",
            ":62F:X240230USD1",
            ":62F:C240305EUR2250,50 ",
            ":62:C240305EUR2250,50",
        ],
    },
    Judged {
        number: Some(2),
        lines: &[":60M:C240230USD1000", ":28C:0/2"],
    },
    Judged {
        number: Some(3),
        lines: &[":62F:C240230USD1"],
    },
    Judged {
        number: Some(4),
        lines: &[":62F:C240305USD1"],
    },
    Judged {
        number: Some(5),
        lines: &[":62F:C240305USD1,"],
    },
    Judged {
        number: Some(7),
        lines: &[
            ":62F:C240305EUR2250,51",
            ":62F:D240305EUR2250,50",
            ":62F:C240305EUR1000,",
            ":62M:C240305EUR1250,50",
        ],
    },
];

#[test]
fn closing_lines(rt: HostRuntime) -> Result<(), Fail> {
    check_all(&rt, rt.alloc(), &CLOSING, &CLOSINGS)
}
