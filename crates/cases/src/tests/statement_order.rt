// The order of the fields of an MT940 statement: at each stage, every line that is not permitted there.
use super::frame::{Frame, Judged, check_lines};
use domain::entry::Side;
use std::test::Fail;

// A stage, and the lines that are not permitted there.
struct Stage {
    frame: Frame,
    misplaced: Judged,
}

static STAGES: [Stage; 15] = [
    // At the beginning.
    Stage {
        frame: Frame {
            side: Side::Bank,
            front: "",
            offset: 0,
            back: ":20:S7\n:25:1\n:28C:7\n:60F:C240301EUR10,\n:62F:C240301EUR10,\n-\n",
        },
        misplaced: Judged {
            number: Some(2),
            lines: &[
                ":21:R",
                ":25:1",
                ":28C:7",
                ":60F:C240301EUR10,",
                ":60M:C240301EUR10,",
                ":61:240301C0,NTRFA",
                ":62F:C240301EUR10,",
                ":62M:C240301EUR10,",
                ":86:X",
                "further",
                "-",
            ],
        },
    },
    // Behind :20:.
    Stage {
        frame: Frame {
            side: Side::Bank,
            front: ":20:S7\n",
            offset: 7,
            back: ":25:1\n:28C:7\n:60F:C240301EUR10,\n:62F:C240301EUR10,\n-\n",
        },
        misplaced: Judged {
            number: Some(2),
            lines: &[
                ":20:S7",
                ":28C:7",
                ":60F:C240301EUR10,",
                ":60M:C240301EUR10,",
                ":61:240301C0,NTRFA",
                ":62F:C240301EUR10,",
                ":62M:C240301EUR10,",
                ":86:X",
                "further",
                "-",
            ],
        },
    },
    // Behind :21:.
    Stage {
        frame: Frame {
            side: Side::Bank,
            front: ":20:S7\n:21:R\n",
            offset: 13,
            back: ":25:1\n:28C:7\n:60F:C240301EUR10,\n:62F:C240301EUR10,\n-\n",
        },
        misplaced: Judged {
            number: Some(2),
            lines: &[
                ":20:S7",
                ":21:R",
                ":28C:7",
                ":60F:C240301EUR10,",
                ":60M:C240301EUR10,",
                ":61:240301C0,NTRFA",
                ":62F:C240301EUR10,",
                ":62M:C240301EUR10,",
                ":86:X",
                "further",
                "-",
            ],
        },
    },
    // Behind :25:.
    Stage {
        frame: Frame {
            side: Side::Bank,
            front: ":20:S7\n:25:1\n",
            offset: 13,
            back: ":28C:7\n:60F:C240301EUR10,\n:62F:C240301EUR10,\n-\n",
        },
        misplaced: Judged {
            number: Some(2),
            lines: &[
                ":20:S7",
                ":21:R",
                ":25:1",
                ":60F:C240301EUR10,",
                ":60M:C240301EUR10,",
                ":61:240301C0,NTRFA",
                ":62F:C240301EUR10,",
                ":62M:C240301EUR10,",
                ":86:X",
                "further",
                "-",
            ],
        },
    },
    // Behind :28C: of page 1.
    Stage {
        frame: Frame {
            side: Side::Bank,
            front: ":20:S7\n:25:1\n:28C:7\n",
            offset: 20,
            back: ":60F:C240301EUR10,\n:62F:C240301EUR10,\n-\n",
        },
        misplaced: Judged {
            number: Some(2),
            lines: &[
                ":20:S7",
                ":21:R",
                ":25:1",
                ":28C:7",
                ":60M:C240301EUR10,",
                ":61:240301C0,NTRFA",
                ":62F:C240301EUR10,",
                ":62M:C240301EUR10,",
                ":86:X",
                "further",
                "-",
            ],
        },
    },
    // Behind :60F:.
    Stage {
        frame: Frame {
            side: Side::Bank,
            front: ":20:S7\n:25:1\n:28C:7\n:60F:C240301EUR10,\n",
            offset: 39,
            back: ":62F:C240301EUR10,\n-\n",
        },
        misplaced: Judged {
            number: Some(2),
            lines: &[
                ":20:S7",
                ":21:R",
                ":25:1",
                ":28C:7",
                ":60F:C240301EUR10,",
                ":60M:C240301EUR10,",
                ":86:X",
                "further",
                "-",
            ],
        },
    },
    // Behind :61:.
    Stage {
        frame: Frame {
            side: Side::Bank,
            front: ":20:S7\n:25:1\n:28C:7\n:60F:C240301EUR10,\n:61:240301C0,NTRFA\n",
            offset: 58,
            back: ":62F:C240301EUR10,\n-\n",
        },
        misplaced: Judged {
            number: Some(2),
            lines: &[
                ":20:S7",
                ":21:R",
                ":25:1",
                ":28C:7",
                ":60F:C240301EUR10,",
                ":60M:C240301EUR10,",
                "-",
            ],
        },
    },
    // Behind the further line of :61:.
    Stage {
        frame: Frame {
            side: Side::Bank,
            front: ":20:S7\n:25:1\n:28C:7\n:60F:C240301EUR10,\n:61:240301C0,NTRFA\none\n",
            offset: 62,
            back: ":62F:C240301EUR10,\n-\n",
        },
        misplaced: Judged {
            number: Some(2),
            lines: &[
                ":20:S7",
                ":21:R",
                ":25:1",
                ":28C:7",
                ":60F:C240301EUR10,",
                ":60M:C240301EUR10,",
                "further",
                "-",
            ],
        },
    },
    // Behind :86: of an entry.
    Stage {
        frame: Frame {
            side: Side::Bank,
            front: ":20:S7\n:25:1\n:28C:7\n:60F:C240301EUR10,\n:61:240301C0,NTRFA\n:86:X\n",
            offset: 64,
            back: ":62F:C240301EUR10,\n-\n",
        },
        misplaced: Judged {
            number: Some(2),
            lines: &[
                ":20:S7",
                ":21:R",
                ":25:1",
                ":28C:7",
                ":60F:C240301EUR10,",
                ":60M:C240301EUR10,",
                ":86:X",
                "-",
            ],
        },
    },
    // Behind the fifth further line of :86:.
    Stage {
        frame: Frame {
            side: Side::Bank,
            front: ":20:S7\n:25:1\n:28C:7\n:60F:C240301EUR10,\n:61:240301C0,NTRFA\n:86:X\n1\n2\n3\n4\n5\n",
            offset: 74,
            back: ":62F:C240301EUR10,\n-\n",
        },
        misplaced: Judged {
            number: Some(2),
            lines: &[
                ":20:S7",
                ":21:R",
                ":25:1",
                ":28C:7",
                ":60F:C240301EUR10,",
                ":60M:C240301EUR10,",
                ":86:X",
                "further",
                "-",
            ],
        },
    },
    // Behind :62F:.
    Stage {
        frame: Frame {
            side: Side::Bank,
            front: ":20:S7\n:25:1\n:28C:7\n:60F:C240301EUR10,\n:62F:C240301EUR10,\n",
            offset: 58,
            back: "-\n",
        },
        misplaced: Judged {
            number: Some(2),
            lines: &[
                ":20:S7",
                ":21:R",
                ":25:1",
                ":28C:7",
                ":60F:C240301EUR10,",
                ":60M:C240301EUR10,",
                ":61:240301C0,NTRFA",
                ":62F:C240301EUR10,",
                ":62M:C240301EUR10,",
                "further",
            ],
        },
    },
    // Behind :86: of the closing.
    Stage {
        frame: Frame {
            side: Side::Bank,
            front: ":20:S7\n:25:1\n:28C:7\n:60F:C240301EUR10,\n:62F:C240301EUR10,\n:86:X\n",
            offset: 64,
            back: "-\n",
        },
        misplaced: Judged {
            number: Some(2),
            lines: &[
                ":20:S7",
                ":21:R",
                ":25:1",
                ":28C:7",
                ":60F:C240301EUR10,",
                ":60M:C240301EUR10,",
                ":61:240301C0,NTRFA",
                ":62F:C240301EUR10,",
                ":62M:C240301EUR10,",
                ":86:X",
            ],
        },
    },
    // Behind the last page.
    Stage {
        frame: Frame {
            side: Side::Bank,
            front: ":20:S7\n:25:1\n:28C:7\n:60F:C240301EUR10,\n:62F:C240301EUR10,\n-\n",
            offset: 60,
            back: "",
        },
        misplaced: Judged {
            number: Some(2),
            lines: &[
                ":20:S7",
                ":21:R",
                ":25:1",
                ":28C:7",
                ":60F:C240301EUR10,",
                ":60M:C240301EUR10,",
                ":61:240301C0,NTRFA",
                ":62F:C240301EUR10,",
                ":62M:C240301EUR10,",
                ":86:X",
                "further",
                "-",
            ],
        },
    },
    // Behind the first of two pages.
    Stage {
        frame: Frame {
            side: Side::Bank,
            front: ":20:S7\n:25:1\n:28C:7\n:60F:C240301EUR10,\n:62M:C240301EUR10,\n-\n",
            offset: 60,
            back: ":20:S7\n:25:1\n:28C:7/2\n:60M:C240301EUR10,\n:62F:C240301EUR10,\n-\n",
        },
        misplaced: Judged {
            number: Some(2),
            lines: &[
                ":21:R",
                ":25:1",
                ":28C:7",
                ":60F:C240301EUR10,",
                ":60M:C240301EUR10,",
                ":61:240301C0,NTRFA",
                ":62F:C240301EUR10,",
                ":62M:C240301EUR10,",
                ":86:X",
                "further",
                "-",
            ],
        },
    },
    // Behind :28C: of page 2.
    Stage {
        frame: Frame {
            side: Side::Bank,
            front: ":20:S7\n:25:1\n:28C:7\n:60F:C240301EUR10,\n:62M:C240301EUR10,\n-\n:20:S7\n:25:1\n:28C:7/2\n",
            offset: 82,
            back: ":60M:C240301EUR10,\n:62F:C240301EUR10,\n-\n",
        },
        misplaced: Judged {
            number: Some(2),
            lines: &[
                ":20:S7",
                ":21:R",
                ":25:1",
                ":28C:7",
                ":60F:C240301EUR10,",
                ":61:240301C0,NTRFA",
                ":62F:C240301EUR10,",
                ":62M:C240301EUR10,",
                ":86:X",
                "further",
                "-",
            ],
        },
    },
];

#[test]
fn misplaced_lines(rt: HostRuntime) -> Result<(), Fail> {
    for stage in &STAGES {
        check_lines(&rt, rt.alloc(), &stage.frame, &stage.misplaced)?;
    }
    Ok(())
}
