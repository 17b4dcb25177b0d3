// A line that is damaged, or unusual and right, in a text that is right else.
use super::asked::refused_with;
use domain::entry::Side;
use std::alloc::{AllocError, Global};
use std::process::Abort;
use std::test::Fail;

// A text with a line left out at an offset.
pub struct Frame {
    pub side: Side,
    pub front: &'static str,
    pub offset: usize,
    pub back: &'static str,
}

// Lines that are refused with one number at the frame's offset; with none, they are taken.
pub struct Judged {
    pub number: Option<u8>,
    pub lines: &'static [&'static str],
}

fn framed(heap: Global, frame: &Frame, line: &str) -> Result<Vec<u8>, AllocError> {
    let mut text = Vec::new(heap);
    text.extend_from_slice(frame.front.as_bytes())?;
    text.extend_from_slice(line.as_bytes())?;
    text.extend_from_slice(b"\n")?;
    text.extend_from_slice(frame.back.as_bytes())?;
    Ok(text)
}

// The handle and the heap are two parameters here and in reports: a `&HostRuntime` in place of both has no `Abort` outside the test that takes it (tried).
pub(crate) fn check_lines(
    rt: &impl Abort,
    heap: Global,
    frame: &Frame,
    judged: &Judged,
) -> Result<(), Fail> {
    let wanted = judged.number.map(|number| (number, frame.offset));
    for line in judged.lines {
        let text = framed(heap, frame, line)?;
        assert_eq!(rt; refused_with(frame.side, &text), wanted, "{}", *line);
    }
    Ok(())
}

pub(crate) fn check_all(
    rt: &impl Abort,
    heap: Global,
    frame: &Frame,
    table: &[Judged],
) -> Result<(), Fail> {
    for judged in table {
        check_lines(rt, heap, frame, judged)?;
    }
    Ok(())
}
