//! A text of each status, and rooms that are too small and too large.
use crate::{JustfileAnswer, justfile_format};
use std::alloc::Global;

/// Formats a text into a room. Returns the status and whether it fits, and then the length and the
/// place.
fn told(alloc: Global, text: &[u8], room: &mut [u8]) -> ([u32; 2], [usize; 5]) {
    let mut it = JustfileAnswer {
        status: 7,
        fits: 7,
        length: 7,
        offset: 7,
        width: 7,
        line: 7,
        column: 7,
    };
    justfile_format(alloc, text, room, &mut it);
    (
        [it.status, it.fits],
        [it.length, it.offset, it.width, it.line, it.column],
    )
}

#[test]
fn each_status(rt: HostRuntime) -> std::io::Result<()> {
    let alloc = rt.alloc();
    let mut room = *b"0123456789";
    assert_eq!(rt; told(alloc, b"a:=b", &mut room), ([0, 1], [7, 0, 0, 0, 0]));
    assert_eq!(rt; &room, b"a := b\n789");
    assert_eq!(rt;
        told(alloc, b"abc:=d", &mut room[..8]),
        ([0, 0], [9, 0, 0, 0, 0])
    );
    assert_eq!(rt; &room, b"a := b\n789");

    let mut lines = [b'.'; 128];
    let rejected_text = "error: expected '*', identifier, or '(', but found end of line\n\
        \x20——▶ justfile:2:8\n\
        \x20 │\n\
        2 │ b: c &&\n\
        \x20 │        ^\n";
    let (kind, place) = told(alloc, b"\nb: c &&\n", &mut lines);
    assert_eq!(rt; kind, [2, 1]);
    assert_eq!(rt; place, [rejected_text.len(), 8, 1, 1, 7]);
    assert_eq!(rt; lines.starts_with(rejected_text.as_bytes()), true);
    let other = told(alloc, b"\xff", &mut lines);
    assert_eq!(rt; other, ([3, 1], [26, 0, 0, 0, 0]));
    assert_eq!(rt; lines.starts_with(b"error: input is not UTF-8\n"), true);
    Ok(())
}
