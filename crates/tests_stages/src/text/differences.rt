//! The first line in which two texts differ.
use crate::expect::holds;
use std::alloc::Global;
use std::process::Abort;
use text_day::first_difference;

/// Texts, the number of the first line that is another, and how it should be.
static ROWS: [(&[u8], &[u8], u64, &[u8]); 8] = [
    (b"", b"a\n", 1, b"a\n"),
    (b"a\n", b"", 1, b""),
    (b"a\nb\nc\n", b"a\nB\nc\n", 2, b"B\n"),
    (b"a\nb\n", b"a\nb\nc\n", 3, b"c\n"),
    (b"a\nb\nc\n", b"a\nb\n", 3, b""),
    (b"a\nb", b"a\nb\n", 2, b"b\n"),
    (b"a\r\n", b"a\n", 1, b"a\n"),
    (b"a\n\n", b"a\nb", 2, b"b"),
];

/// The two texts differ, and first in that line.
fn expect_difference(rt: &impl Abort, alloc: Global, row: &(&[u8], &[u8], u64, &[u8])) {
    let (claim, right, line, wanted) = row;
    holds(rt, claim != right);
    let difference = first_difference(alloc, claim, right).expect(rt, "memory");
    holds(
        rt,
        difference.line == *line && difference.right.as_slice() == *wanted,
    );
}

#[test]
fn first_line_that_is_another(rt: HostRuntime) {
    for row in &ROWS {
        expect_difference(&rt, rt.alloc(), row);
    }
}
