// A line of a file, shown with a mark under a part of it.
ghost use Rattle.std.specs.Prelude.{◌≤◌};

use crate::span::Span;
use crate::{say, text};
use desk::Host;

// As many bytes of a line are shown, and of a longer one as many before the mark.
const WIDTH: usize = 150;

const BEFORE: usize = 60;
// A mark may stand behind the last byte.
const MARKS: usize = 151;

// What is no printable ASCII is a `?`, so that each byte has one column.
fn printable(b: u8) -> u8 {
    match b {
        b' '..=b'~' => b,
        _ => b'?',
    }
}

fn show_bytes(rt: &impl Host, bytes: &[u8]) {
    let mut row = [0u8; WIDTH];
    for (column, &b) in row.iter_mut().zip(bytes) {
        *column = printable(b);
    }
    text(rt, &row[..bytes.len().min(WIDTH)]);
}

// Blanks up to the column `from`, and marks up to `to`, one at least.
fn show_marks(rt: &impl Host, from: usize, to: usize) {
    if MARKS <= from {
        return;
    }
    let mut row = [b'^'; MARKS];
    row[..from].fill(b' ');
    text(rt, &row[..to.clamp(from + 1, MARKS)]);
}

// Where the window on a line begins: with the line, or as far before the mark as there is need.
fn window(len: usize, first: usize) -> usize
    ensures { result ≤ len }
{
    len.saturating_sub(WIDTH).min(first.saturating_sub(BEFORE))
}

// The line, and below it a mark under each byte of a part, or one mark where it has none. `..` stands for what is left
// out of a long line. Of an empty line there is nothing to show.
pub fn show(rt: &impl Host, line: &[u8], Span { first, end }: Span) {
    if line.is_empty() {
        return;
    }
    let from = window(line.len(), first);
    let rest = &line[from..];
    let (before, blanks) = if 0 < from { ("..", "  ") } else { ("", "") };
    let behind = if WIDTH < rest.len() { ".." } else { "" };
    say(rt, format_args!("    {before}"));
    show_bytes(rt, rest);
    say(rt, format_args!("{behind}\n    {blanks}"));
    show_marks(
        rt,
        first.saturating_sub(from),
        end.saturating_sub(from).min(WIDTH),
    );
    say(rt, "\n");
}
