// Where a field stands in its line, also in a line that is damaged. A field is known by its "Pos." in the specification's table (4.5.1,
// 4.5.2.3, 4.7.8) and reaches to the next comma, the last one to the line's end. What is missing is empty, and stands at the line's end.
use records::names::kind::FileKind;

// From its first byte to the one behind its last.
#[derive(Clone, Copy)]
pub struct Span {
    pub first: usize,
    pub end: usize,
}

impl Span {
    // All from `first` on.
    pub fn from(line: &[u8], first: usize) -> Span {
        Span {
            first,
            end: line.len(),
        }
    }

    // Its bytes; nothing where there are none.
    pub fn part(self, line: &[u8]) -> &[u8] {
        line.get(self.first..self.end).unwrap_or(&[])
    }
}

// The place behind `k` separators; the end where there are fewer.
pub fn behind(s: &[u8], sep: u8, k: usize) -> usize {
    let mut at = 0;
    for _ in 0..k {
        let end = text::field_end(s, at, sep);
        if s.len() <= end {
            return s.len();
        }
        at = end + 1;
    }
    at
}

// From `first` to the next separator.
pub fn up_to(s: &[u8], first: usize, sep: u8) -> Span {
    Span {
        first,
        end: text::field_end(s, first, sep),
    }
}

// Between the comma `k` and the next one; the first is comma 1.
fn between(line: &[u8], k: usize) -> Span {
    up_to(line, behind(line, b',', k), b',')
}

// All that stands behind the comma `k`.
fn rest(line: &[u8], k: usize) -> Span {
    Span::from(line, behind(line, b',', k))
}

fn at_end(line: &[u8]) -> Span {
    Span::from(line, line.len())
}

// As many bytes further on, but not behind `end`.
fn on(at: usize, bytes: usize, end: usize) -> usize {
    at.saturating_add(bytes).min(end)
}

// Code, `U:` and the first number field of a correction, which no comma parts.
fn head(line: &[u8], pos: usize) -> Span {
    let all = between(line, 0);
    let mark = on(0, faults::cut::code_width(all.part(line)), all.end);
    let number = on(mark, 2, all.end);
    let (first, end) = match pos {
        1 => (0, mark),
        2 => (mark, number),
        _ => (number, all.end),
    };
    Span { first, end }
}

// `K:` and the first number field of the K part.
fn middle(line: &[u8], pos: usize) -> Span {
    let both = between(line, 6);
    let number = on(both.first, 2, both.end);
    let (first, end) = if pos == 15 {
        (both.first, number)
    } else {
        (number, both.end)
    };
    Span { first, end }
}

fn correction(line: &[u8], pos: usize) -> Span {
    match pos {
        1 | 2 | 3 => head(line, pos),
        5 => between(line, 1),
        7 => between(line, 2),
        9 => between(line, 3),
        11 => between(line, 4),
        13 => between(line, 5),
        15 | 16 => middle(line, pos),
        18 => between(line, 7),
        20 => between(line, 8),
        22 => between(line, 9),
        24 => between(line, 10),
        26 => rest(line, 11),
        _ => at_end(line),
    }
}

fn report(line: &[u8], pos: usize) -> Span {
    match pos {
        1 => between(line, 0),
        3 => between(line, 1),
        5 => between(line, 2),
        7 => between(line, 3),
        9 => between(line, 4),
        11 => rest(line, 5),
        _ => at_end(line),
    }
}

fn request(line: &[u8], pos: usize) -> Span {
    match pos {
        1 => between(line, 0),
        3 => between(line, 1),
        5 => rest(line, 2),
        _ => at_end(line),
    }
}

// The field `pos` of a line. Commas and the CR are asked for only where they are missing.
pub fn of(kind: FileKind, line: &[u8], pos: usize) -> Span {
    match kind {
        FileKind::Correction => correction(line, pos),
        FileKind::Request => request(line, pos),
        FileKind::Default | FileKind::Response => report(line, pos),
    }
}
