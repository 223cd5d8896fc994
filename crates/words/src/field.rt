// The fields of a record, as the specification's tables name them (4.5.1, 4.5.2.3, 4.7.8).
use crate::say;
use desk::Host;
use records::names::kind::FileKind;
use std::fmt;
use std::fmt::{Display, Formatter, Write};

#[derive(Drop)]
pub enum Field {
    First,
    Last,
    Date,
    Gaining,
    Losing,
    Status,
    Code,
    U,
    K,
    Asking,
    Start,
    Comma,
    End,
}

// The six fields of a report, and of each part of a correction, counted from 1 with the commas between them.
fn of_six(pos: usize) -> Field {
    match pos {
        1 => Field::First,
        3 => Field::Last,
        5 => Field::Date,
        7 => Field::Gaining,
        9 => Field::Losing,
        11 => Field::Status,
        _ => Field::Comma,
    }
}

fn report(pos: usize) -> Field {
    match pos {
        12 => Field::End,
        _ => of_six(pos),
    }
}

fn correction(pos: usize) -> Field {
    match pos {
        1 => Field::Code,
        2 => Field::U,
        15 => Field::K,
        3..=14 => of_six(pos - 2),
        27 => Field::End,
        _ => of_six(pos.saturating_sub(15)),
    }
}

fn request(pos: usize) -> Field {
    match pos {
        1 => Field::Asking,
        3 => Field::Start,
        5 => Field::End,
        _ => Field::Comma,
    }
}

// The field at a "Pos." of the table of a kind of file.
pub fn of(kind: FileKind, pos: usize) -> Field {
    match kind {
        FileKind::Correction => correction(pos),
        FileKind::Request => request(pos),
        FileKind::Default | FileKind::Response => report(pos),
    }
}

// The part of a correction that the field at `pos` belongs to.
fn part_of(kind: FileKind, pos: usize) -> Option<char> {
    match (kind, pos) {
        (FileKind::Correction, 3..=14) => Some('U'),
        (FileKind::Correction, 16..=26) => Some('K'),
        _ => None,
    }
}

impl Display for Field {
    fn fmt<W: Write>(&self, f: &mut Formatter<W>) -> fmt::Result {
        f.write_str(match self {
            Field::First => "number field 1",
            Field::Last => "number field 2",
            Field::Date => "porting date",
            Field::Gaining => "gaining network",
            Field::Losing => "losing network",
            Field::Status => "status",
            Field::Code => "correction code",
            Field::U => "U:",
            Field::K => "K:",
            Field::Asking => "asking network",
            Field::Start => "start of the request",
            Field::Comma => "comma",
            Field::End => "CR, end of the record",
        })
    }
}

// The name of the field at `pos`.
pub fn name(rt: &impl Host, kind: FileKind, pos: usize) {
    say(rt, of(kind, pos));
    if let Some(part) = part_of(kind, pos) {
        say(rt, format_args!(" of the {part} part"));
    }
}
