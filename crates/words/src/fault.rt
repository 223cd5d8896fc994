// Why a file is refused with 4, and the line that is at fault, with a mark under what is wrong.
use crate::span::Span;
use crate::{field, marked, refusal, say, span, wrong};
use desk::Host;
use faults::cause::{Cause, FaultPlace};
use records::names::kind::FileKind;

fn at_place(rt: &impl Host, place: usize) {
    say(rt, format_args!(" at place {place}, counted from 0"));
}

// A file with other line ends was most often changed on its way.
fn line_feed(rt: &impl Host, found: &[u8]) {
    match found.iter().position(|&b| b == b'\n') {
        None => {}
        Some(0) => say(
            rt,
            "; what is marked begins with a line feed: lines end with CR alone, not with CR LF",
        ),
        Some(_) => say(
            rt,
            "; what is marked has a line feed in it: lines end with CR alone, not with LF",
        ),
    }
}

// The end of the sentence, and the line with its mark.
fn show(rt: &impl Host, line: &[u8], marks: Span) {
    line_feed(rt, marks.part(line));
    say(rt, "; ask the publisher for a whole file");
    say(rt, refusal::UNCHANGED);
    marked::show(rt, line, marks);
}

fn in_field(rt: &impl Host, kind: FileKind, line: &[u8], at: FaultPlace, cause: Cause) {
    let pos = at.field;
    let found = span::of(kind, line, pos);
    say(rt, "in the record");
    at_place(rt, at.place);
    say(rt, format_args!(", field {pos} ("));
    field::name(rt, kind, pos);
    say(rt, ") ");
    wrong::say_cause(rt, cause, field::of(kind, pos), pos, found.part(line));
    if line.is_empty() {
        say(rt, "; the record is empty");
    }
    show(rt, line, found);
}

// The line that stands where the closing record should; nothing may be left of the file.
fn closing(rt: &impl Host, line: &[u8], place: usize) {
    let lines = (place as u64).wrapping_add(1);
    if line.is_empty() {
        say(
            rt,
            format_args!(
                "the closing record is missing: 'Zeilenanzahl:{lines},' and its CR should stand"
            ),
        );
        at_place(rt, place);
        show(rt, line, Span::from(line, 0));
        return;
    }
    say(rt, "the closing record");
    at_place(rt, place);
    if records::closing::is_closing(line, lines) {
        say(rt, ", has no CR at its end");
        show(rt, line, Span::from(line, line.len()));
        return;
    }
    say(rt, format_args!(", should be 'Zeilenanzahl:{lines},'"));
    show(rt, line, Span::from(line, 0));
}

// What stands behind the end.
fn after(rt: &impl Host, rest: &[u8], place: usize) {
    say(
        rt,
        "there are bytes after the end of the file: nothing may stand",
    );
    at_place(rt, place);
    show(rt, rest, Span::from(rest, 0));
}

// What was refused, the text of the file, and its first fault.
pub fn refused(
    rt: &impl Host,
    what: &[u8],
    kind: FileKind,
    file: &[u8],
    at: FaultPlace,
    cause: Cause,
) {
    let first = span::behind(file, b'\r', at.place);
    let line = span::up_to(file, first, b'\r').part(file);
    refusal::begin(rt, what, 4);
    match cause {
        Cause::Closing => closing(rt, line, at.place),
        Cause::After => after(rt, Span::from(file, first).part(file), at.place),
        _ => in_field(rt, kind, line, at, cause),
    }
}
