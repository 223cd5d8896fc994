// What is wrong with a field, said behind its name.
use crate::field::Field;
use crate::say;
use desk::Host;
use faults::cause::Cause;

// A field of another length than the table asks for.
fn length(rt: &impl Host, field: Field, n: usize) {
    let right = match field {
        Field::First | Field::Last => "at most 11",
        Field::Date | Field::Start => "8",
        Field::Gaining | Field::Losing | Field::Asking | Field::Code => "4",
        Field::U | Field::K => "2",
        Field::Status | Field::Comma => "1",
        Field::End => "none",
    };
    let characters = if n == 1 { "character" } else { "characters" };
    match (field, n) {
        (_, 0) => say(rt, "is missing"),
        (Field::End, _) => say(
            rt,
            format_args!("should follow the comma at once, not behind {n} {characters}"),
        ),
        _ => say(rt, format_args!("has {n} {characters} instead of {right}")),
    }
}

// What would be allowed, where the field's name does not tell it.
fn allowed(field: Field, found: &[u8]) -> &'static str {
    match field {
        Field::First => " (allowed are digits)",
        Field::Last if text::read_digits(found, false).is_none() => " (allowed are digits)",
        Field::Last => {
            " (it does not end a block that number field 1 begins, as 30599 ends the one of 30500)"
        }
        Field::Status => match found {
            [] => "",
            [b'P' | b'L', ..] => " (P and L need a gaining network)",
            _ => " (allowed are P, L and Z)",
        },
        Field::Code => " (allowed are four digits)",
        _ => "",
    }
}

// A field that has a value, but none that the table allows. Rules over two fields that do not let one be empty: only corrections have them.
fn value(rt: &impl Host, field: Field, pos: usize, found: &[u8]) {
    if !found.is_empty() {
        let allowed = allowed(field, found);
        say(
            rt,
            format_args!("has a value that the table does not allow{allowed}"),
        );
        return;
    }
    let why = if pos == 16 {
        "one of the parts has a number"
    } else {
        "the U part of an objection is a whole report"
    };
    say(
        rt,
        format_args!("is empty, a value that the table does not allow ({why})"),
    );
}

// The cause in words; `found` are the field's bytes.
pub fn say_cause(rt: &impl Host, cause: Cause, field: Field, pos: usize, found: &[u8]) {
    match cause {
        Cause::Character => say(
            rt,
            "has a character that the specification does not allow (4.4.1)",
        ),
        Cause::Length => length(rt, field, found.len()),
        Cause::Date => say(
            rt,
            "is a date that does not exist (ddmmyyyy, from 01011998 to 31122049)",
        ),
        Cause::Code => say(rt, "is no network code (D and three digits)"),
        Cause::Value => value(rt, field, pos, found),
        _ => {}
    }
}
