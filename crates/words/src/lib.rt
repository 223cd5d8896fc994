// Words for people, on standard error: what was refused, where, why, and what to do next.
#![tactic(auto)]

pub mod fault;
mod field;
mod marked;
pub mod refusal;
mod span;
mod wrong;

ghost use Rattle.std.specs.Prelude.{◌≡◌};
ghost use Rattle.desk.specs.declared.failure.Failure.TheVariants.{Fault};

use desk::{Failure, Host, reason};
use std::fmt;
use std::fmt::{Display, Write};
use std::io::Error;

// What can't be written is left out: there is nowhere else to say it. A path or a field need not be text.
pub fn text(rt: &impl Host, bytes: &[u8]) {
    let _ = rt.say(bytes);
}

// Standard error, for what is laid out as text.
#[derive(Drop)]
struct Said<'a, R: Host> {
    rt: &'a R,
}

impl<'a, R: Host> fmt::Write for Said<'a, R> {
    fn write_str(&mut self, words: &str) -> fmt::Result {
        self.rt.say(words.as_bytes()).map_err(|_| fmt::Error)
    }
}

// The same of what is text.
pub fn say(rt: &impl Host, what: impl Display + Drop) {
    let _ = write!(Said { rt }, "{what}");
}

// A line: what, a colon, and why. Where nothing else is done, the command ends with the fault.
pub fn complain(rt: &impl Host, what: &[u8], why: &[u8]) -> Failure
    ensures { result ≡ Fault }
{
    say(rt, "dagskimra: ");
    text(rt, what);
    say(rt, ": ");
    text(rt, why);
    say(rt, "\n");
    Failure::Fault
}

// The same, with the system's words for the reason.
pub fn failed(rt: &impl Host, what: &[u8], error: Error) -> Failure
    ensures { result ≡ Fault }
{
    let mut why = [0u8; reason::LONGEST];
    complain(rt, what, reason::words(error, &mut why))
}

// What a store wants whose entries were worked out with another holiday list.
pub fn wants_rework(rt: &impl Host, folder: &[u8]) -> Failure
    ensures { result ≡ Fault }
{
    say(rt, "dagskimra: ");
    text(rt, folder);
    say(
        rt,
        ": the entries were worked out with another holiday list; nothing was done. 'dagskimra rework ",
    );
    text(rt, folder);
    say(rt, "' works them out again and lists those that change\n");
    Failure::Fault
}

// A wrong command line: what is wrong, and the command's usage.
pub fn usage(rt: &impl Host, wrong: &[u8], line: &[u8]) -> Failure
    ensures { result ≡ Fault }
{
    say(rt, "dagskimra: ");
    text(rt, wrong);
    say(rt, "\nusage: dagskimra ");
    text(rt, line);
    say(rt, "\n");
    Failure::Fault
}
