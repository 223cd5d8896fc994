// What the refusals mean, and what to do next. Of a record at fault, a 4, there is more to say: `fault` does.
use crate::{say, text};
use desk::Host;
use std::fmt;
use std::fmt::{Display, Formatter, Write};

// Each with its number.
#[derive(Clone, Copy)]
pub enum Refusal {
    Publisher = 1,
    Name = 2,
    FiledAlready = 3,
    Full = 5,
    Table = 6,
    Beyond = 7,
    Unknown = 12,
    Damaged = 44,
}

impl Display for Refusal {
    fn fmt<W: Write>(&self, f: &mut Formatter<W>) -> fmt::Result {
        f.write_str(match self {
            Refusal::Publisher => {
                "the publisher is no network code (D and three digits); give the code of the network that published the file"
            }
            Refusal::Name => {
                "the name tells no kind and publication day: 1Dyymmdd.txt is a default file, 1Kyymmdd.txt a correction file, others are not filed; give the file under the name it was published with"
            }
            Refusal::FiledAlready => {
                "a file of this publisher, day and kind is filed already; 'files' lists them"
            }
            Refusal::Full => {
                "there is no room: a store takes 8192 reports, 2048 corrections and 1024 files; start a new store for what comes now"
            }
            Refusal::Table => {
                "this is no number table: at most 1024 lines num1,num2,OWNER,ddmmyyyy, each ended by LF, no number twice"
            }
            Refusal::Beyond => { "there is no such file; 'files' lists them" }
            Refusal::Unknown => { "the number table has no such number; 'show' lists them all" }
            Refusal::Damaged => {
                "the store is damaged or cut short, or a later version's; it is left as it is: put back a copy, or start a new one and file the files again"
            }
        })
    }
}

// What was refused, and with which number.
pub(crate) fn begin(rt: &impl Host, what: &[u8], number: u8) {
    say(rt, "dagskimra: ");
    text(rt, what);
    say(rt, format_args!(": refused ({number}): "));
}

// The end where a store would have changed.
pub(crate) const UNCHANGED: &str = "; nothing was changed\n";

// What was refused, and why.
pub fn refused(rt: &impl Host, what: &[u8], why: Refusal) {
    begin(rt, what, why as u8);
    say(rt, why);
    match why {
        // a question changes nothing
        Refusal::Beyond | Refusal::Unknown => say(rt, "\n"),
        _ => say(rt, UNCHANGED),
    }
}
