// The columns of a refusal with 4: where its fault is, and why.
use faults::cause::{Cause, FaultPlace};
use std::fmt;
use std::fmt::{Display, Formatter, Write};

fn word(cause: Cause) -> &'static str {
    match cause {
        Cause::Character => "character",
        Cause::Length => "length",
        Cause::Date => "date",
        Cause::Code => "code",
        Cause::Value => "value",
        Cause::Closing => "closing",
        Cause::After => "after",
    }
}

#[derive(Clone, Copy)]
pub struct Columns(pub FaultPlace, pub Cause);

// 4 PLACE FIELD CAUSE
impl Display for Columns {
    fn fmt<W: Write>(&self, f: &mut Formatter<W>) -> fmt::Result {
        let FaultPlace { place, field } = self.0;
        write!(f, "4\t{place}\t{field}\t{}", word(self.1))
    }
}
