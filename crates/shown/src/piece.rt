// Dates, network codes and kinds as they are printed.
use crate::Shown;
use calendar::dates::{CalendarDays, date_of};
use fields::code::Code;
use fields::kind::Kind;
use std::fmt;
use std::fmt::{Display, Formatter, Write};

// yyyy-mm-dd
impl Display for Shown<CalendarDays> {
    fn fmt<W: Write>(&self, f: &mut Formatter<W>) -> fmt::Result {
        let Some(d) = date_of(self.0) else {
            return write!(f, "-");
        };
        write!(f, "{}-{:02}-{:02}", d.year, d.month, d.day)
    }
}

// D and three digits
impl Display for Shown<Code> {
    fn fmt<W: Write>(&self, f: &mut Formatter<W>) -> fmt::Result {
        write!(f, "D{:03}", self.0.0)
    }
}

impl Display for Shown<Kind> {
    fn fmt<W: Write>(&self, f: &mut Formatter<W>) -> fmt::Result {
        match self.0 {
            Kind::P => write!(f, "P"),
            Kind::L => write!(f, "L"),
            Kind::Z => write!(f, "Z"),
        }
    }
}
