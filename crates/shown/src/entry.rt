// An entry as it is printed: HOLDER, LAST, OPEN.
use crate::Shown;
use calendar::dates::CalendarDays;
use entries::entry::{Entry, Place};
use std::fmt;
use std::fmt::{Display, Formatter, Write};

// the day, or a dash where there is none
impl Display for Shown<Option<CalendarDays>> {
    fn fmt<W: Write>(&self, f: &mut Formatter<W>) -> fmt::Result {
        match self.0 {
            None => write!(f, "-"),
            Some(day) => write!(f, "{}", Shown(day)),
        }
    }
}

// KIND:DATE:LOSING>GAINING:PUBLISHED
impl Display for Shown<Place> {
    fn fmt<W: Write>(&self, f: &mut Formatter<W>) -> fmt::Result {
        let r = self.0.report;
        let (kind, date) = (Shown(r.kind), Shown(r.date));
        let (losing, gaining) = (Shown(r.losing), Shown(r.gaining));
        let published = Shown(self.0.day);
        write!(f, "{kind}:{date}:{losing}>{gaining}:{published}")
    }
}

// The open reports, each behind the number of its place, joined by semicolons, or a dash.
impl Display for Shown<Entry> {
    fn fmt<W: Write>(&self, f: &mut Formatter<W>) -> fmt::Result {
        write!(f, "{}\t{}\t", Shown(self.0.holder), Shown(self.0.last))?;
        let mut none = true;
        for (i, place) in self.0.places.iter().enumerate() {
            if place.taken {
                let before = if none { "" } else { ";" };
                write!(f, "{before}{i}:{}", Shown(*place))?;
                none = false;
            }
        }
        if none { write!(f, "-") } else { Ok(()) }
    }
}
