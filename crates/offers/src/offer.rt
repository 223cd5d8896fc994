// One file offered: read where publisher and name are right, and filed.
ghost use Rattle.std.specs.Prelude.{◌≡◌};
ghost use Rattle.disk.specs.Books.{buffers_of};
ghost use Rattle.commands.specs.Given.{name_in};
ghost use Rattle.offers.specs.Offer.{heading_of, Offers};

use crate::filed;
use crate::list::Offer;
use calendar::dates::CalendarDays;
use commands::{LONGEST, given};
use desk::{Failure, Host};
use disk::Books;
use fields::code::Code;
use filing::checking::answer::NotFiled;
use filing::entering::kind::Filable;
use records::names::kind::FileKind;

// What a name tells of a file that may be filed: its kind and its day.
#[derive(Clone, Copy)]
struct Heading {
    kind: Filable,
    day: CalendarDays,
}

impl Heading {
    // Of any other name: the day is outside the calendar.
    const NONE: Heading = Heading {
        kind: Filable::Default,
        day: CalendarDays(65535),
    };
}

fn heading_of(path: &[u8]) -> Option<Heading>
    ensures { result ≡ heading_of (name_in path.now) }
{
    let name = given::name_of(path)?;
    let kind = match name.kind {
        FileKind::Default => Filable::Default,
        FileKind::Correction => Filable::Correction,
        FileKind::Request | FileKind::Response => return None,
    };
    Some(Heading {
        kind,
        day: name.day,
    })
}

// Offers a file. With a wrong publisher or name there is no need to look into it. Where it can't be read, the reason has been told.
pub fn offer(
    rt: &impl Host,
    offer: Offer<'_>,
    text: &mut [u8; LONGEST],
    books: &mut Books,
) -> Result<Result<usize, NotFiled>, Failure>
    ensures { Offers (buffers_of books.old) offer.entry.publisher.now offer.entry.path.now text.new result (buffers_of books.new) }
{
    let Offer { publisher, path } = offer;
    let heading = heading_of(path);
    let n = if heading.is_some() && Code::read(publisher).is_some() {
        given::load(rt, path, text)?
    } else {
        0
    };
    let Heading { kind, day } = heading.unwrap_or(Heading::NONE);
    Ok(filed::file(rt, path, books, kind, publisher, day, &text[..n]))
}
