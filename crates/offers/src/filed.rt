// What is asked of the library: one file, filed. Why a file is refused with 4 is said at once, since its text is at hand.
ghost use Rattle.disk.specs.Books.{buffers_of};
ghost use Rattle.filing.specs.Effect.{Files};

use calendar::dates::CalendarDays;
use desk::Host;
use disk::Books;
use filing::checking::answer::NotFiled;
use filing::entering::kind::Filable;

// Files a file, and answers what filing answers.
pub fn file(
    rt: &impl Host,
    path: &[u8],
    books: &mut Books,
    kind: Filable,
    publisher: &[u8],
    day: CalendarDays,
    text: &[u8],
) -> Result<usize, NotFiled>
    ensures { Files (buffers_of books.old) kind publisher.now day.0 text.now result (buffers_of books.new) }
{
    let answer = filing::file::file(
        &books.table,
        &mut books.files,
        &mut books.regular,
        &mut books.corrections,
        &mut books.entries,
        kind,
        publisher,
        day,
        text,
    );
    if let Err(NotFiled::Fault(at, cause)) = answer {
        words::fault::refused(rt, path, kind.file_kind(), text, at, cause);
    }
    answer
}
