// show STORE [--before N] [NUMBER...]: entries as they are stored, or as they stood before a file arrived.
ghost use Rattle.std.specs.Prelude.{◌≡◌};
ghost use Rattle.questions.specs.Shown.{entry_wanted, file_number};

use crate::{asked, named, table};
use commands::{arrivals, end, opened};
use desk::place::PATH_MAX;
use desk::{Ended, Failure, Host, Page, args};
use disk::Books;
use entries::entry::Entry;
use shown::Shown;
use words::refusal::Refusal;

// What is asked for: the stored entries, or those that the first files lead to, of the numbers at these places of the arguments.
#[derive(Clone, Copy)]
struct Wanted {
    before: Option<usize>,
    first: usize,
    end: usize,
}

// The entry of a line, as it is asked for.
fn entry_of(books: &Books, before: Option<usize>, i: usize) -> Entry
    ensures { result ≡ entry_wanted before books.now i }
{
    match before {
        None => table::entry_at(&books.entries, i),
        Some(n) => asked::before(
            &books.table,
            &books.files,
            n,
            &books.regular,
            &books.corrections,
            i,
        ),
    }
}

// One line: NUMBER HOLDER LAST OPEN
fn line(page: &mut Page<'_, impl Host>, books: &Books, before: Option<usize>, i: usize) {
    let number = Shown(table::number_at(&books.table, i));
    println!(page; "{number}\t{}", Shown(entry_of(books, before, i)));
}

// Each number of the table.
fn print_all(page: &mut Page<'_, impl Host>, books: &Books, before: Option<usize>) {
    for i in 0..table::count(&books.table) {
        line(page, books, before, i);
    }
}

// The line of one word; or WORD `refused` 12
fn print_word<R: Host>(
    rt: &R,
    page: &mut Page<'_, R>,
    books: &Books,
    before: Option<usize>,
    word: &[u8],
) -> Ended {
    match named::line_of(&books.table, shown::number::read(word)) {
        Some(i) => {
            line(page, books, before, i);
            Ok(())
        }
        None => {
            words::refusal::refused(rt, word, Refusal::Unknown);
            page.text(word);
            page.text(b"\trefused\t12\n");
            Err(Failure::Refused)
        }
    }
}

// The line of the word at a place of the arguments.
fn print_arg<R: Host>(
    rt: &R,
    page: &mut Page<'_, R>,
    books: &Books,
    before: Option<usize>,
    k: usize,
) -> Ended {
    let mut word = [0u8; PATH_MAX];
    let word = args::path(rt, k, &mut word).unwrap_or(&[]);
    print_word(rt, page, books, before, word)
}

// Each number that is named.
fn print_named<R: Host>(rt: &R, page: &mut Page<'_, R>, books: &Books, wanted: Wanted) -> Ended {
    let mut ended = Ok(());
    for k in wanted.first..wanted.end {
        ended = ended.and(print_arg(rt, page, books, wanted.before, k));
    }
    ended
}

fn print(rt: &impl Host, books: &Books, wanted: Wanted) -> Ended {
    let mut page = Page::new(rt);
    let ended = if wanted.first < wanted.end {
        print_named(rt, &mut page, books, wanted)
    } else {
        print_all(&mut page, books, wanted.before);
        Ok(())
    };
    end::done(rt, page, ended)
}

// Prints, unless there is no file to show the entries before.
fn show(rt: &impl Host, folder: &[u8], wanted: Wanted) -> Ended {
    let mut books = Books::empty();
    opened::open(rt, folder, &mut books)?;
    match wanted.before {
        Some(n) if arrivals::count(&books.files) <= n => {
            opened::refused(rt, folder, Refusal::Beyond)
        }
        _ => print(rt, &books, wanted),
    }
}

fn usage(rt: &impl Host, wrong: &str) -> Failure {
    words::usage(rt, wrong.as_bytes(), USAGE.as_bytes())
}

const USAGE: &str = "show STORE [--before N] [NUMBER...]";

// The number of a file; none where the word is none. Nine digits are enough for any.
#[tactic(auto, unfolding(crate::specs::Shown::file_number))]
fn file_number(word: &[u8]) -> Option<u64>
    ensures { result ≡ file_number word.now }
{
    if word.is_empty() || 9 < word.len() {
        return None;
    }
    text::read_digits(word, false)
}

fn file_number_at(rt: &impl Host, k: usize) -> Option<u64> {
    let mut word = [0u8; PATH_MAX];
    file_number(args::path(rt, k, &mut word)?)
}

// `show STORE --before N ..`
fn show_before(rt: &impl Host, folder: &[u8], count: usize) -> Ended {
    if count < 5 {
        return Err(usage(rt, "--before takes the number of a file"));
    }
    match file_number_at(rt, 4) {
        None | Some(0) => Err(usage(
            rt,
            "--before takes the number of a file, as 'files' counts them from 1",
        )),
        Some(n) => {
            let wanted = Wanted {
                before: Some(n as usize - 1),
                first: 5,
                end: count,
            };
            show(rt, folder, wanted)
        }
    }
}

pub fn run(rt: &impl Host, count: usize) -> Ended {
    if count < 3 {
        return Err(usage(rt, "show takes a folder"));
    }
    let mut folder = [0u8; PATH_MAX];
    let folder = opened::folder(rt, &mut folder, USAGE)?;
    if args::is(rt, 3, b"--before") {
        return show_before(rt, folder, count);
    }
    let wanted = Wanted {
        before: None,
        first: 3,
        end: count,
    };
    show(rt, folder, wanted)
}
