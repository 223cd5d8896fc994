// figure STORE: how many stored entries differ from those that the journals lead to.
use crate::{asked, compared};
use asking::answering::figure;
use commands::{end, opened};
use desk::place::PATH_MAX;
use desk::{Ended, Failure, Host, Page};
use disk::Books;
use store::numbers::lines::NUMBERS;

fn warn(rt: &impl Host, folder: &[u8], differ: usize) {
    let entries_are = if differ == 1 {
        "entry is"
    } else {
        "entries are"
    };
    words::say(rt, "dagskimra: ");
    words::text(rt, folder);
    words::say(
        rt,
        format_args!(
            ": {differ} stored {entries_are} not what the journals lead to: the table was changed behind the store's back. 'dagskimra rework "
        ),
    );
    words::text(rt, folder);
    words::say(
        rt,
        "' works the entries out again and lists those that change\n",
    );
}

// The lines of those that differ: their entries as stored, and as they are worked out in a copy.
fn print_differing(page: &mut Page<'_, impl Host>, books: &Books) {
    let mut worked = books.entries;
    let mut list = [0u16; NUMBERS];
    if let Ok(n) = asked::reworked(
        &books.table,
        &books.files,
        &books.regular,
        &books.corrections,
        &mut worked,
        &mut list,
    ) {
        compared::list(page, list.get(..n).unwrap_or(&list), books, &worked);
    }
}

// The figure, and the lines of those that differ.
fn print(rt: &impl Host, folder: &[u8], books: &Books, differ: usize) -> Ended {
    let mut page = Page::new(rt);
    compared::count(&mut page, "differ", differ, books);
    if differ == 0 {
        return end::done(rt, page, Ok(()));
    }
    warn(rt, folder, differ);
    print_differing(&mut page, books);
    end::done(rt, page, Err(Failure::Refused))
}

// What the library answers is what is printed.
fn print_figure(rt: &impl Host, folder: &[u8], books: &Books) -> Ended {
    match figure::figure(
        &books.table,
        &books.files,
        &books.regular,
        &books.corrections,
        &books.entries,
    ) {
        Err(_) => opened::damaged(rt, folder),
        Ok(n) => print(rt, folder, books, n),
    }
}

pub fn run(rt: &impl Host, count: usize) -> Ended {
    let usage = "figure STORE";
    if count != 3 {
        return Err(words::usage(rt, b"figure takes a folder", usage.as_bytes()));
    }
    let mut folder = [0u8; PATH_MAX];
    let mut books = Books::empty();
    let folder = opened::folder(rt, &mut folder, usage)?;
    opened::open(rt, folder, &mut books)?;
    print_figure(rt, folder, &books)
}
