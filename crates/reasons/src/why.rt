// why STORE NUMBER...: the two reports under which a number moved last.
use crate::asked;
use asking::pairs::Stored;
use commands::{end, opened};
use desk::place::PATH_MAX;
use desk::{Ended, Failure, Host, Page, args};
use disk::Books;
use shown::Shown;
use words::refusal::Refusal;

// A tab, RECORD, a tab, PUBLISHED
fn report(page: &mut Page<'_, impl Host>, books: &Books, s: Stored) {
    let day = s.day;
    page.text(b"\t");
    page.text(asked::report(&books.regular, &books.corrections, s));
    print!(page; "\t{}", Shown(day));
}

// What is printed of one word.
fn print_word<R: Host>(rt: &R, page: &mut Page<'_, R>, books: &Books, word: &[u8]) -> Ended {
    page.text(word);
    let why = asked::why(
        &books.table,
        &books.files,
        &books.regular,
        &books.corrections,
        shown::number::read(word),
    );
    match why {
        Err(_) => {
            words::refusal::refused(rt, word, Refusal::Unknown);
            page.text(b"\trefused\t12\n");
            Err(Failure::Refused)
        }
        Ok(None) => {
            page.text(b"\tnone\n");
            Ok(())
        }
        Ok(Some(pair)) => {
            page.text(b"\tpair");
            report(page, books, pair.first);
            report(page, books, pair.second);
            page.text(b"\n");
            Ok(())
        }
    }
}

fn print_arg<R: Host>(rt: &R, page: &mut Page<'_, R>, books: &Books, k: usize) -> Ended {
    let mut word = [0u8; PATH_MAX];
    let word = args::path(rt, k, &mut word).unwrap_or(&[]);
    print_word(rt, page, books, word)
}

// The words from the fourth argument on.
fn print(rt: &impl Host, books: &Books, count: usize) -> Ended {
    let mut page = Page::new(rt);
    let mut ended = Ok(());
    for k in 3..count {
        ended = ended.and(print_arg(rt, &mut page, books, k));
    }
    end::done(rt, page, ended)
}

// Its room stands in a frame of its own: within `main` it would lie idle below those of the other commands.
#[inline(never)]
pub fn run(rt: &impl Host, count: usize) -> Ended {
    let usage = "why STORE NUMBER...";
    if count < 4 {
        return Err(words::usage(rt, b"why takes a folder and numbers", usage.as_bytes()));
    }
    let mut folder = [0u8; PATH_MAX];
    let mut books = Books::empty();
    let folder = opened::folder(rt, &mut folder, usage)?;
    opened::open(rt, folder, &mut books)?;
    print(rt, &books, count)
}
