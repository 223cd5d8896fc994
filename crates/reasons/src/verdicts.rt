// verdicts STORE: every filed record with its verdict, the regular journal first.
use asking::record;
use asking::record::ShownRecord;
use commands::{end, opened};
use desk::place::PATH_MAX;
use desk::{Ended, Host, Page};
use disk::Books;
use shown::Shown;
use store::journals::records::{CORRECTIONS, Journal, REPORTS};

// JOURNAL PLACE PUBLISHER DAY PLACE-IN-FILE VERDICT RECORD
fn line(page: &mut Page<'_, impl Host>, books: &Books, shown: ShownRecord) {
    let r = shown.shown;
    let place = shown.place;
    let letter = match shown.journal {
        Journal::Regular => 'R',
        Journal::Correction => 'C',
    };
    let (publisher, day) = (Shown(r.publisher), Shown(r.day));
    let verdict = verdict::verdicts::number(r.verdict);
    print!(page;
        "{letter}\t{place}\t{publisher}\t{day}\t{}\t{verdict}\t",
        r.place
    );
    page.text(record::part(&books.regular, &books.corrections, Ok(shown)));
    page.text(b"\n");
}

// The records of a journal, which takes `most` of them, up to the first place that has none.
fn print_journal(page: &mut Page<'_, impl Host>, books: &Books, which: Journal, most: usize) {
    for place in 0..most {
        let Ok(shown) = record::look(
            &books.table,
            &books.files,
            &books.regular,
            &books.corrections,
            which,
            place,
        ) else {
            return;
        };
        line(page, books, shown);
    }
}

pub fn run(rt: &impl Host, count: usize) -> Ended {
    let usage = "verdicts STORE";
    if count != 3 {
        return Err(words::usage(rt, b"verdicts takes a folder", usage.as_bytes()));
    }
    let mut folder = [0u8; PATH_MAX];
    let mut books = Books::empty();
    let folder = opened::folder(rt, &mut folder, usage)?;
    opened::open(rt, folder, &mut books)?;
    let mut page = Page::new(rt);
    print_journal(&mut page, &books, Journal::Regular, REPORTS);
    print_journal(&mut page, &books, Journal::Correction, CORRECTIONS);
    end::done(rt, page, Ok(()))
}
