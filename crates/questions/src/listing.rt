// files STORE: the filed files in order of arrival.
use calendar::dates::CalendarDays;
use commands::{arrivals, end, opened};
use desk::place::PATH_MAX;
use desk::{Ended, Host, Page};
use disk::Books;
use fields::code::Code;
use shown::Shown;
use store::journals::files::File;

// N, kind, PUBLISHER, DAY, RECORDS
fn line(page: &mut Page<'_, impl Host>, n: usize, f: File) {
    let kind = if f.kind == 0 { "default" } else { "correction" };
    let publisher = Shown(Code(f.publisher));
    let day = Shown(CalendarDays(f.day));
    println!(page; "{n}\t{kind}\t{publisher}\t{day}\t{}", f.count);
}

fn list(page: &mut Page<'_, impl Host>, files: &[u8]) {
    for i in 0..arrivals::count(files) {
        line(page, i + 1, arrivals::file_at(files, i));
    }
}

pub fn run(rt: &impl Host, count: usize) -> Ended {
    let usage = "files STORE";
    if count != 3 {
        return Err(words::usage(rt, b"files takes a folder", usage.as_bytes()));
    }
    let mut folder = [0u8; PATH_MAX];
    let mut books = Books::empty();
    let folder = opened::folder(rt, &mut folder, usage)?;
    opened::open(rt, folder, &mut books)?;
    let mut page = Page::new(rt);
    list(&mut page, &books.files);
    end::done(rt, page, Ok(()))
}
