// The command: the store is locked and loaded, each file offered, what was accepted saved, and the answers printed.
use crate::kept::Kept;
use crate::list::{List, ListError, Offer};
use crate::{answers, gather, offer};
use commands::{LONGEST, end, given, opened};
use desk::place::PATH_MAX;
use desk::{Ended, Failure, Host, Page, args};
use disk::parts::HolidayList;
use disk::saved::LoadError;
use disk::{Books, lock, saved};
use filing::checking::answer::NotFiled;

// How far the work has come, for a person who waits. What is said next is written over it, and is longer.
fn progress(rt: &impl Host, k: usize, total: usize) {
    let end = if k == total { '\n' } else { '\r' };
    words::say(rt, format_args!("file {k} of {total}{end}"));
}

// Offers every line of the list, up to one that can't be read.
fn offer_each(
    rt: &impl Host,
    list: List<'_>,
    total: usize,
    text: &mut [u8; LONGEST],
    kept: &mut Kept,
    books: &mut Books,
) -> Ended {
    let watched = 20 <= total && rt.is_watched();
    for line in list.bytes.split(|&b| b == list.separator) {
        if !line.is_empty() {
            kept.push(offer::offer(rt, Offer::of(line), text, books)?);
            if watched {
                progress(rt, kept.as_slice().len(), total);
            }
        }
    }
    Ok(())
}

// Offers the files, and saves the store where one was filed.
fn file_loaded(
    rt: &impl Host,
    folder: &[u8],
    list: List<'_>,
    total: usize,
    kept: &mut Kept,
    books: &mut Books,
) -> Ended {
    let mut text = [0u8; LONGEST];
    let ended = offer_each(rt, list, total, &mut text, kept, books);
    if kept.as_slice().iter().any(|answer| answer.is_ok()) {
        if let Err(failure) = saved::save(rt, folder, books) {
            kept.clear();
            return Err(failure);
        }
    }
    ended
}

fn file_locked(
    rt: &impl Host,
    folder: &[u8],
    list: List<'_>,
    total: usize,
    kept: &mut Kept,
) -> Ended {
    let mut books = Books::empty();
    match saved::load(rt, folder, &mut books) {
        Ok(HolidayList::Own) => file_loaded(rt, folder, list, total, kept, &mut books),
        Ok(HolidayList::Other) => Err(words::wants_rework(rt, folder)),
        Err(LoadError::Missing) => Err(Failure::Fault),
        Err(LoadError::Damaged) => {
            for _ in 0..total {
                kept.push(Err(NotFiled::Unreadable));
            }
            Err(Failure::Refused)
        }
    }
}

// Prints what was answered.
fn print(rt: &impl Host, list: List<'_>, kept: &Kept, ended: Ended) -> Ended {
    let mut page = Page::new(rt);
    let answers = kept.as_slice();
    answers::print(rt, &mut page, list, answers);
    end::done(rt, page, ended)?;
    if answers.iter().all(|answer| answer.is_ok()) {
        Ok(())
    } else {
        Err(Failure::Refused)
    }
}

fn file_counted(rt: &impl Host, folder: &[u8], list: List<'_>, total: usize) -> Ended {
    let mut kept = Kept::new();
    lock::take(rt, folder)?;
    let ended = file_locked(rt, folder, list, total, &mut kept);
    lock::release(rt, folder);
    print(rt, list, &kept, ended)
}

fn no_tab(rt: &impl Host, path: &[u8], line: usize) -> Failure {
    words::say(rt, "dagskimra: ");
    words::text(rt, path);
    words::say(
        rt,
        format_args!(": line {line} is no PUBLISHER, tab and PATH; nothing was filed\n"),
    );
    Failure::Fault
}

fn file_list(rt: &impl Host, folder: &[u8], path: &[u8], list: List<'_>) -> Ended {
    match list.count() {
        Ok(total) => file_counted(rt, folder, list, total),
        Err(ListError::NoTab(line)) => Err(no_tab(rt, path, line)),
        Err(ListError::TooMany) => Err(words::complain(
            rt,
            path,
            b"more than 16384 files for one command; nothing was filed",
        )),
    }
}

const USAGE: &str = "file STORE PUBLISHER FILE...\n       dagskimra file STORE --list LIST";

// file STORE --list LIST
fn file_listed(rt: &impl Host, folder: &[u8], count: usize) -> Ended {
    if count != 5 {
        return Err(words::usage(rt, b"--list takes one list", USAGE.as_bytes()));
    }
    let mut path = [0u8; PATH_MAX];
    let path = args::path(rt, 4, &mut path).unwrap_or(&[]);
    let mut text = [0u8; LONGEST];
    let n = given::load(rt, path, &mut text)?;
    let list = List {
        bytes: &text[..n],
        separator: b'\n',
    };
    file_list(rt, folder, path, list)
}

// file STORE PUBLISHER FILE...
fn file_args(rt: &impl Host, folder: &[u8], count: usize) -> Ended {
    let mut text = [0u8; LONGEST];
    let n = gather::gather(rt, &mut text, 4, count)?;
    let list = List {
        bytes: &text[..n],
        separator: 0,
    };
    file_list(rt, folder, b"file", list)
}

pub fn run(rt: &impl Host, count: usize) -> Ended {
    if count < 5 {
        return Err(words::usage(
            rt,
            b"file takes a folder, a publisher and files, or a list",
            USAGE.as_bytes(),
        ));
    }
    let mut folder = [0u8; PATH_MAX];
    let folder = opened::folder(rt, &mut folder, USAGE)?;
    if args::is(rt, 3, b"--list") {
        file_listed(rt, folder, count)
    } else {
        file_args(rt, folder, count)
    }
}
