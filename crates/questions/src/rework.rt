// rework STORE: every entry worked out again from the journals. Those that change are listed, then all are put on the disk, and then
// their count is printed. So nothing changes on the disk that is not listed, and with the last line all is done.
use crate::{asked, compared};
use commands::{end, opened};
use desk::place::PATH_MAX;
use desk::{Ended, Failure, Host, Page};
use disk::parts::HolidayList;
use disk::saved::LoadError;
use disk::{Books, lock, saved};
use store::numbers::lines::NUMBERS;

// Why the entries are not worked out again.
#[derive(Clone, Copy)]
enum ReworkError {
    // the store is damaged, and as it was
    Damaged,
    // it can't be read or written, and the reason has been told
    Failed(Failure),
}

impl From<Failure> for ReworkError {
    fn from(failure: Failure) -> ReworkError {
        ReworkError::Failed(failure)
    }
}

impl From<LoadError> for ReworkError {
    fn from(e: LoadError) -> ReworkError {
        match e {
            LoadError::Missing => ReworkError::Failed(Failure::Fault),
            LoadError::Damaged => ReworkError::Damaged,
        }
    }
}

// The lines at the places of the list; where they can't be printed, the reason has been told.
fn list_changed(
    rt: &impl Host,
    folder: &[u8],
    places: &[u16],
    books: &Books,
    worked: &[u8],
) -> Ended {
    let mut page = Page::new(rt);
    compared::list(&mut page, places, books, worked);
    end::done(rt, page, Ok(())).map_err(|_| {
        words::complain(
            rt,
            folder,
            b"what changes can't be listed, and the store is as it was",
        )
    })
}

// Works out the entries of a store that has been loaded, and answers how many change. They are listed before the store is written:
// afterwards nothing could tell them any more. Where none changes and the list is this program's, there is nothing to write.
fn rework_loaded(
    rt: &impl Host,
    folder: &[u8],
    books: &mut Books,
    holidays: HolidayList,
) -> Result<usize, ReworkError> {
    let mut worked = books.entries;
    let mut list = [0u16; NUMBERS];
    let Ok(n) = asked::reworked(
        &books.table,
        &books.files,
        &books.regular,
        &books.corrections,
        &mut worked,
        &mut list,
    ) else {
        return Err(ReworkError::Damaged);
    };
    list_changed(rt, folder, list.get(..n).unwrap_or(&list), books, &worked)?;
    if 0 < n || holidays == HolidayList::Other {
        books.entries = worked;
        saved::save(rt, folder, books)?;
    }
    Ok(n)
}

// The same for the store in a folder.
fn rework_stored(rt: &impl Host, folder: &[u8], books: &mut Books) -> Result<usize, ReworkError> {
    let holidays = saved::load(rt, folder, books)?;
    rework_loaded(rt, folder, books, holidays)
}

// The last line, once all is done.
fn print(rt: &impl Host, n: usize, books: &Books) -> Ended {
    let mut page = Page::new(rt);
    compared::count(&mut page, "changed", n, books);
    end::done(rt, page, Ok(()))
}

pub fn run(rt: &impl Host, count: usize) -> Ended {
    let usage = "rework STORE";
    if count != 3 {
        return Err(words::usage(rt, b"rework takes a folder", usage.as_bytes()));
    }
    let mut folder = [0u8; PATH_MAX];
    let mut books = Books::empty();
    let folder = opened::folder(rt, &mut folder, usage)?;
    lock::take(rt, folder)?;
    let changed = rework_stored(rt, folder, &mut books);
    lock::release(rt, folder);
    match changed {
        Ok(n) => print(rt, n, &books),
        Err(ReworkError::Damaged) => opened::damaged(rt, folder),
        Err(ReworkError::Failed(failure)) => Err(failure),
    }
}
