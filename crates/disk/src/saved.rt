// Loading and saving.
ghost use Rattle.std.specs.Prelude.{◌≡◌, IfErr};
ghost use Rattle.desk.specs.declared.failure.Failure.TheVariants.{Fault};
ghost use Rattle.disk.specs.declared.saved.LoadError.{LoadError};
ghost use Rattle.disk.specs.Saved.{Loads};

use crate::parts::{Damaged, HolidayList};
use crate::{Books, parts};
use desk::place::EILSEQ;
use desk::{Ended, Failure, Host, place};
use std::io::{Error, ErrorKind};
use words::{complain, failed};

// Why no store was loaded.
#[derive(Clone, Copy)]
pub enum LoadError {
    // there is none, or it can't be opened, and the reason has been told
    Missing,
    // the file is no store, or a part of one
    Damaged,
}

impl From<Damaged> for LoadError {
    fn from(_e: Damaged) -> LoadError {
        LoadError::Damaged
    }
}

fn missing(rt: &impl Host, folder: &[u8], error: Error) -> LoadError
    ensures { result ≡ LoadError.Missing }
{
    failed(rt, folder, error);
    complain(
        rt,
        folder,
        b"no store can be read there; 'dagskimra start' makes one",
    );
    LoadError::Missing
}

// Reads the store of a folder, and judges it last: what is said to be loaded reads as a store.
pub fn load(rt: &impl Host, folder: &[u8], books: &mut Books) -> Result<HolidayList, LoadError>
    ensures { Loads result books.new }
{
    let mut file = place::open_read(rt, folder, b"store").map_err(|e| missing(rt, folder, e))?;
    let list = parts::read(&mut file, books)?;
    if store::readable::readable(
        &books.table,
        &books.files,
        &books.regular,
        &books.corrections,
        &books.entries,
    ) {
        Ok(list)
    } else {
        Err(LoadError::Damaged)
    }
}

// The new file could not be made: the old one is as it was, and nothing is beside it.
fn given_up(rt: &impl Host, folder: &[u8], error: Error) -> Failure
    ensures { result ≡ Fault }
{
    failed(rt, folder, error);
    let _ = place::unlink(rt, folder, b"store.new");
    complain(rt, folder, b"the store can't be written, and is as it was")
}

// Writes the store beside the old one.
fn write_new(rt: &impl Host, folder: &[u8], books: &Books) -> Result<(), Error> {
    let mut file = place::create(rt, folder, b"store.new")?;
    parts::write(&mut file, books)
}

// Writes the store beside the old one, and has it take the old one's name. Where it is not on the device, the reason has been told.
pub fn save(rt: &impl Host, folder: &[u8], books: &Books) -> Ended
    ensures { IfErr result (λ why. why ≡ Fault) }
{
    // one that a process left that was killed
    let _ = place::unlink(rt, folder, b"store.new");
    write_new(rt, folder, books).map_err(|e| given_up(rt, folder, e))?;
    place::rename(rt, folder, b"store.new", b"store").map_err(|e| given_up(rt, folder, e))?;
    place::sync(rt, folder).map_err(|e| {
        failed(rt, folder, e);
        complain(
            rt,
            folder,
            b"the store has changed, and a loss of power may still undo the change",
        )
    })
}

// Whether there is a store in the folder. One whose name std can't take has none, and whoever makes it is told why.
pub fn is_there(rt: &impl Host, folder: &[u8]) -> bool {
    match place::open_read(rt, folder, b"store") {
        Ok(_) => true,
        Err(e) => e.kind() != ErrorKind::NotFound && e.raw_os_error() != Some(EILSEQ),
    }
}
