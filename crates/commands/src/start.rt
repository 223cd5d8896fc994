// start STORE TABLE: the number table into a new store.
ghost use Rattle.std.specs.Prelude.{◌≡◌, Ok, Err};
ghost use Rattle.desk.specs.declared.failure.Failure.TheVariants.{Refused, Fault};
ghost use Rattle.disk.specs.Books.{buffers_of};
ghost use Rattle.commands.specs.Status.{Ends, StartsBy};

use crate::{LONGEST, end, given, opened};
use desk::place::PATH_MAX;
use desk::{Ended, Failure, Host, Page, args, place};
use disk::{Books, lock, saved};
use starting::start::NotStarted;
use std::io;
use std::io::ErrorKind;
use words::refusal::Refusal;

fn there_already(rt: &impl Host, folder: &[u8]) -> Failure
    ensures { result ≡ Fault }
{
    words::complain(
        rt,
        folder,
        b"there is a store already, and it is left alone; name another folder",
    )
}

// Makes the folder where it is missing, so that it is on the device.
fn make(rt: &impl Host, folder: &[u8]) -> io::Result<()> {
    match place::make(rt, folder) {
        Err(e) if e.kind() != ErrorKind::AlreadyExists => Err(e),
        _ => place::sync_parent(rt, folder),
    }
}

// Saves a store where there is none. Where it is not on the device, the reason has been told.
fn save_new(rt: &impl Host, folder: &[u8], books: &Books) -> Ended
    ensures { Ends (Ok tt) result }
{
    make(rt, folder).map_err(|e| words::failed(rt, folder, e))?;
    lock::take(rt, folder)?;
    // another process may have started one meanwhile
    if saved::is_there(rt, folder) {
        lock::release(rt, folder);
        return Err(there_already(rt, folder));
    }
    let saved = saved::save(rt, folder, books);
    lock::release(rt, folder);
    saved
}

fn started(rt: &impl Host, n: usize) -> Ended
    ensures { Ends (Ok tt) result }
{
    let mut page = Page::new(rt);
    println!(page; "started\t{n}");
    end::done(rt, page, Ok(()))
}

// Starts the buffers, and saves them.
fn start_on(rt: &impl Host, folder: &[u8], path: &[u8], text: &[u8], books: &mut Books) -> Ended
    ensures { StartsBy text.now (buffers_of books.old) result (buffers_of books.new) }
{
    match starting::start::start(
        text,
        &mut books.table,
        &mut books.files,
        &mut books.regular,
        &mut books.corrections,
        &mut books.entries,
    ) {
        Err(NotStarted::Short) => opened::refused(rt, path, Refusal::Damaged),
        Err(NotStarted::BadTable) => opened::refused(rt, path, Refusal::Table),
        Ok(n) => {
            save_new(rt, folder, books)?;
            started(rt, n)
        }
    }
}

fn start_from(rt: &impl Host, folder: &[u8], path: &[u8]) -> Ended {
    if saved::is_there(rt, folder) {
        return Err(there_already(rt, folder));
    }
    let mut text = [0u8; LONGEST];
    let n = given::load(rt, path, &mut text)?;
    let mut books = Books::empty();
    start_on(rt, folder, path, &text[..n], &mut books)
}

pub fn run(rt: &impl Host, count: usize) -> Ended {
    let usage = "start STORE TABLE";
    if count != 4 {
        return Err(words::usage(rt, b"start takes a folder and a table", usage.as_bytes()));
    }
    let mut folder = [0u8; PATH_MAX];
    let mut path = [0u8; PATH_MAX];
    let folder = opened::folder(rt, &mut folder, usage)?;
    start_from(rt, folder, args::path(rt, 3, &mut path).unwrap_or(&[]))
}
