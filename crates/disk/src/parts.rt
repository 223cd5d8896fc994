// The head and the five buffers, read from an open file and written to one.
use crate::head::HEAD;
use crate::list::LINE;
use crate::{Books, head, list};
use desk::file;
use std::fs::OpenFile;
use std::io::{Error, ErrorKind, Read, Write};

// With which holiday list the entries of a store were worked out.
#[derive(Clone, Copy, PartialEq, Eq)]
pub enum HolidayList {
    // this program's
    Own,
    Other,
}

// The file is no store, or a part of one.
#[derive(Drop)]
pub struct Damaged;

impl From<Error> for Damaged {
    fn from(_e: Error) -> Damaged {
        Damaged
    }
}

fn read_books<F: Read>(file: &mut F, books: &mut Books) -> Result<(), Damaged> {
    file.read_exact(&mut books.table)?;
    file.read_exact(&mut books.files)?;
    file.read_exact(&mut books.regular)?;
    file.read_exact(&mut books.corrections)?;
    file.read_exact(&mut books.entries)?;
    if file::at_end(file) {
        Ok(())
    } else {
        Err(Damaged)
    }
}

// The line of a list behind a head; one of version 1 has none.
fn read_line<'a, F: Read>(
    file: &mut F,
    head: &[u8; HEAD],
    line: &'a mut [u8; LINE],
) -> Result<&'a [u8], Damaged> {
    if head::is_first(head) {
        return Ok(&[]);
    }
    file.read_exact(line)?;
    Ok(line)
}

// The head over the line of a list and the buffers that it covers.
fn head_over(line: &[u8], books: &Books) -> [u8; HEAD] {
    head::head_of(
        line,
        &books.table,
        &books.files,
        &books.regular,
        &books.corrections,
    )
}

// A file is whole that has a head which is right for what follows, the five buffers, and nothing behind them.
pub fn read<F: Read>(file: &mut F, books: &mut Books) -> Result<HolidayList, Damaged> {
    let mut head = [0u8; HEAD];
    let mut line = [0u8; LINE];
    file.read_exact(&mut head)?;
    let line = read_line(file, &head, &mut line)?;
    read_books(file, books)?;
    if head != head_over(line, books) {
        return Err(Damaged);
    }
    if line == list::line().as_slice() {
        Ok(HolidayList::Own)
    } else {
        Ok(HolidayList::Other)
    }
}

// Writes them with the line of this program's list. Where it answers no error, they are on the device.
pub fn write<F: Write + OpenFile>(file: &mut F, books: &Books) -> Result<(), Error> {
    let line = list::line();
    file.write_all(&head_over(&line, books))?;
    file.write_all(&line)?;
    file.write_all(&books.table)?;
    file.write_all(&books.files)?;
    file.write_all(&books.regular)?;
    file.write_all(&books.corrections)?;
    file.write_all(&books.entries)?;
    file.sync_all()
}
