// read FILE: the records of a file of any of the four kinds.
ghost use Rattle.std.specs.Prelude.{Ok, Err};
ghost use Rattle.desk.specs.declared.failure.Failure.TheVariants.{Refused};
ghost use Rattle.files.specs.Judged.{judged_file};
ghost use Rattle.commands.specs.Status.{Ends, read_status};

use crate::fault::Columns;
use crate::{LONGEST, end, given};
use desk::place::PATH_MAX;
use desk::{Ended, Failure, Host, Page, args};
use faults::cause::{Cause, FaultPlace};
use records::names::kind::FileKind;

// The first n lines of a file, each a record: `record` PLACE RECORD
fn print(page: &mut Page<'_, impl Host>, file: &[u8], n: usize) {
    let mut at = 0;
    for i in 0..n {
        let end = files::read::line_end(file, at);
        if end < at || file.len() <= end {
            return;
        }
        print!(page; "record\t{i}\t");
        page.text(&file[at..end]);
        page.text(b"\n");
        at = end + 1;
    }
}

fn records(rt: &impl Host, file: &[u8], n: usize) -> Ended
    ensures { Ends (Ok tt) result }
{
    let mut page = Page::new(rt);
    print(&mut page, file, n);
    end::done(rt, page, Ok(()))
}

// `refused` 4 PLACE FIELD CAUSE
fn refused(rt: &impl Host, columns: Columns) -> Ended
    ensures { Ends (Err Refused) result }
{
    let mut page = Page::new(rt);
    println!(page; "refused\t{columns}");
    end::done(rt, page, Err(Failure::Refused))
}

// What is printed is what the file was judged to be.
fn read_bytes(rt: &impl Host, path: &[u8], kind: FileKind, file: &[u8]) -> Ended
    ensures { Ends (read_status (judged_file kind file.now)) result }
{
    match files::judge::judge(kind, file) {
        Err(fault) => {
            words::fault::refused(rt, path, kind, file, fault.at, fault.cause);
            refused(rt, Columns(fault.at, fault.cause))
        }
        Ok(n) => records(rt, file, n),
    }
}

fn read_kind(rt: &impl Host, path: &[u8], kind: FileKind) -> Ended {
    let mut text = [0u8; LONGEST];
    let n = given::load(rt, path, &mut text)?;
    read_bytes(rt, path, kind, &text[..n])
}

fn no_kind(rt: &impl Host, path: &[u8]) -> Ended {
    words::complain(
        rt,
        path,
        b"refused (2): the name tells none of the four kinds, 1Dyymmdd.txt (default), 1Kyymmdd.txt (correction), 1Qyymmdd.txt (request), 1Ryymmdd.txt (response); give the file under the name it was published with",
    );
    end::refused(rt, 2)
}

pub fn run(rt: &impl Host, count: usize) -> Ended {
    if count != 3 {
        return Err(words::usage(rt, b"read takes a file", b"read FILE"));
    }
    let mut path = [0u8; PATH_MAX];
    let path = args::path(rt, 2, &mut path).unwrap_or(&[]);
    match given::name_of(path) {
        Some(name) => read_kind(rt, path, name.kind),
        None => no_kind(rt, path),
    }
}
