// Records read from a line, or at a place of a file, and written again.
ghost use Rattle.std.specs.Prelude.{◌≡◌, true};
ghost use Rattle.layout.specs.Report.{report_fits};
ghost use Rattle.layout.specs.Correction.{correction_fits};
ghost use Rattle.layout.specs.Request.{request_fits};

use crate::show;
use layout::correction::Correction;
use layout::report::Report;
use layout::request::Request;
use records::names::kind::FileKind;

// How many bytes were written, and 1,000 for a fault.
fn put_report(r: Report, out: &mut [u8]) -> usize
    requires { report_fits r ≡ true }
{
    if out.len() < r.len() {
        return 1000;
    }
    r.write(out, 0)
}

fn put_correction(c: Correction, out: &mut [u8]) -> usize
    requires { correction_fits c ≡ true }
{
    if out.len() < c.len() {
        return 1000;
    }
    c.write(out, 0)
}

fn put_request(r: Request, out: &mut [u8]) -> usize
    requires { request_fits r ≡ true }
{
    if out.len() < r.len() {
        return 1000;
    }
    r.write(out, 0)
}

// The place of a record that is a line by itself.
const ALONE: usize = 1000000;

fn report(s: &[u8], place: usize, out: &mut [u8]) -> usize {
    if place == ALONE {
        let Some(r) = Report::read(s) else {
            return 1000;
        };
        return put_report(r, out);
    }
    let Ok(r) = files::values::read_report(s, place) else {
        return 1000;
    };
    put_report(r, out)
}

fn correction(s: &[u8], place: usize, out: &mut [u8]) -> usize {
    if place == ALONE {
        let Some(c) = Correction::read(s) else {
            return 1000;
        };
        return put_correction(c, out);
    }
    let Ok(c) = files::values::read_correction(s, place) else {
        return 1000;
    };
    put_correction(c, out)
}

fn request(s: &[u8], place: usize, out: &mut [u8]) -> usize {
    if place == ALONE {
        let Some(r) = Request::read(s) else {
            return 1000;
        };
        return put_request(r, out);
    }
    let Ok(r) = files::values::read_request(s, place) else {
        return 1000;
    };
    put_request(r, out)
}

fn written(kind: FileKind, s: &[u8], place: usize, out: &mut [u8]) -> usize {
    match kind {
        FileKind::Correction => correction(s, place, out),
        FileKind::Request => request(s, place, out),
        FileKind::Default | FileKind::Response => report(s, place, out),
    }
}

fn is_back(line: &[u8], out: &[u8], n: usize) -> bool {
    out.get(..n) == Some(line)
}

fn compared(rt: &impl Print, kind: FileKind, line: &[u8], out: &mut [u8]) {
    let n = written(kind, line, ALONE, out);
    if n == 1000 {
        show::word(rt, show::FAULT);
        return;
    }
    show::same(rt, is_back(line, out, n));
}

// The line, and whether it came back byte for byte; `fault` where it does not read.
pub fn one(rt: &impl Print, kind: FileKind, line: &[u8]) {
    show::say(rt, line);
    let mut out = [0u8; 128];
    compared(rt, kind, line, &mut out);
}

fn is_kept_in(kind: FileKind, file: &[u8], place: usize, line: &[u8], out: &mut [u8]) -> bool {
    let n = written(kind, file, place, out);
    is_back(line, out, n)
}

// Whether the values of the record at a place of a file, written again, are the line.
pub fn is_kept(kind: FileKind, file: &[u8], place: usize, line: &[u8]) -> bool {
    let mut out = [0u8; 128];
    is_kept_in(kind, file, place, line, &mut out)
}
