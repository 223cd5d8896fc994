// Files that are given to be read: their names, and their bytes.
ghost use Rattle.std.specs.Prelude.{◌≡◌, ◌≤◌, length, IfOk};
ghost use Rattle.commands.specs.Given.{name_start, name_in};

use crate::LONGEST;
use desk::file::ReadError;
use desk::{Failure, Host, file};

// Where the last component of a path begins: behind its last slash.
fn name_at(path: &[u8]) -> usize
    ensures upper_bound { result ≤ length path.now }
    ensures value { result ≡ name_start path.now }
{
    for n in (0..path.len()).rev() {
        if path[n] == b'/' {
            return n + 1;
        }
    }
    0
}

// The kind and the publication day that a path's last component tells.
pub fn name_of(path: &[u8]) -> Option<records::names::name::Name>
    ensures { result ≡ name_in path.now }
{
    let at = name_at(path);
    records::names::name::Name::read(&path[at..])
}

// Reads a file whole, and answers how many bytes it has, not the bytes: `Offers` speaks of the first bytes of the text that was lent. Where it can't be read, the reason has been told.
pub fn load(rt: &impl Host, path: &[u8], text: &mut [u8; LONGEST]) -> Result<usize, Failure>
    ensures { IfOk result (λ n. n ≤ length text.new) }
{
    file::load(rt, path, text).map_err(|e| match e {
        ReadError::TooLong => words::complain(
            rt,
            path,
            b"longer than 2 MB, and no file of this exchange is",
        ),
        ReadError::Failed(e) => words::failed(rt, path, e),
    })
}
