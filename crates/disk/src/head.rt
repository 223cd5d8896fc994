// The head of the file: its name and version, two sums in hexadecimal, and the line of the holiday list. The sums go over that line,
// the table, the files and the journals. The entries are not summed: whether they are what the journals say is what the figure tells.
ghost use Rattle.std.specs.Prelude.{◌≡◌, ◌++◌, if◌then◌else◌, nat_eq};
ghost use Rattle.laws.specs.Overlay.{overlay};
ghost use Rattle.disk.specs.Sums.{no_sum};
ghost use Rattle.disk.specs.Head.{hex, is_first, head_text, head_over};

use crate::sum::{Sum, summed};
use desk::copy_in;
use store::journals::files::FILES_LENGTH;
use store::journals::records::{CORRECTIONS_LENGTH, REGULAR_LENGTH};
use store::numbers::lines::TABLE_LENGTH;

// 18 bytes of name and version, twice sixteen hexadecimal digits, and a line end. The line of the list follows.
pub const HEAD: usize = 51;

// Whether a head is of version 1, which has no line of the list: its entries were worked out with the list of 468 days.
pub fn is_first(head: &[u8]) -> bool
    ensures { result ≡ is_first head.now }
{
    head.starts_with(b"dagskimra store 1\n")
}

// Of a head over as many bytes of the list's line.
fn version(n: usize) -> u8
    ensures { result ≡ (if nat_eq n 0 then 49 else 50) }
{
    if n == 0 { b'1' } else { b'2' }
}

// Puts sixteen hexadecimal digits into a buffer from `at` on.
pub(crate) fn put_hex(out: &mut [u8], at: usize, n: u64)
    ensures { out.new ≡ overlay out.old at (hex n) }
{
    let mut digits = [0u8; 16];
    let k = io::hex(n, 16, &mut digits);
    copy_in(out, at, &digits[..k]);
}

fn spelled(version: u8, sum: Sum) -> [u8; HEAD]
    ensures { result ≡ head_text version sum }
{
    let mut head = [b'\n'; HEAD];
    head[..16].copy_from_slice(b"dagskimra store ");
    head[16] = version;
    put_hex(&mut head, 18, sum.a);
    put_hex(&mut head, 34, sum.b);
    head
}

// The head over the line of a list; over no line it is one of version 1.
pub fn head_of(
    line: &[u8],
    table: &[u8; TABLE_LENGTH],
    files: &[u8; FILES_LENGTH],
    regular: &[u8; REGULAR_LENGTH],
    corrections: &[u8; CORRECTIONS_LENGTH],
) -> [u8; HEAD]
    ensures { result ≡ head_over line.now (table.now ++ (files.now ++ (regular.now ++ corrections.now))) }
{
    let mut sum = summed(Sum::START, line);
    sum = summed(sum, table);
    sum = summed(sum, files);
    sum = summed(sum, regular);
    sum = summed(sum, corrections);
    spelled(version(line.len()), sum)
}
