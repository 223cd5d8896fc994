// The given table is laid out line by line in room of its own and judged there, so that nothing lent is written before all of it
// has been looked at.
ghost use Rattle.std.specs.Prelude.{◌≡◌, ◌≤◌, length};
ghost use Rattle.starting.specs.tables.Given.{LaidOut, Judged};

use crate::tables::given;
use store::numbers::{lines, twice};

// Lays the lines out behind the place of the count. `at` moves on by the length of a line, so this is no `for`.
fn lay_out(text: &[u8], room: &mut [u8]) -> Option<usize>
    requires { 14338 ≤ length room.old }
    ensures { LaidOut text.now room.old result room.new }
{
    let mut at = 0;
    let mut n = 0;
    while at < text.len() {
        let end = text::field_end(text, at, 10);
        if text.len() <= end {
            return None;
        }
        if lines::NUMBERS <= n {
            return None;
        }
        let l = given::read_line(&text[at..end])?;
        lines::put_line(room, n, l);
        at = end + 1;
        n += 1;
    }
    Some(n)
}

// The same, with no number twice.
pub(crate) fn judge(text: &[u8], room: &mut [u8]) -> Option<usize>
    requires { 14338 ≤ length room.old }
    ensures { Judged text.now room.old result room.new }
{
    let n = lay_out(text, room)?;
    twice::no_number_twice(room, n).then_some(n)
}
