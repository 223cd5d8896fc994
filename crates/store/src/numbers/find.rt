// The line of a number.
ghost use Rattle.std.specs.Prelude.{◌≡◌, ◌+◌, ◌*◌, ◌%◌, ◌≤◌, length};
ghost use Rattle.laws.specs.Lists.{table, first_at};
ghost use Rattle.fields.specs.Number.{same_number};
ghost use Rattle.store.specs.numbers.Lines.{number_at};
ghost use Rattle.store.specs.numbers.Find.{found_line};

use crate::numbers::lines;
use fields::number::Number;

// Whether the line i has the number. The lowest byte of its first field tells most lines that do not.
#[tactic(auto, using(crate::proofs::numbers::Finding::told_apart, crate::proofs::numbers::Keys::number_read))]
fn has_number(lines: &[u8], i: usize, low: u8, number: Number) -> bool
    requires { (2 + i * 14 + 14 ≤ length lines.now) × (low ≡ number.first.0 % 256) }
    ensures { result ≡ same_number number (number_at lines.now i) }
{
    let at = lines::HEAD + i * lines::LINE;
    lines[at] == low && Number::same(number, lines::line_at(lines, i).number)
}

// The place of the first of n lines that has the number; n where none has it.
#[tactic(auto, using(crate::proofs::numbers::Finding::find_on, crate::proofs::numbers::Finding::find_here, crate::proofs::numbers::Finding::find_none))]
pub fn line_of(lines: &[u8], n: usize, number: Number) -> usize
    requires { 2 + n * 14 ≤ length lines.now }
    ensures { result ≡ first_at (same_number number) (table n (number_at lines.now)) }
{
    let low = (number.first.0 % 256) as u8;
    for i in 0..n {
        if has_number(lines, i, low, number) {
            return i;
        }
    }
    n
}

// The line of a number. A table that is cut off before its last line has none.
pub fn find_line(table: &[u8], number: Number) -> Option<usize>
    ensures { result ≡ found_line table.now number }
{
    if table.len() < lines::HEAD {
        return None;
    }
    let n = lines::line_count(table);
    if table.len() < lines::HEAD + n * lines::LINE {
        return None;
    }
    let i = line_of(table, n, number);
    (i < n).then_some(i)
}
