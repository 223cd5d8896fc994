// The line of the head that says with which holiday list the entries were worked out: how many days it has, and a sum over them in
// hexadecimal. It is made from the list itself, so that whoever changes the list has no number to raise by hand.
ghost use Rattle.std.specs.Prelude.{◌≡◌};
ghost use Rattle.calendar.specs.Holidays.{holidays};
ghost use Rattle.disk.specs.Sums.{sum_over, no_sum};
ghost use Rattle.disk.specs.Head.{list_line};

use crate::head::put_hex;
use crate::sum::days_summed;
use calendar::table::{COUNT, HOLIDAYS};

// `holidays`, four digits and sixteen hexadecimal ones, each behind a blank, and a line end.
pub const LINE: usize = 31;

// The sum over this program's list.
fn sum_of_list() -> u64
    ensures { result ≡ (sum_over no_sum holidays).b }
{
    days_summed(&HOLIDAYS).b
}

// The line of this program's list.
pub fn line() -> [u8; LINE]
    ensures { result ≡ list_line holidays }
{
    let mut line = [b'\n'; LINE];
    line[..14].copy_from_slice(b"holidays 0000 ");
    text::put_digits(&mut line, 9, 4, COUNT as u64);
    put_hex(&mut line, 14, sum_of_list());
    line
}
