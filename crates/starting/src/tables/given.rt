// A line of the number table as it is given: `num1,num2,OWNER,ddmmyyyy`.
ghost use Rattle.std.specs.Prelude.{◌≡◌};
ghost use Rattle.starting.specs.tables.Given.{line_given};

use fields::code::Code;
use fields::date;
use fields::number::{Digits, Number};
use store::numbers::lines::Line;

#[tactic(auto, unfolding(crate::specs::tables::Given::line_given, crate::specs::tables::Given::four_of))]
pub fn read_line(l: &[u8]) -> Option<Line>
    ensures { result ≡ line_given l.now }
{
    if text::cuts(l, 44) != 3 {
        return None;
    }
    let first = Digits::read(text::piece(l, 44, 0))?;
    if first.is_empty() {
        return None;
    }
    let number = Number::read(first, text::piece(l, 44, 1))?;
    let owner = Code::read(text::piece(l, 44, 2))?;
    let setup = date::read(text::piece(l, 44, 3))?;
    Some(Line {
        number,
        owner,
        setup,
    })
}
