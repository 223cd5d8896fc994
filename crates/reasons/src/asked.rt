// What is asked of the library. The store has been judged when it was opened, so that a look at it is its answer.
ghost use Rattle.std.specs.Prelude.{◌≡◌};
ghost use Rattle.asking.specs.Why.{part_at};
ghost use Rattle.reasons.specs.Named.{why_named};

use asking::looks::NotSeen;
use asking::pairs::{Pair, Stored};
use fields::number::Number;
use store::journals::records::{Journal, REPORTS, record_bytes};

// Why a number stands where it does.
pub fn why(
    lines: &[u8],
    files: &[u8],
    regular: &[u8],
    corrections: &[u8],
    number: Option<Number>,
) -> Result<Option<Pair>, NotSeen>
    ensures { result ≡ why_named lines.now files.now regular.now corrections.now number }
{
    let Some(number) = number else {
        return Err(NotSeen::UnknownNumber);
    };
    asking::why::look(lines, files, regular, corrections, number)
}

// The bytes of a report of a pair.
pub fn report<'a>(regular: &'a [u8], corrections: &'a [u8], s: Stored) -> &'a [u8]
    ensures { result.now ≡ part_at regular.now s.place }
{
    record_bytes(regular, corrections, Journal::Regular, REPORTS, s.place)
}
