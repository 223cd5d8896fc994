// Why a number stands where it does: the two stored reports of its last confirmed pair.
ghost use Rattle.std.specs.Prelude.{◌≡◌};
ghost use Rattle.asking.specs.Why.{place_of, first_place, second_place, part_at};
ghost use Rattle.asking.specs.Looks.{why_looked};

use crate::answer::NotShown;
use crate::looks::NotSeen;
use crate::pairs::{Pair, Stored, pair_in};
use crate::{showable, stand};
use fields::number::Number;
use store::journals::records::{Journal, REPORTS};
use store::journals::{files, records};
use store::numbers::find;
use working::filed::{Filed, Journals};

// Why a number stands where it does: a look. It shows the pair that confirmed last, or that there is none.
#[tactic(auto, using(crate::proofs::Showing::showable, crate::proofs::Showing::sound, crate::proofs::Showing::reports_first, crate::proofs::Lines::found_below, crate::proofs::Whys::why_unshowable, crate::proofs::Whys::why_unknown))]
pub fn look(
    table: &[u8],
    files: &[u8],
    regular: &[u8],
    corrections: &[u8],
    number: Number,
) -> Result<Option<Pair>, NotSeen>
    ensures { result ≡ why_looked table.now files.now regular.now corrections.now number }
{
    if !showable::showable(table, files, regular, corrections) {
        return Err(NotSeen::Unshowable);
    }
    let Some(i) = find::find_line(table, number) else {
        return Err(NotSeen::UnknownNumber);
    };
    let n = files::file_count(files);
    let filed = Filed {
        files,
        n,
        journals: Journals {
            regular,
            corrections,
        },
    };
    let s = stand::standing_at(table, &filed, i);
    Ok(pair_in(files, n, s.why))
}

// The bytes of a report that is shown, a part of the regular journal; empty where none is.
fn part<'a>(regular: &'a [u8], corrections: &'a [u8], report: Option<Stored>) -> &'a [u8]
    ensures { result.now ≡ part_at regular.now (place_of report) }
{
    let place = report.map_or(REPORTS, |s| s.place);
    records::record_bytes(regular, corrections, Journal::Regular, REPORTS, place)
}

// The bytes of the pair's first report, a part of the regular journal; empty where no pair is shown.
pub fn first_part<'a>(
    regular: &'a [u8],
    corrections: &'a [u8],
    answer: Result<Option<Pair>, NotShown>,
) -> &'a [u8]
    ensures { result.now ≡ part_at regular.now (first_place answer) }
{
    let pair = answer.ok().flatten();
    part(regular, corrections, pair.map(|p| p.first))
}

// The bytes of its second report.
pub fn second_part<'a>(
    regular: &'a [u8],
    corrections: &'a [u8],
    answer: Result<Option<Pair>, NotShown>,
) -> &'a [u8]
    ensures { result.now ≡ part_at regular.now (second_place answer) }
{
    let pair = answer.ok().flatten();
    part(regular, corrections, pair.map(|p| p.second))
}
