// Where a line of the number table stands over the first files, worked out afresh.
ghost use Rattle.std.specs.Prelude.{◌≡◌, cond, ◌+◌, ◌*◌, ◌≤◌, ltb, length, take};
ghost use Rattle.model.specs.Model.{entry_over};
ghost use Rattle.store.specs.journals.Files.{file_count};
ghost use Rattle.store.specs.journals.Reads.{read_files};
ghost use Rattle.store.specs.numbers.Lines.{line_at};
ghost use Rattle.store.specs.Reads.{table_line};
ghost use Rattle.rules.specs.Rules.{standings};
ghost use Rattle.asking.specs.Looks.{standing_looked};

use crate::looks::NotSeen;
use crate::showable;
use entries::entry::Line;
use store::journals::files;
use store::numbers::lines;
use verdict::step::Standing;
use working::filed::{Filed, Journals};
use working::work;

// How many files the first n are.
pub fn files_among(files: &[u8], n: usize) -> usize
    requires { 2 ≤ length files.now }
    ensures { result ≡ cond (ltb n (file_count files.now)) n (file_count files.now) }
{
    n.min(files::file_count(files))
}

// Where the line i stands over the first files.
pub(crate) fn standing_at(table: &[u8], filed: &Filed, i: usize) -> Standing
    requires { 2 + i * 14 + 14 ≤ length table.now }
    ensures { let f = filed.now in result ≡ entry_over standings (take f.n (read_files f.files.now f.journals.regular.now f.journals.corrections.now)) (table_line (line_at table.now i)) }
{
    let l = lines::line_at(table, i);
    let line = Line {
        owner: l.owner,
        setup: l.setup,
    };
    work::work_out(filed, l.number, line).standing
}

// Where the line i stands over the first n files: a look.
#[tactic(auto, using(crate::proofs::Showing::showable, crate::proofs::Standings::stood_unshowable, crate::proofs::Standings::stood_beyond, crate::proofs::Standings::stood_here))]
pub fn look(
    table: &[u8],
    files: &[u8],
    n: usize,
    regular: &[u8],
    corrections: &[u8],
    i: usize,
) -> Result<Standing, NotSeen>
    ensures { result ≡ standing_looked table.now files.now regular.now corrections.now n i }
{
    if !showable::showable(table, files, regular, corrections) {
        return Err(NotSeen::Unshowable);
    }
    if lines::line_count(table) <= i {
        return Err(NotSeen::UnknownNumber);
    }
    let filed = Filed {
        files,
        n: files_among(files, n),
        journals: Journals {
            regular,
            corrections,
        },
    };
    Ok(standing_at(table, &filed, i))
}
