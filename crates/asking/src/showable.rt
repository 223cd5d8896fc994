// What has to hold of the lent buffers before anything in them is shown: they are long enough, and the list of files is in range. It
// is a look at the files alone, so that it can be taken for each question; whether the store reads is judged once
// (`store::readable`).
ghost use Rattle.std.specs.Prelude.{◌≡◌, ◌≤◌, length};
ghost use Rattle.asking.specs.Showable.{files_in_range, is_showable};

use store::journals::records::{CORRECTIONS, CORRECTIONS_LENGTH, REGULAR_LENGTH, REPORTS};
use store::journals::{files, sums};
use store::numbers::lines;

// Whether the list of files is in range.
#[tactic(auto, unfolding(crate::specs::Showable::files_in_range, store::specs::journals::Files::files_of))]
fn files_in_range(files: &[u8]) -> bool
    requires { 8194 ≤ length files.now }
    ensures { result ≡ files_in_range files.now }
{
    let n = files::file_count(files);
    n <= files::FILES
        && files::good_files(files, n)
        && sums::records_of(files, n, 0) <= REPORTS
        && sums::records_of(files, n, 1) <= CORRECTIONS
}

// Whether the buffers can be shown from.
#[tactic(auto, unfolding(crate::specs::Showable::is_showable))]
pub fn showable(table: &[u8], files: &[u8], regular: &[u8], corrections: &[u8]) -> bool
    ensures { result ≡ is_showable table.now files.now regular.now corrections.now }
{
    lines::TABLE_LENGTH <= table.len()
        && files::FILES_LENGTH <= files.len()
        && REGULAR_LENGTH <= regular.len()
        && CORRECTIONS_LENGTH <= corrections.len()
        && lines::line_count(table) <= lines::NUMBERS
        && files_in_range(files)
}
