// The lines' first fields as what an index is wanted for, and a line's standing from that index.
ghost use Rattle.std.specs.Prelude.{◌≡◌, ◌+◌, ◌*◌, ◌≤◌, ◌<◌, length, take};
ghost use Rattle.laws.specs.Lists.{table};
ghost use Rattle.laws.specs.Overlay.{overlay};
ghost use Rattle.model.specs.Model.{entry_over};
ghost use Rattle.store.specs.journals.Reads.{read_files};
ghost use Rattle.store.specs.numbers.Lines.{line_at};
ghost use Rattle.store.specs.Reads.{table_line};
ghost use Rattle.rules.specs.Rules.{standings};
ghost use Rattle.working.specs.overview.Lines.{line_tag, sorted_first};

use crate::indexing::find::Index;
use crate::indexing::{find, tags};
use entries::entry::Line;
use store::numbers::lines;
use verdict::step::Standing;

// The place of a line with the first field of its number in front.
#[tactic(auto, unfolding(crate::specs::overview::Lines::line_tag))]
fn line_tag(lines: &[u8], i: usize) -> u64
    requires { (2 + i * 14 + 14 ≤ length lines.now) × (i < 1024) }
    ensures { result ≡ line_tag lines.now i }
{
    tags::tag(lines::line_at(lines, i).number, i)
}

// Those of the first m lines, one behind the other.
fn lay_tags(lines: &[u8], m: usize, wanted: &mut [u64])
    requires { (2 + m * 14 ≤ length lines.now) × (m ≤ 1024) × (m ≤ length wanted.old) }
    ensures { wanted.new ≡ overlay wanted.old 0 (table m (line_tag lines.now)) }
{
    for i in 0..m {
        wanted[i] = line_tag(lines, i);
    }
}

// The first fields of the first m lines as what is wanted: their tags, in order.
pub fn want_lines(lines: &[u8], m: usize, wanted: &mut [u64; 10240])
    requires { (2 + m * 14 ≤ length lines.now) × (m ≤ 1024) }
    ensures { wanted.new ≡ sorted_first m (overlay wanted.old 0 (table m (line_tag lines.now))) }
{
    lay_tags(lines, m, wanted);
    order::sort(wanted, m);
}

// Where the line i stands over the first files of the index.
pub fn line_standing(lines: &[u8], index: &Index, i: usize, room: &mut [u64; 10240]) -> Standing
    requires { 2 + i * 14 + 14 ≤ length lines.now }
    ensures { let f = index.now.filed in result ≡ entry_over standings (take f.n (read_files f.files.now f.journals.regular.now f.journals.corrections.now)) (table_line (line_at lines.now i)) }
{
    let l = lines::line_at(lines, i);
    let line = Line {
        owner: l.owner,
        setup: l.setup,
    };
    find::work_indexed(index, l.number, line, room).standing
}
