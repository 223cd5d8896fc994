// The figure: how many stored entries differ from those worked out from the journals.
ghost use Rattle.std.specs.Prelude.{◌≡◌, ◌+◌, ◌*◌, ◌≤◌, ◌<◌, length, take, cond, not};
ghost use Rattle.store.specs.journals.Reads.{read_files};
ghost use Rattle.store.specs.entry_slots.Entries.{entry_at};
ghost use Rattle.store.specs.Reads.{lent, reads};
ghost use Rattle.entries.specs.comparing.Same.{same_entry};
ghost use Rattle.asking.specs.answering.Figure.{differing, figure_asked};

use crate::answer::Unreadable;
use store::journals::files;
use store::numbers::lines;
use store::readable;
use verdict::step::Standing;
use working::filed::{Filed, Journals};
use working::indexing::find::Index;
use working::indexing::tags::Tags;
use working::overview;

// Whether the entry of the line i is another one than a standing has.
fn is_other(entries: &[u8], i: usize, s: Standing) -> bool
    requires { i * 100 + 100 ≤ length entries.now }
    ensures { result ≡ not (same_entry (entry_at entries.now i) s.entry) }
{
    let stored = store::entry_slots::entry::entry_at(entries, i);
    !entries::comparing::same_entry(stored, s.entry)
}

// How many of the first m entries differ, each line worked out from the index.
#[tactic(auto, using(crate::proofs::answering::Figures::other_differs, crate::proofs::answering::Figures::differing_none, crate::proofs::answering::Figures::differing_more))]
fn differing_by(
    table: &[u8],
    index: &Index,
    entries: &[u8],
    m: usize,
    room: &mut [u64; 10240],
) -> usize
    requires { (2 + m * 14 ≤ length table.now) × (m * 100 ≤ length entries.now) × (m ≤ 1024) }
    ensures { let f = index.now.filed in result ≡ differing (take f.n (read_files f.files.now f.journals.regular.now f.journals.corrections.now)) table.now entries.now m }
{
    let mut count = 0;
    for i in 0..m {
        let s = overview::lines::line_standing(table, index, i, room);
        count += usize::from(is_other(entries, i, s));
    }
    count
}

// How many of the first m entries differ: one pass over the journals for all lines.
fn differing_among(table: &[u8], filed: &Filed, entries: &[u8], m: usize) -> usize
    requires { (2 + m * 14 ≤ length table.now) × (m * 100 ≤ length entries.now) × (m ≤ 1024) }
    ensures { let f = filed.now in result ≡ differing (take f.n (read_files f.files.now f.journals.regular.now f.journals.corrections.now)) table.now entries.now m }
{
    let mut wanted = [0u64; 10240];
    let mut keys = [0u64; 10240];
    let mut places = [0u64; 10240];
    let mut room = [0u64; 10240];
    overview::lines::want_lines(table, m, &mut wanted);
    let tags = Tags {
        words: &wanted,
        count: m,
    };
    let index = Index::new(*filed, tags, &mut keys, &mut places);
    differing_by(table, &index, entries, m, &mut room)
}

// The figure of a store; 44 before all else.
#[tactic(auto, using(crate::proofs::answering::Readables::readable_showable, crate::proofs::answering::Readables::lines_room, crate::proofs::Showing::sound, crate::proofs::answering::Figures::figure_unread, crate::proofs::answering::Figures::figure_answer))]
pub fn figure(
    table: &[u8],
    files: &[u8],
    regular: &[u8],
    corrections: &[u8],
    entries: &[u8],
) -> Result<usize, Unreadable>
    ensures { result ≡ figure_asked (reads (lent table.now files.now regular.now corrections.now entries.now)) }
{
    if !readable::readable(table, files, regular, corrections, entries) {
        return Err(Unreadable);
    }
    let n = files::file_count(files);
    let filed = Filed {
        files,
        n,
        journals: Journals {
            regular,
            corrections,
        },
    };
    let m = lines::line_count(table);
    Ok(differing_among(table, &filed, entries, m))
}
