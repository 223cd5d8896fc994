// Starting a store, and whether five buffers read as one.
ghost use Rattle.std.specs.Prelude.{◌≡◌};
ghost use Rattle.store.specs.Reads.{lent, is_readable};
ghost use Rattle.starting.specs.Start.{started_told};
ghost use Rattle.capi.specs.Told.{in_numbers};
ghost use Rattle.capi.specs.Starting.{StartsAs};

use crate::told;
use crate::told::Numbers;
use starting::start;
use starting::start::NotStarted;
use store::readable;

// Starting: 0, and how many lines; 44; 6.
impl From<Result<usize, NotStarted>> for Numbers {
    ghost from_gives = { λ a n. n ≡ in_numbers 0 (started_told a) };

    fn from(started: Result<usize, NotStarted>) -> Numbers {
        match started {
            Ok(n) => told::with(0, n),
            Err(NotStarted::Short) => told::alone(44),
            Err(NotStarted::BadTable) => told::alone(6),
        }
    }
}

// Starts a store from the text of a number table: 0, and how many lines it has; 44 for a short buffer; 6 for a text that is no table.
pub fn dagskimra_start(
    text: &[u8],
    table: &mut [u8],
    files: &mut [u8],
    regular: &mut [u8],
    corrections: &mut [u8],
    entries: &mut [u8],
    more: &mut u64,
) -> u8
    ensures { StartsAs text.now (lent table.old files.old regular.old corrections.old entries.old) result more.new (lent table.new files.new regular.new corrections.new entries.new) }
{
    let s = start::start(text, table, files, regular, corrections, entries);
    let t = Numbers::from(s);
    *more = t.first;
    t.number
}

// Whether the buffers read as a store; where they don't, filing and asking answer 44.
pub fn dagskimra_readable(
    table: &[u8],
    files: &[u8],
    regular: &[u8],
    corrections: &[u8],
    entries: &[u8],
) -> bool
    ensures { result ≡ is_readable (lent table.now files.now regular.now corrections.now entries.now) }
{
    readable::readable(table, files, regular, corrections, entries)
}
