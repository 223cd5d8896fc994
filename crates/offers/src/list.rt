// A list of offers: PUBLISHER, a tab and PATH each, with a separator behind it. Blank lines are passed over.
ghost use Rattle.std.specs.Prelude.{◌≡◌, ◌≤◌, IfOk};
ghost use Rattle.laws.specs.Split.{piece_of};

use crate::MOST;

#[derive(Clone, Copy)]
pub struct List<'a> {
    pub bytes: &'a [u8],
    pub separator: u8,
}

// Why a list is not taken.
#[derive(Clone, Copy)]
pub enum ListError {
    // a line, counted from 1, has no tab
    NoTab(usize),
    TooMany,
}

impl<'a> List<'a> {
    // How many offers there are.
    pub fn count(self) -> Result<usize, ListError>
        ensures { IfOk result (λ n. n ≤ 16384) }
    {
        let List { bytes, separator } = self;
        let mut n: usize = 0;
        for (i, line) in bytes.split(|&b| b == separator).enumerate() {
            if line.is_empty() {
                continue;
            }
            if !line.contains(&b'\t') {
                return Err(ListError::NoTab(i.saturating_add(1)));
            }
            n = n.saturating_add(1);
        }
        if MOST < n {
            Err(ListError::TooMany)
        } else {
            Ok(n)
        }
    }
}

// A file at a path, and its publisher.
#[derive(Clone, Copy)]
pub struct Offer<'a> {
    pub publisher: &'a [u8],
    pub path: &'a [u8],
}

impl<'a> Offer<'a> {
    // From a line of the list.
    pub fn of(line: &'a [u8]) -> Offer<'a>
        ensures { result.publisher.now ≡ piece_of 9 line.now 0 }
    {
        let publisher = text::piece(line, b'\t', 0);
        Offer {
            publisher,
            path: line.get(publisher.len() + 1..).unwrap_or(&[]),
        }
    }
}
