// Why a call of the system failed, in the system's words.
ghost use Rattle.std.specs.Prelude.{◌≡◌, ◌≤◌, length, take};
ghost use Rattle.io.specs.Counts.{IsPrefixLen};

use crate::run::copy_in;
use std::fmt;
use std::fmt::Write;
use std::io::Error;

pub const LONGEST: usize = 320;

// Text that is put together in a buffer, as far as there is room.
#[derive(Drop)]
struct Spelled {
    bytes: [u8; LONGEST],
    used: usize,
    ghost fits: { used ≤ 320 },
}

impl fmt::Write for Spelled {
    fn write_str(&mut self, text: &str) -> fmt::Result {
        self.used = copy_in(&mut self.bytes, self.used, text.as_bytes());
        Ok(())
    }
}

// The words without ` (os error N)`, which std puts behind the system's.
fn without_number(text: &[u8]) -> &[u8]
    ensures prefix_len { IsPrefixLen (length result.now) text.now }
    ensures front { result.now ≡ take (length result.now) text.now }
{
    let n = text.iter().rposition(|&b| b == b'(').unwrap_or(0);
    &text[..n.saturating_sub(1)]
}

// The words, in the buffer.
pub fn words(error: Error, out: &mut [u8; LONGEST]) -> &[u8]
    ensures { length result.now ≤ 320 }
{
    let mut spelled = Spelled {
        bytes: [0u8; LONGEST],
        used: 0,
    };
    let _ = write!(spelled, "{error}");
    let all = &spelled.bytes[..spelled.used];
    let words = match error.raw_os_error() {
        Some(_) => without_number(all),
        None => all,
    };
    let n = copy_in(out, 0, words);
    &out[..n]
}
