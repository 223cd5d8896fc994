// The fields of a line that may be damaged.
ghost use Rattle.std.specs.Prelude.{◌≡◌, take, drop};
ghost use Rattle.faults.specs.Cut.{rest_at, code_width};

// All that stands behind `k` commas; nothing where there are fewer.
#[tactic(auto, unfolding(crate::specs::Cut::rest_at))]
pub(crate) fn rest(s: &[u8], k: usize) -> &[u8]
    ensures { result.now ≡ rest_at s.now k }
{
    let mut at: usize = 0;
    for _ in 0..k {
        let e = text::field_end(s, at, b',');
        if s.len() <= e {
            return &s[0..0];
        }
        at = e + 1;
    }
    &s[at..]
}

// The first `n` bytes, or all where there are fewer.
pub(crate) fn first(s: &[u8], n: usize) -> &[u8]
    ensures { result.now ≡ take n s.now }
{
    &s[..n.min(s.len())]
}

// What stands behind the first `n` bytes.
pub(crate) fn behind(s: &[u8], n: usize) -> &[u8]
    ensures { result.now ≡ drop n s.now }
{
    &s[n.min(s.len())..]
}

// How many bytes the code of a correction has: up to `U:`, or four where that is missing.
#[tactic(auto, using(std::proofs::lemmas::Bool::Decides::nat_tests, crate::proofs::CutLaws::colon_first), unfolding(crate::specs::Cut::code_width))]
pub fn code_width(head: &[u8]) -> usize
    ensures { result ≡ code_width head.now }
{
    let colon = text::field_end(head, 0, b':');
    if colon < head.len() && 0 < colon && head[colon - 1] == b'U' {
        colon - 1
    } else {
        4
    }
}
