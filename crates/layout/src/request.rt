// A request, `DXXX,`, a date or nothing, `,`: whoever asks, and the day from which on, or all.
ghost use Rattle.std.specs.Prelude.{◌≡◌, true, ◌+◌, ◌≤◌, length};
ghost use Rattle.laws.specs.Overlay.{Laid};
ghost use Rattle.layout.specs.Request.{request_of, request_of_words, request_fits, request_text};

use crate::field::{Field, maybe_of_word};
use crate::putting;
use calendar::dates::CalendarDays;
use fields::code::Code;

#[derive(Clone, Copy)]
pub struct Request {
    pub code: Code,
    pub from: Option<CalendarDays>,
}

impl Request {
    #[tactic(auto, using(std::proofs::lemmas::Bool::Decides::nat_tests), unfolding(crate::specs::Request::request_of, crate::specs::Request::three_of))]
    pub fn read(s: &[u8]) -> Option<Request>
        ensures { result ≡ request_of s.now }
    {
        if text::cuts(s, b',') != 2 {
            return None;
        }
        let Some(code) = Code::read(text::piece(s, b',', 0)) else {
            return None;
        };
        let Some(from) = Field::read(text::piece(s, b',', 1)) else {
            return None;
        };
        if !text::piece(s, b',', 2).is_empty() {
            return None;
        }
        Some(Request { code, from })
    }

    // From two plain words: the network code, and a day's number, 65535 for none.
    #[tactic(auto, using(std::proofs::lemmas::Bool::Decides::nat_tests), unfolding(crate::specs::Request::request_of_words))]
    pub fn of_words(w: &[u64]) -> Option<Request>
        ensures { result ≡ request_of_words w.now }
    {
        if w.len() != 2 {
            return None;
        }
        Some(Request {
            code: Code::of_word(w[0])?,
            from: maybe_of_word(w[1])?,
        })
    }

    // How many bytes its text has.
    #[tactic(auto, using(crate::proofs::RequestLaws::request_lengths))]
    pub fn len(self) -> usize
        ensures { result ≡ length (request_text self) }
    {
        self.from.len() + 6
    }

    // Into a record that can hold it.
    #[tactic(auto, using(crate::proofs::PutLaws::behind, crate::proofs::RequestLaws::whole))]
    pub fn write(self, out: &mut [u8], at: usize) -> usize
        requires { (at + length (request_text self) ≤ length out.old) × (request_fits self ≡ true) }
        ensures { Laid out.old at (request_text self) out.new result }
    {
        let behind = putting::put(self.code, out, at);
        putting::put(self.from, out, behind)
    }
}
