// Six fields, `num1,num2,ddmmyyyy,GAINING,LOSING,STATUS`, each of which may be empty: a report is such a part with
// nothing missing, and a correction has two.
ghost use Rattle.std.specs.Prelude.{◌≡◌, true, ◌+◌, ◌≤◌, length};
ghost use Rattle.laws.specs.Overlay.{Laid};
ghost use Rattle.layout.specs.Part.{part_of, part_of_words, part_fits, part_text};

use crate::field::{Field, maybe_of_word};
use crate::{putting, walk};
use calendar::dates::CalendarDays;
use fields::code::Code;
use fields::kind::Kind;
use fields::number::{Digits, Number};

#[derive(Clone, Copy)]
pub struct Part {
    pub number: Number,
    pub date: Option<CalendarDays>,
    pub gaining: Option<Code>,
    pub losing: Option<Code>,
    pub kind: Option<Kind>,
}

impl Part {
    #[tactic(auto, using(crate::proofs::WalkLaws::walks))]
    pub fn read(s: &[u8]) -> Option<Part>
        ensures { result ≡ part_of s.now }
    {
        let Some((first, a)) = walk::digits_at(s, 0) else {
            return None;
        };
        let Some((number, b)) = walk::number_at(first, s, a) else {
            return None;
        };
        let Some((date, c)) = walk::field_at(s, b) else {
            return None;
        };
        let Some((gaining, d)) = walk::field_at(s, c) else {
            return None;
        };
        let Some((losing, e)) = walk::field_at(s, d) else {
            return None;
        };
        let Some(kind) = walk::last_at(s, e) else {
            return None;
        };
        Some(Part {
            number,
            date,
            gaining,
            losing,
            kind,
        })
    }

    // From six plain words, in the order of the fields: the codes of the number fields, 1 for an empty one; a day's
    // number, 65535 for none; two network codes, 1000 for none; the kind, P 0, L 1, Z 2, 3 for none.
    #[tactic(auto, using(std::proofs::lemmas::Bool::Decides::nat_tests), unfolding(crate::specs::Part::part_of_words, crate::specs::Part::rest_of_words))]
    pub fn of_words(w: &[u64]) -> Option<Part>
        ensures { result ≡ part_of_words w.now }
    {
        if w.len() != 6 {
            return None;
        }
        let number = Number {
            first: Digits(w[0]),
            last: Digits(w[1]),
        };
        if !number.fits() {
            return None;
        }
        Some(Part {
            number,
            date: maybe_of_word(w[2])?,
            gaining: maybe_of_word(w[3])?,
            losing: maybe_of_word(w[4])?,
            kind: maybe_of_word(w[5])?,
        })
    }

    // How many bytes its text has.
    #[tactic(auto, using(crate::proofs::PartLaws::part_lengths))]
    pub fn len(self) -> usize
        ensures { result ≡ length (part_text self) }
    {
        self.number.first.len()
            + self.number.last.len()
            + self.date.len()
            + self.gaining.len()
            + self.losing.len()
            + self.kind.len()
            + 5
    }

    // Into six fields that can hold it.
    #[tactic(auto, using(crate::proofs::PutLaws::behind, crate::proofs::PartLaws::whole))]
    pub fn write(self, out: &mut [u8], at: usize) -> usize
        requires { (at + length (part_text self) ≤ length out.old) × (part_fits self ≡ true) }
        ensures { Laid out.old at (part_text self) out.new result }
    {
        let a = putting::put_number(self.number, out, at);
        let b = putting::put(self.date, out, a);
        let c = putting::put_networks(self.gaining, self.losing, out, b);
        self.kind.write(out, c)
    }
}
