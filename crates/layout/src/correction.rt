// A correction, `CCCCU:`, a part, `,K:`, a part: its code, what was reported and what it should be.
ghost use Rattle.std.specs.Prelude.{◌≡◌, true, ◌+◌, ◌≤◌, length};
ghost use Rattle.laws.specs.Overlay.{Laid};
ghost use Rattle.layout.specs.Report.{whole_of};
ghost use Rattle.layout.specs.Correction.{head_of, reported_of, is_sound, sound_of, correction_of, correction_of_words, named_number, correction_fits, correction_text};

use crate::part::Part;
use crate::putting;
use crate::report::Report;
use fields::correction_code::CorrectionCode;
use fields::number::Number;

#[derive(Clone, Copy)]
pub struct Correction {
    pub code: CorrectionCode,
    pub u: Part,
    pub k: Part,
}

// What stands before the first colon: the code, and U.
#[tactic(auto, using(std::proofs::lemmas::Bool::Decides::nat_tests), unfolding(crate::specs::Correction::head_of))]
fn read_head(f: &[u8]) -> Option<CorrectionCode>
    ensures { result ≡ head_of f.now }
{
    if f.len() != 5 || f[4] != b'U' {
        return None;
    }
    CorrectionCode::read(&f[..4])
}

// What stands between the colons: a part, a comma, and K.
#[tactic(auto, using(std::proofs::lemmas::Bool::Decides::nat_tests), unfolding(crate::specs::Correction::reported_of))]
fn read_reported(f: &[u8]) -> Option<Part>
    ensures { result ≡ reported_of f.now }
{
    if f.len() < 2 {
        return None;
    }
    let n = f.len() - 2;
    if f[n] != b',' || f[n + 1] != b'K' {
        return None;
    }
    Part::read(&f[..n])
}

// With code 25XX the U part is a whole report; with any other at least one part has a number.
#[tactic(auto, using(std::proofs::lemmas::Bool::Decides::nat_tests), unfolding(crate::specs::Correction::is_sound))]
fn is_sound(code: CorrectionCode, u: Part, k: Part) -> bool
    ensures { result ≡ is_sound code u k }
{
    if code.is_objection() {
        return Report::of_part(u).is_some();
    }
    !u.number.first.is_empty() || !k.number.first.is_empty()
}

#[tactic(auto, using(std::proofs::lemmas::Bool::Decides::nat_tests), unfolding(crate::specs::Correction::sound_of))]
fn sound(code: CorrectionCode, u: Part, k: Part) -> Option<Correction>
    ensures { result ≡ sound_of code u k }
{
    if !is_sound(code, u, k) {
        return None;
    }
    Some(Correction { code, u, k })
}

impl Correction {
    #[tactic(auto, using(crate::proofs::CorrectionWalk::walks))]
    pub fn read(s: &[u8]) -> Option<Correction>
        ensures { result ≡ correction_of s.now }
    {
        let a = text::field_end(s, 0, b':');
        if s.len() <= a {
            return None;
        }
        let Some(code) = read_head(&s[0..a]) else {
            return None;
        };
        let behind = a + 1;
        let b = text::field_end(s, behind, b':');
        if s.len() <= b {
            return None;
        }
        let Some(u) = read_reported(&s[behind..b]) else {
            return None;
        };
        let rest = b + 1;
        let Some(k) = Part::read(&s[rest..]) else {
            return None;
        };
        sound(code, u, k)
    }

    // From 13 plain words: the code, and six for each part.
    #[tactic(auto, using(std::proofs::lemmas::Bool::Decides::nat_tests), unfolding(crate::specs::Correction::correction_of_words))]
    pub fn of_words(w: &[u64]) -> Option<Correction>
        ensures { result ≡ correction_of_words w.now }
    {
        if w.len() != 13 {
            return None;
        }
        let code = CorrectionCode::of_word(w[0])?;
        let u = Part::of_words(&w[1..7])?;
        let k = Part::of_words(&w[7..13])?;
        sound(code, u, k)
    }

    // The number that it names: that of the U part, or of the K part where U has none.
    #[tactic(auto, using(std::proofs::lemmas::Bool::Decides::nat_tests), unfolding(crate::specs::Correction::named_number))]
    pub fn named_number(self) -> Number
        ensures { result ≡ named_number self }
    {
        if self.u.number.first.is_empty() {
            self.k.number
        } else {
            self.u.number
        }
    }

    // The report that it names, where its U part is a whole one.
    pub fn named_report(self) -> Option<Report>
        ensures { result ≡ whole_of self.u }
    {
        Report::of_part(self.u)
    }

    // How many bytes its text has.
    #[tactic(auto, using(crate::proofs::CorrectionLaws::correction_lengths))]
    pub fn len(self) -> usize
        ensures { result ≡ length (correction_text self) }
    {
        self.u.len() + self.k.len() + 9
    }

    // Into a record that can hold it.
    #[tactic(auto, using(crate::proofs::PutLaws::behind, crate::proofs::CorrectionLaws::whole))]
    pub fn write(self, out: &mut [u8], at: usize) -> usize
        requires { (at + length (correction_text self) ≤ length out.old) × (correction_fits self ≡ true) }
        ensures { Laid out.old at (correction_text self) out.new result }
    {
        let a = putting::put_head(self.code, out, at);
        let b = self.u.write(out, a);
        let c = putting::put_between(out, b);
        self.k.write(out, c)
    }
}
