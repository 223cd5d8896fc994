// The code of a correction: four digits, known by the number that they spell. 25XX is an objection.
ghost use Rattle.std.specs.Prelude.{◌≡◌, true, ◌+◌, ◌≤◌, length};
ghost use Rattle.laws.specs.Overlay.{Laid};
ghost use Rattle.fields.specs.CorrectionCode.{correction_code_of, correction_code_of_word, is_objection, correction_code_fits, correction_code_text};

#[derive(Clone, Copy, PartialEq, Eq)]
pub struct CorrectionCode(pub u16);

impl CorrectionCode {
    #[tactic(auto, using(std::proofs::lemmas::Bool::Decides::nat_tests), unfolding(crate::specs::CorrectionCode::correction_code_of, crate::specs::CorrectionCode::correction_code_from))]
    pub fn read(f: &[u8]) -> Option<CorrectionCode>
        ensures { result ≡ correction_code_of f.now }
    {
        if f.len() != 4 {
            return None;
        }
        let n = text::read_digits(f, false)?;
        Some(CorrectionCode(n as u16))
    }

    // From a plain word. An Option, as `read` answers: a TryFrom would need an error with nothing to say.
    #[tactic(auto, using(std::proofs::lemmas::Bool::Decides::nat_tests), unfolding(crate::specs::CorrectionCode::correction_code_of_word))]
    pub fn of_word(w: u64) -> Option<CorrectionCode>
        ensures { result ≡ correction_code_of_word w }
    {
        if 9999 < w {
            return None;
        }
        Some(CorrectionCode(w as u16))
    }

    // 25XX
    pub fn is_objection(self) -> bool
        ensures { result ≡ is_objection self }
    {
        self.0 / 100 == 25
    }

    #[tactic(auto, using(laws::proofs::Digits::length_digits))]
    pub fn write(self, out: &mut [u8], at: usize) -> usize
        requires { (at + length (correction_code_text self) ≤ length out.old) × (correction_code_fits self ≡ true) }
        ensures { Laid out.old at (correction_code_text self) out.new result }
    {
        text::put_digits(out, at, 4, u64::from(self.0))
    }
}
