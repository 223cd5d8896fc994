// A network code: D and three digits, known by the number that they spell.
ghost use Rattle.std.specs.Prelude.{◌≡◌, true, ◌+◌, ◌≤◌, length};
ghost use Rattle.laws.specs.Overlay.{Laid};
ghost use Rattle.fields.specs.Code.{code_of, code_fits, code_of_word, code_text};

#[derive(Clone, Copy, PartialEq, Eq)]
pub struct Code(pub u16);

impl Code {
    // D999
    pub const HIGHEST: Code = Code(999);

    // From the bytes of its field.
    #[tactic(auto, using(std::proofs::lemmas::Bool::Decides::nat_tests), unfolding(crate::specs::Code::code_of, crate::specs::Code::code_from))]
    pub fn read(f: &[u8]) -> Option<Code>
        ensures { result ≡ code_of f.now }
    {
        if f.len() != 4 || f[0] != b'D' {
            return None;
        }
        let n = text::read_digits(&f[1..], false)?;
        Some(Code(n as u16))
    }

    // Whether three digits spell it.
    pub fn fits(self) -> bool
        ensures { result ≡ code_fits self }
    {
        self.0 <= Code::HIGHEST.0
    }

    // From a plain word. An Option, as `read` answers: a TryFrom would need an error with nothing to say.
    #[tactic(auto, using(std::proofs::lemmas::Bool::Decides::nat_tests), unfolding(crate::specs::Code::code_of_word))]
    pub fn of_word(w: u64) -> Option<Code>
        ensures { result ≡ code_of_word w }
    {
        if 999 < w {
            return None;
        }
        Some(Code(w as u16))
    }

    // Into its field, which can hold it.
    #[tactic(auto, using(laws::proofs::Digits::length_digits))]
    pub fn write(self, out: &mut [u8], at: usize) -> usize
        requires { (at + length (code_text self) ≤ length out.old) × (code_fits self ≡ true) }
        ensures { Laid out.old at (code_text self) out.new result }
    {
        let behind = text::put_byte(out, at, b'D');
        text::put_digits(out, behind, 3, u64::from(self.0))
    }
}
