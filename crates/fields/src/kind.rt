// The kind of a report, which its status field names: gained (P), lost (L), given back (Z).
ghost use Rattle.std.specs.Prelude.{◌≡◌, ◌+◌, ◌≤◌, length};
ghost use Rattle.laws.specs.Overlay.{Laid};
ghost use Rattle.fields.specs.Kind.{kind_of, kind_of_word, kind_text};

#[derive(Clone, Copy, PartialEq, Eq)]
pub enum Kind {
    P,
    L,
    Z,
}

impl Kind {
    #[tactic(auto, using(std::proofs::lemmas::Bool::Decides::nat_tests), unfolding(crate::specs::Kind::kind_of, crate::specs::Kind::kind_by))]
    pub fn read(f: &[u8]) -> Option<Kind>
        ensures { result ≡ kind_of f.now }
    {
        if f.len() != 1 {
            return None;
        }
        match f[0] {
            b'P' => Some(Kind::P),
            b'L' => Some(Kind::L),
            b'Z' => Some(Kind::Z),
            _ => None,
        }
    }

    // From a plain word: P is 0, L is 1, Z is 2. An Option, as `read` answers: a TryFrom would need an error with nothing to say.
    #[tactic(auto, using(std::proofs::lemmas::Bool::Decides::nat_tests), unfolding(crate::specs::Kind::kind_by))]
    pub fn of_word(w: u64) -> Option<Kind>
        ensures { result ≡ kind_of_word w }
    {
        match w {
            0 => Some(Kind::P),
            1 => Some(Kind::L),
            2 => Some(Kind::Z),
            _ => None,
        }
    }

    pub fn write(self, out: &mut [u8], at: usize) -> usize
        requires { at + length (kind_text self) ≤ length out.old }
        ensures { Laid out.old at (kind_text self) out.new result }
    {
        match self {
            Kind::P => text::put_byte(out, at, b'P'),
            Kind::L => text::put_byte(out, at, b'L'),
            Kind::Z => text::put_byte(out, at, b'Z'),
        }
    }
}
