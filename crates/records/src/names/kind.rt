// The kinds of files. Default and correction files are filed; request and response files are only read and written.
ghost use Rattle.std.specs.Prelude.{◌≡◌};
ghost use Rattle.records.specs.names.Kind.{kind_of, letter_of, has_closing};

#[derive(Clone, Copy, PartialEq, Eq)]
pub enum FileKind {
    Default,
    Correction,
    Request,
    Response,
}

impl FileKind {
    // The kind that the second letter of a file's name tells. An Option, as every reader answers: a TryFrom would need an error with nothing to say.
    #[tactic(auto, using(std::proofs::lemmas::Bool::Decides::nat_tests), unfolding(crate::specs::names::Kind::kind_of))]
    pub fn of_letter(letter: u8) -> Option<FileKind>
        ensures { result ≡ kind_of letter }
    {
        match letter {
            b'D' => Some(FileKind::Default),
            b'K' => Some(FileKind::Correction),
            b'Q' => Some(FileKind::Request),
            b'R' => Some(FileKind::Response),
            _ => None,
        }
    }

    pub fn letter(self) -> u8
        ensures { result ≡ letter_of self }
    {
        match self {
            FileKind::Default => b'D',
            FileKind::Correction => b'K',
            FileKind::Request => b'Q',
            FileKind::Response => b'R',
        }
    }

    // Whether the kind's tables ask for a closing record.
    pub fn has_closing(self) -> bool
        ensures { result ≡ has_closing self }
    {
        match self {
            FileKind::Default => true,
            FileKind::Correction => true,
            FileKind::Request => false, // one record, and nothing behind it
            FileKind::Response => true,
        }
    }
}
