// The kinds of file that are filed, each with a journal of its own.
ghost use Rattle.std.specs.Prelude.{◌≡◌};
ghost use Rattle.filing.specs.entering.Entering.{kind_number, file_kind, most};

use records::names::kind::FileKind;

#[derive(Clone, Copy)]
pub enum Filable {
    Default,
    Correction,
}

impl Filable {
    // Its number in the list of files.
    pub fn number(self) -> u8
        ensures { result ≡ kind_number self }
    {
        match self {
            Filable::Default => 0,
            Filable::Correction => 1,
        }
    }

    // The kind among all kinds of file; crates above call it by this name, and a `From` beside it would say the same.
    pub fn file_kind(self) -> FileKind
        ensures { result ≡ file_kind self }
    {
        match self {
            Filable::Default => FileKind::Default,
            Filable::Correction => FileKind::Correction,
        }
    }

    // How many records the kind's journal takes.
    pub fn most(self) -> usize
        ensures { result ≡ most self }
    {
        match self {
            Filable::Default => store::journals::records::REPORTS,
            Filable::Correction => store::journals::records::CORRECTIONS,
        }
    }
}
